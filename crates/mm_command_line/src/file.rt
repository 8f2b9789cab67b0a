//! The words of a command that name its files, or a step.
ghost use Rattle.std.specs.Prelude.{◌≡◌};
ghost use Rattle.mm_command_line.specs.Commands.{name_of};

/// What a word after a command names.
#[derive(Clone, Copy)]
pub(crate) enum File {
    Setup,
    Forecast,
    Plan,
    /// A plan that is carried out, and not judged.
    FlownPlan,
    /// The last step of a plan that is kept, which is no file.
    Step,
    Sources,
    Links,
    Requests,
    Packets,
    Mission,
}

impl File {
    /// What help calls it.
    pub(crate) fn name(self) -> &'static str
        ensures { result.now ≡ name_of self }
    {
        match self {
            File::Setup => "SETUP",
            File::Forecast => "FORECAST",
            File::Plan | File::FlownPlan => "PLAN",
            File::Step => "STEP",
            File::Sources => "SOURCES",
            File::Links => "LINKS",
            File::Requests => "REQUESTS",
            File::Packets => "PACKETS",
            File::Mission => "MISSION",
        }
    }

    /// What help says that it holds.
    pub(crate) fn help(self) -> &'static str {
        match self {
            File::Setup => "The packet stores, routes and limits of channels, in TOML",
            File::Forecast => "The windows and arrivals of each step, in CSV",
            File::Plan => "The dump plan with its loss and its cut",
            File::FlownPlan => "The dump plan; its loss and its cut are not judged",
            File::Step => "The last step of the plan that is kept: 1, 2, 3 ..",
            File::Sources => "The packets: lines `source step HEX`",
            File::Links => "The links: `links N`, then lines `fail LINK SEND`",
            File::Requests => "The requests: a telecommand per line, in hexadecimal digits",
            File::Packets => "The packets: one per line, in hexadecimal digits",
            File::Mission => "The stores, stations, passes and observations in UTC, in TOML",
        }
    }
}
