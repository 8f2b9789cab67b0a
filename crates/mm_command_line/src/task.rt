//! The tasks of the program, and their files.
ghost use Rattle.std.specs.Prelude.{◌≡◌, IfSome, IfNone, map};
ghost use Rattle.mm_command_line.specs.Lines.{HasNames, IsOutput, command_words, flag_of, output_of, plan_words};
ghost use Rattle.mm_command_line.specs.Names.{names_in};
ghost use Rattle.mm_command_line.specs.declared.task.Task.TheVariants.{Fly};

use crate::options::{IN_ORDER, REST, WORTH, is_given, kept_in, output_in, part_in};

/// What a file of a task has.
#[derive(Clone, Copy)]
pub enum Role {
    Setup,
    Forecast,
    Plan,
    Sources,
    Links,
}

/// The names of a task's files; none for a file that the task does not have.
#[derive(Clone, Copy, Default)]
pub struct FileNames<'a> {
    pub setup: Option<&'a str>,
    pub forecast: Option<&'a str>,
    pub plan: Option<&'a str>,
    pub sources: Option<&'a str>,
    pub links: Option<&'a str>,
    /// The requests, the packets, or the mission.
    pub other: Option<&'a str>,
}

// The names of these files, and of no others.
macro_rules! names {
    ($($file:ident: $name:expr),+) => { FileNames { $($file: Some($name),)+ ..FileNames::default() } };
}

/// The files of a problem and of a plan for it, by their names.
#[derive(Clone, Copy)]
pub struct PlanFiles<'a> {
    pub setup: &'a str,
    pub forecast: &'a str,
    pub plan: &'a str,
}

/// The first steps of a plan.
#[derive(Clone, Copy)]
pub struct KeptSteps<'a> {
    pub files: PlanFiles<'a>,
    /// The word for the last of these steps.
    pub last: &'a str,
}

/// The plan of a run.
#[derive(Clone, Copy)]
pub enum FlightPlan<'a> {
    /// The plan of the file of this name. With `rest`, where a link halts the run, the script that plans the rest comes
    /// before the report.
    Given { name: &'a str, rest: bool },
    /// A plan that is made: one that loses least, and `in_order` by the stores that stand first in the setup.
    Made { in_order: bool },
}

/// The files of a run, by their names.
#[derive(Clone, Copy)]
pub struct FlightFiles<'a> {
    pub setup: &'a str,
    pub forecast: &'a str,
    pub plan: FlightPlan<'a>,
    pub sources: &'a str,
    pub links: &'a str,
}

impl<'a> FlightFiles<'a> {
    fn names(self) -> FileNames<'a>
        ensures { result ≡ names_in (Fly self.entry) }
    {
        let plan = match self.plan {
            FlightPlan::Given { name, .. } => Some(name),
            FlightPlan::Made { .. } => None,
        };
        FileNames {
            setup: Some(self.setup),
            forecast: Some(self.forecast),
            plan,
            sources: Some(self.sources),
            links: Some(self.links),
            other: None,
        }
    }

    // The run with these flags; none where they are not those of its command, or one is given twice.
    fn with_flags(self, flags: &[&str]) -> Option<FlightFiles<'a>>
        ensures words { IfSome result (λ run. command_words (Fly run) ≡ command_words (Fly self.entry)) }
        ensures flags { IfSome result (λ run. map (λ flag. flag.now) flags.now ≡ flag_of (Fly run)) }
        ensures none { IfNone result ((task : Task) → command_words task ≡ command_words (Fly self.entry)
            → map (λ flag. flag.now) flags.now ≡ flag_of task → ⊥) }
    {
        match self.plan {
            FlightPlan::Made { .. } => {
                let ordered = is_given(flags, IN_ORDER)?;
                Some(FlightFiles {
                    plan: FlightPlan::Made { in_order: ordered },
                    ..self
                })
            }
            FlightPlan::Given { name, .. } => {
                let rest = is_given(flags, REST)?;
                Some(FlightFiles {
                    plan: FlightPlan::Given { name, rest },
                    ..self
                })
            }
        }
    }
}

/// Which text of a planned mission is printed.
#[derive(Clone, Copy)]
pub enum MissionPart {
    /// What each pass dumps of each store, in UTC.
    Sheet,
    /// The setup of the problem that was planned.
    Setup,
    /// Its forecast.
    Forecast,
    /// The dump plan with its loss and its cut.
    Plan,
    /// When each dump begins and ends, in UTC.
    Timeline,
}

/// What the program is asked to do. Of a task with an `output` the text goes into the file of that name, and is printed
/// where there is none.
#[derive(Clone, Copy)]
pub enum Task<'a> {
    /// Plan the dumps so that least is lost, and `in_order` by the stores that stand first in the setup.
    Plan {
        setup: &'a str,
        forecast: &'a str,
        in_order: bool,
        output: Option<&'a str>,
    },
    /// Plan anew after the first steps of a plan, which are kept.
    Keep {
        kept: KeptSteps<'a>,
        output: Option<&'a str>,
    },
    /// Say whether the plan loses least.
    Check(PlanFiles<'a>),
    /// Draw the plan, with what each window is `worth` where that is asked.
    Chart {
        files: PlanFiles<'a>,
        worth: bool,
        output: Option<&'a str>,
    },
    /// Say what the plan does to each store in each step.
    Table {
        files: PlanFiles<'a>,
        output: Option<&'a str>,
    },
    /// Say what is left of the problem after the first steps of a plan.
    Rest {
        kept: KeptSteps<'a>,
        output: Option<&'a str>,
    },
    /// Say what each window, size and limit is worth.
    Sensitivity {
        setup: &'a str,
        forecast: &'a str,
        output: Option<&'a str>,
    },
    /// Carry out the plan, which is made first where there is no file of it.
    Fly(FlightFiles<'a>),
    /// Answer the requests of the storage service, one after another, in a memory of the setup.
    Ask {
        setup: &'a str,
        requests: &'a str,
    },
    /// Say what packets of the storage service hold.
    Read {
        packets: &'a str,
    },
    /// Plan a mission in UTC, and print this `part` of it.
    Mission {
        mission: &'a str,
        part: MissionPart,
        output: Option<&'a str>,
    },
}

// The task of `plan` with these flags; none where they are not its flags.
fn planning<'a>(
    setup: &'a str,
    forecast: &'a str,
    flags: &[&'a str],
    output: Option<&'a str>,
) -> Option<Task<'a>>
    ensures words { IfSome result (λ task. command_words task ≡ plan_words setup.entry.now forecast.entry.now) }
    ensures flags { IfSome result (λ task. map (λ flag. flag.now) flags.now ≡ flag_of task) }
    ensures names { IfSome result HasNames }
    ensures output { IfSome result (λ task. output_of task ≡ output.entry) }
    ensures none { IfNone result ((task : Task) → command_words task ≡ plan_words setup.entry.now forecast.entry.now
        → map (λ flag. flag.now) flags.now ≡ flag_of task → HasNames task → ⊥) }
{
    if let Some((plan, last)) = kept_in(flags) {
        let files = PlanFiles {
            setup,
            forecast,
            plan,
        };
        let kept = KeptSteps { files, last };
        return Some(Task::Keep { kept, output });
    }
    let in_order = is_given(flags, IN_ORDER)?;
    Some(Task::Plan {
        setup,
        forecast,
        in_order,
        output,
    })
}

impl<'a> Task<'a> {
    /// The names of the task's files.
    pub fn names(self) -> FileNames<'a>
        ensures { result ≡ names_in self.entry }
    {
        match self {
            Task::Plan {
                setup,
                forecast,
                ..
            }
            | Task::Sensitivity {
                setup,
                forecast,
                ..
            } => names! { setup: setup, forecast: forecast },
            Task::Check(files) | Task::Chart { files, .. } | Task::Table { files, .. } =>
                names! { setup: files.setup, forecast: files.forecast, plan: files.plan },
            Task::Keep { kept, .. } | Task::Rest { kept, .. } =>
                names! { setup: kept.files.setup, forecast: kept.files.forecast, plan: kept.files.plan },
            Task::Fly(files) => files.names(),
            Task::Ask { setup, requests } => names! { setup: setup, other: requests },
            Task::Read { packets } => names! { other: packets },
            Task::Mission { mission, .. } => names! { other: mission },
        }
    }

    /// The name of this file of the task, where the task has such a file.
    pub fn file(self, role: Role) -> Option<&'a str> {
        let names = self.names();
        match role {
            Role::Setup => names.setup,
            Role::Forecast => names.forecast,
            Role::Plan => names.plan,
            Role::Sources => names.sources,
            Role::Links => names.links,
        }
    }

    /// The task with these flags and outputs; none where they are not those of its command, or one is given twice.
    pub(crate) fn with_options(self, flags: &[&'a str], outputs: &[&'a str]) -> Option<Task<'a>>
        ensures words { IfSome result (λ task. command_words task ≡ command_words self.entry) }
        ensures flags { IfSome result (λ task. map (λ flag. flag.now) flags.now ≡ flag_of task) }
        ensures names { IfSome result HasNames }
        ensures outputs { IfSome result (λ task. IsOutput (map (λ name. name.now) outputs.now) (output_of task)) }
        ensures none { IfNone result ((task : Task) → command_words task ≡ command_words self.entry
            → map (λ flag. flag.now) flags.now ≡ flag_of task → HasNames task
            → IsOutput (map (λ name. name.now) outputs.now) (output_of task) → ⊥) }
    {
        let output = output_in(outputs)?;
        match self {
            Task::Plan {
                setup,
                forecast,
                ..
            } => planning(setup, forecast, flags, output),
            Task::Keep { kept, .. } => planning(
                kept.files.setup,
                kept.files.forecast,
                flags,
                output,
            ),
            Task::Chart { files, .. } => {
                let worth = is_given(flags, WORTH)?;
                Some(Task::Chart {
                    files,
                    worth,
                    output,
                })
            }
            Task::Table { files, .. } if flags.is_empty() => Some(Task::Table { files, output }),
            Task::Rest { kept, .. } if flags.is_empty() => Some(Task::Rest { kept, output }),
            Task::Sensitivity {
                setup,
                forecast,
                ..
            } if flags.is_empty() => Some(Task::Sensitivity {
                setup,
                forecast,
                output,
            }),
            Task::Mission { mission, .. } => {
                let part = part_in(flags)?;
                Some(Task::Mission {
                    mission,
                    part,
                    output,
                })
            }
            Task::Fly(files) => match output {
                None => Some(Task::Fly(files.with_flags(flags)?)),
                Some(_) => None,
            },
            _ if flags.is_empty() && output.is_none() => Some(self),
            _ => None,
        }
    }
}
