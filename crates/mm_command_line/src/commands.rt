//! The commands of the program: a row for each, in the order in which help tells them.

use crate::command::Form;
use crate::file::File::{
    FlownPlan, Forecast, Links, Mission, Packets, Plan, Requests, Setup, Sources, Step,
};
use crate::{chart, flight, mission, read, rest, sensitivity, table};

// The commands: the word of each, its files, the words of a whole line after the program's name, and its help.
macro_rules! commands {
    ($($word:literal $files:tt: $usage:literal, $about:path, $help:path;)+) => {
        [$(Form { word: $word, usage: concat!("mm_tool ", $usage), about: $about, help: $help, files: &$files }),+]
    };
}

pub(crate) static COMMANDS: [Form; 11] = commands! {
    "plan" [Setup, Forecast]: "plan [--in-order | --keep <PLAN> <STEP>] <SETUP> <FORECAST> [--output <FILE>]",
        PLAN_ABOUT, PLAN_HELP;
    "check" [Setup, Forecast, Plan]: "check <SETUP> <FORECAST> <PLAN>", CHECK_ABOUT, CHECK_HELP;
    "chart" [Setup, Forecast, Plan]: "chart [--worth] <SETUP> <FORECAST> <PLAN> [--output <FILE>]",
        chart::ABOUT, chart::HELP;
    "table" [Setup, Forecast, Plan]: "table <SETUP> <FORECAST> <PLAN> [--output <FILE>]", table::ABOUT, table::HELP;
    "rest" [Setup, Forecast, Plan, Step]: "rest <SETUP> <FORECAST> <PLAN> <STEP> [--output <FILE>]",
        rest::ABOUT, rest::HELP;
    "sensitivity" [Setup, Forecast]: "sensitivity <SETUP> <FORECAST> [--output <FILE>]",
        sensitivity::ABOUT, sensitivity::HELP;
    "run" [Setup, Forecast, FlownPlan, Sources, Links]: "run [--rest] <SETUP> <FORECAST> <PLAN> <SOURCES> <LINKS>",
        flight::RUN_ABOUT, flight::RUN_HELP;
    "fly" [Setup, Forecast, Sources, Links]: "fly [--in-order] <SETUP> <FORECAST> <SOURCES> <LINKS>",
        flight::FLY_ABOUT, flight::FLY_HELP;
    "ask" [Setup, Requests]: "ask <SETUP> <REQUESTS>", ASK_ABOUT, ASK_HELP;
    "read" [Packets]: "read <PACKETS>", read::ABOUT, read::HELP;
    "mission" [Mission]: "mission [--setup | --forecast | --plan | --timeline] <MISSION> [--output <FILE>]",
        mission::ABOUT, mission::HELP;
};

const PLAN_ABOUT: &str = "Plans the dumps so that the fewest blocks are lost";

const PLAN_HELP: &str = "\
Prints a plan text:
  mmplan 1, 2 or 3            the form; 2 has `count` lines, and 3 is that of --in-order
  stores ID ..                the stores
  dump T N ..                 how many blocks leave each store in step T
  loss N                      how many blocks are lost
  stretch ID I J              the cut: steps I to J of a store
  count T channels            in step T of the cut the limits of channels count, and not the window
  bound N                     no plan that fits loses fewer than N blocks; without --keep it is the loss
  first K                     form 3, for each K below the number of stores: the loss, cut and bound of the
                              first K stores follow, in lines as above
  end
or one line:
  refused NUMBER NAME ..      a file was not read, or is not what it should be

Options, anywhere after `plan`:
  --in-order                  of the plans that lose least, one that serves the stores in the setup's order:
                              no plan that fits loses fewer of the first K stores, for each K
  --keep PLAN STEP            keeps the steps of the plan text PLAN up to STEP, and plans those after it anew: no
                              plan that fits and has these first steps loses fewer. The cut shows what the later
                              steps lose, so that its bound may be below the loss; the kept steps are not judged
  --output FILE               writes the plan text to FILE, whole or not at all, and does not print it; FILE is
                              none of the files above; - prints it

A file named - is standard input, for one file at most.

Examples:
  mm_tool plan setup.toml forecast.csv
  mm_tool plan setup.toml forecast.csv --output plan.txt
  mm_tool plan --in-order setup.toml forecast.csv --output plan.txt
  mm_tool plan setup.toml forecast.csv --keep plan.txt 2 --output later.txt

The formats are described in docs/FORMATS.md. Exit status: 0 for a plan text, 1 for a refusal.";

const CHECK_ABOUT: &str = "Says whether the cut of a dump plan shows that it loses least";

const CHECK_HELP: &str = "\
Prints one line:
  least N                     no plan that fits loses fewer than N blocks, and the cut shows it
  least N in order            also, no plan that fits loses fewer of the first K stores, for each K
  first K not shown           the cut of the first K stores does not show what they lose
  does not fit, step T        step T dumps more than its window or a channel's limit
  loss is N                   the plan loses N blocks, and not what its text says
  bad stretch K               the K-th stretch is none of the problem's, or overlaps an earlier one
  bad count K                 the K-th count cannot stand in this cut
  bound is N                  the bound of the cut is N, and not what the text says
  not shown, loss N bound M   the plan loses N, and the cut shows only that none loses fewer than M
  refused NUMBER NAME ..      a file was not read, or is not what it should be

Example:
  mm_tool check setup.toml forecast.csv plan.txt

The formats are described in docs/FORMATS.md. Exit status: 0 for `least N` and `least N in order`, 1 for any
other line.";

const ASK_ABOUT: &str = "Answers requests of the storage service in a memory of the setup";

const ASK_HELP: &str = "\
The memory begins with the stores of the setup, empty and with their storage on. Line n of REQUESTS is
a telecommand of service 15, applied at the moment n; empty lines are skipped and counted. For each
other line, the answers to its instructions and then its reports are printed:
  N.K done                    instruction K of line N is carried out
  N.K refused NUMBER NAME     instruction K is refused, and has changed nothing
  N report HEX                a report, a telemetry packet in hexadecimal digits
  N refused NUMBER NAME       line N is no request, and nothing of it is done
or one line:
  refused NUMBER NAME ..      a file was not read, or is not what it should be

Example:
  mm_tool ask setup.toml requests.hex

The formats are described in docs/FORMATS.md. Exit status: 0 if nothing is refused, 1 otherwise.";
