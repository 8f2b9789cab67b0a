//! The help of the command `mission`: a mission in UTC is planned.

pub(crate) const ABOUT: &str =
    "Plans a mission in UTC: which packets each pass dumps, when, and how many are lost";

pub(crate) const HELP: &str = "\
MISSION is a text in TOML: begin and end, and tables of stores, stations, passes and observations, or the names
of their tables in CSV. These lie beside MISSION: a name is that of a file in the folder of MISSION, unless it
begins with /. MISSION is read first, and then the tables: stores, stations, passes, observations.

Prints the sheet, comma separated values: a header, and then a record for each pass and store:
  pass,station,begin,end,store,packets,octets,bit/s,before,after,lost
Records of `before the first pass` come first, one for each store that loses something then.
Standard error says how many packets will be lost, and that no plan loses fewer.
Or one line:
  refused NUMBER NAME ..      a file was not read, or is not what it should be; standard error says where it is,
                              and what was found

Options, anywhere after `mission`, at most one of the first four:
  --setup                     prints the setup of the problem of the mission, in steps and units, as `plan` reads it
  --forecast                  prints its forecast
  --plan                      prints the plan text that `plan` prints of these two
  --timeline                  prints when each dump begins and ends, a record each:
                              pass,station,begin,end,store,packets,octets,bit/s
  --output FILE               writes the text to FILE, whole or not at all, and does not print it; FILE is
                              none of the files above; - prints it

Examples:
  mm_tool mission mission.toml
  mm_tool mission --timeline mission.toml --output timeline.csv
  mm_tool mission --setup mission.toml --output setup.toml

docs/FORMATS.md describes the mission, its tables, the sheet and the timeline. Exit status: 0 for a text, 1 for
a refusal.";
