//! The help of the commands `run` and `fly`: a dump plan is carried out over the sources and the links of two texts.

pub(crate) const RUN_ABOUT: &str =
    "Carries out a dump plan with the packets of a file, and reports what came, was lost, dumped and is held";

pub(crate) const FLY_ABOUT: &str = "Plans the dumps, and carries the plan out as `run` does";

pub(crate) const RUN_HELP: &str = "\
Prints a report:
  step T ID arrived A lost L dumped D held H
                              what step T brought to a store, in blocks
  differs step T ID forecast F came A
                              another number of packets came than the forecast says
  total arrived A lost L dumped D held H
                              the sums; held is what the stores hold after the last step
  halted step T NUMBER NAME   the run was halted in step T, and the report is of the steps before it
or one line:
  refused NUMBER NAME ..      a file was not read or is not what it should be, or the run did not begin

Each line of SOURCES is a packet: the number of its source, 1 to 8, its step, and its octets in hexadecimal
digits. A packet of step 0 is offered to the stores before the run. LINKS begins with `links N`; each line
`fail L K` after it makes the K-th send of link L fail.

Option, anywhere after `run`:
  --rest                      prints a script if a link halts the run, which plans the rest of it if the program
                              reads it without words: in its setup each store starts with what it holds, its
                              forecast begins with what is left of the halted step, and its last file is the report

Examples:
  mm_tool run setup.toml forecast.csv plan.txt sources.hex links.txt
  mm_tool run --rest setup.toml forecast.csv plan.txt sources.hex links.txt

The formats are described in docs/FORMATS.md. Exit status: 0 if the plan is carried out, even if what comes
is not what the forecast says, 1 otherwise.";

pub(crate) const FLY_HELP: &str = "\
Prints the plan text that `plan` prints, and then what `run` prints of it.

Option, anywhere after `fly`:
  --in-order                  the plan serves the stores in the setup's order, as that of `plan --in-order` does

Examples:
  mm_tool fly setup.toml forecast.csv sources.hex links.txt
  mm_tool fly --in-order setup.toml forecast.csv sources.hex links.txt

The formats are described in docs/FORMATS.md. Exit status: 0 if the plan is carried out, even if what comes
is not what the forecast says, 1 otherwise.";
