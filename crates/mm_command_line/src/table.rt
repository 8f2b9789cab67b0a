//! The help of the command `table`: what a dump plan does to each store, in numbers for a spreadsheet.

pub(crate) const ABOUT: &str =
    "Prints what a dump plan does to each store in each step, for a spreadsheet";

pub(crate) const HELP: &str = "\
Prints comma separated values: a header, and then a record for each step and store, with its cells in blocks:
  step,window,store,arrived,lost,dumped,held
The stores are in the order of the setup in each step. `held` is what the store holds as the step ends: it is
the `start` of the store in the setup of a plan that goes on after that step. The plan's loss and its cut are
not judged.
Or one line:
  refused NUMBER NAME ..      a file was not read, or is not what it should be

Option, anywhere after `table`:
  --output FILE               writes the table to FILE, whole or not at all, and does not print it; FILE is
                              none of the files above; - prints it

Example:
  mm_tool table setup.toml forecast.csv plan.txt --output table.csv

docs/PLANNING.md works with such a table. Exit status: 0 for a table, 1 for a refusal.";
