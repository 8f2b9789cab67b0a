//! The help of the command `rest`: what is left after a step of a plan.

pub(crate) const ABOUT: &str = "Prints what is left after a step of a plan, to be planned anew";

pub(crate) const HELP: &str = "\
Prints a script, which the program reads and plans if it is called without words:
  plan setup.toml forecast.csv
  === setup.toml              the setup, in which each store starts with what it holds as STEP ends
  === forecast.csv            the steps after STEP, which count from 1 again
To plan it is to plan anew with the steps up to STEP as they are: what the plan loses in these steps, and what
the new plan loses, add up. The plan's loss and its cut are not judged.
Or one line:
  refused NUMBER NAME ..      a file was not read, or is not what it should be, or no step comes after STEP

Option, anywhere after `rest`:
  --output FILE               writes the script to FILE, whole or not at all, and does not print it; FILE is
                              none of the files above; - prints it

Examples:
  mm_tool rest setup.toml forecast.csv plan.txt 2 --output later.txt
  mm_tool rest setup.toml forecast.csv plan.txt 2 | mm_tool

docs/PLANNING.md works with such a script. Exit status: 0 for a script, 1 for a refusal.";
