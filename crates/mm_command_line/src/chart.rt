//! The help of the command `chart`: the chart of a dump plan.

pub(crate) const ABOUT: &str = "Draws a dump plan: what is lost, when, and why no plan loses fewer";

pub(crate) const HELP: &str = "\
Prints one document, a picture in Scalable Vector Graphics (SVG) 1.1 for any browser. It has a row for the
windows, for each channel with a limit and for each store, the cut, and in words the sum that shows that no
plan loses fewer blocks, and which windows, limits, sizes and arrivals alone could change that. Its headline
is what `check` finds: if the cut does not show that the plan loses least, it says so, in red.
Or one line:
  refused NUMBER NAME ..      a file was not read, or is not what it should be

Options, anywhere after `chart`:
  --worth                     a bar above a window, or above the row of a channel with a limit, shows how many
                              blocks it saves at most if it alone is larger; words tell the windows' savings
  --output FILE               writes the picture to FILE, whole or not at all, and does not print it; FILE is
                              none of the files above; - prints it

Examples:
  mm_tool chart setup.toml forecast.csv plan.txt --output chart.svg
  mm_tool chart --worth setup.toml forecast.csv plan.txt --output chart.svg

examples/mission/README.md reads such a picture. Exit status: 0 for a picture, whatever its headline, 1 for a
refusal.";
