//! The help of the command `sensitivity`: what each window, store size and limit is worth.

pub(crate) const ABOUT: &str =
    "Says what each window, store size and limit is worth: how many blocks fewer are lost if it is larger";

pub(crate) const HELP: &str = "\
Prints comma separated values: a header, and then a record for each window, store and limit:
  item,name,step,now,next,most,without
  window,,STEP,..             the window of the step
  size,ID,,..                 the size of the store
  limit,CHANNEL,,..           the limit of the channel
  limit,CHANNEL,STEP,..       the limit of the channel in the step, from a column of the forecast
`now` is the number itself. `next` is how many blocks fewer the least plan loses if it is one larger, `most` if
it is 1000000, and `without` how many blocks more it loses if it is 0, or 1 for a size. A window that is larger
by E saves the lesser of E and `most`.
Or one line:
  refused NUMBER NAME ..      a file was not read, or is not what it should be

Option, anywhere after `sensitivity`:
  --output FILE               writes the table to FILE, whole or not at all, and does not print it; FILE is
                              none of the files above; - prints it

Example:
  mm_tool sensitivity setup.toml forecast.csv --output worth.csv

docs/PLANNING.md works with such a table. Exit status: 0 for a table, 1 for a refusal.";
