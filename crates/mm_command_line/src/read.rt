//! The help of the command `read`: packets of the storage service in words and numbers.

pub(crate) const ABOUT: &str = "Says in words what packets of the storage service hold";

pub(crate) const HELP: &str = "\
Each line of PACKETS is a request or a report of service 15 in hexadecimal digits. Spaces between digits are
passed over, and so are empty lines. A line `N report HEX` of `ask` is read as that report; the other lines
of `ask` are printed as they stand. Prints for line N:
  N telecommand ..            the fields of the headers, in decimal numbers; or N telemetry ..
    enable storage            what the request asks, or what the report tells
      N.K ID ..               instruction K of a request; in a report an entry, without N.K
  N refused NUMBER NAME       line N is no packet of the service
or one line:
  refused NUMBER NAME ..      the file was not read

Examples:
  mm_tool read packets.hex
  mm_tool ask setup.toml requests.hex > answers.txt; mm_tool read answers.txt

The formats are described in docs/FORMATS.md. Exit status: 0 if each packet is read, 1 otherwise.";
