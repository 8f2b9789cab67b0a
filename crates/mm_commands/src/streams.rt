//! When a task reads standard input twice.
ghost use Rattle.std.specs.Prelude.{◌≡◌, ◌≤◌};
ghost use Rattle.mm_commands.specs.Streams.{input_in, reads_twice};

use mm_command_line::Task;
use mm_files::STREAM;

// 1 where this is the name of standard input, and else 0.
fn input_in(name: Option<&str>) -> u8
    ensures count { result ≡ input_in name.entry }
    ensures most { result ≤ 1 }
{
    match name {
        Some(name) => u8::from(name == STREAM),
        None => 0,
    }
}

/// Whether the task has standard input for more than one of its files.
pub(crate) fn reads_twice(streams: bool, task: Task<'_>) -> bool
    ensures { result ≡ reads_twice streams task.entry }
{
    let names = task.names();
    let inputs = input_in(names.setup)
        + input_in(names.forecast)
        + input_in(names.plan)
        + input_in(names.sources)
        + input_in(names.links)
        + input_in(names.other);
    streams && inputs > 1
}
