//! How a run of the program ended.
ghost use Rattle.std.specs.Prelude.{◌≡◌, ◌≤◌, IfOk, IfErr};
ghost use Rattle.mm_commands.specs.Statuses.{exit_code};

/// How a run of the program ended.
#[derive(Clone, Copy)]
pub enum Status {
    Done,
    /// Something is refused, a verdict is neither `Least` nor `LeastInOrder`, a run was halted, or a write failed.
    Refused,
    /// The command line is invalid, or help was asked for.
    BadCommandLine,
}

/// Where a write failed.
#[derive(Clone, Copy, Debug, PartialEq, Eq)]
pub enum Unwritten {
    /// The one for what answers a task, and for why it is refused: standard output.
    Output,
    /// The one for what a refusal means, and for help: standard error.
    Messages,
    /// Neither stream: the task's output file. Standard error says why it was not written.
    File,
}

impl Status {
    /// The exit status.
    pub fn code(self) -> u8
        ensures code { result ≡ exit_code self }
        ensures most { result ≤ 2 }
    {
        match self {
            Status::Done => 0,
            Status::Refused => 1,
            Status::BadCommandLine => 2,
        }
    }

    /// The exit status of a run, where a write that failed counts as a refusal.
    pub fn code_of(run: Result<Status, Unwritten>) -> u8
        ensures code { IfOk run (λ status. result ≡ exit_code status) }
        ensures failed { IfErr run (λ unwritten. result ≡ 1) }
        ensures most { result ≤ 2 }
    {
        match run {
            Ok(status) => status.code(),
            Err(_) => Status::Refused.code(),
        }
    }
}
