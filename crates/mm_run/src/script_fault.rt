//! Why a text of sources or of links is refused.
ghost use Rattle.std.specs.Prelude.{◌≡◌};

use mm_base::{NoMemory, Refusal, Refused, refusals};
use thiserror::Error;

/// Why a text of sources or of links is refused. It is shown as its number, its name and its line.
#[derive(Clone, Copy, Debug, PartialEq, Eq, Error)]
pub enum ScriptFault {
    #[error("{}", self.refusal())]
    NoMemory,
    /// The number, from 1, of the first line of a text of sources that is not as it should be.
    #[error("{} line {line}", self.refusal())]
    SourcesText { line: u64 },
    /// The number, from 1, of the first line of a text of links that is not as it should be.
    #[error("{} line {line}", self.refusal())]
    LinksText { line: u64 },
}

impl Refused for ScriptFault {
    fn refusal(self) -> Refusal {
        refusals!(self; NoMemory; with SourcesText, LinksText)
    }

    ghost use Rattle.mm_run.specs.ScriptFault.{refusal_of};

    ghost refusal_of = { refusal_of };
}

impl From<NoMemory> for ScriptFault {
    ghost use Rattle.mm_run.specs.declared.script_fault.ScriptFault.TheVariants.{NoMemory};

    ghost from_gives = { λ _ e. e ≡ NoMemory };

    fn from(_error: NoMemory) -> ScriptFault {
        ScriptFault::NoMemory
    }
}
