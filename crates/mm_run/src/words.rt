//! The numbers that the words of the texts write.
ghost use Rattle.std.specs.Prelude.{◌≡◌, ◌≤◌, IfOk};
ghost use Rattle.mm_run.specs.Words.{number_in};

use crate::script_fault::ScriptFault;
use mm_base::numbers::Numeral;

/// The number that a word writes, where it is in this range; otherwise the line is refused.
pub(crate) fn number_in(
    bad: ScriptFault,
    low: u64,
    high: u64,
    word: &[u8],
) -> Result<u64, ScriptFault>
    ensures number { result ≡ number_in bad low high word.now }
    ensures low { IfOk result (λ n. low ≤ n) }
    ensures high { IfOk result (λ n. n ≤ high) }
{
    match Numeral::read(word, high) {
        Numeral::Number(number) if low <= number => Ok(number),
        _ => Err(bad),
    }
}
