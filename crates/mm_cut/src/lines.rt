//! The lines that verdicts are printed as.
ghost use Rattle.std.specs.Prelude.{◌≡◌, ◌++◌, ◌∷◌, [], decimal, IfOk};
ghost use Rattle.mm_base.specs.Characters.{space, line_feed};
ghost use Rattle.mm_cut.specs.Lines.{line_of};

use crate::verdict::Verdict;
use mm_base::NoMemory;
use std::alloc::Global;

// The line that says this of a number.
fn numbered(alloc: Global, said: &str, number: u64) -> Result<Vec<u8>, NoMemory>
    ensures { IfOk result (λ line. line.items ≡ said.now ++ space ∷ decimal number ++ line_feed ∷ []) }
{
    Ok(format!(in alloc; "{said} {number}\n")?.into_bytes())
}

// The line that says this of a number, with words after it.
fn number_between(alloc: Global, said: &str, number: u64, after: &str) -> Result<Vec<u8>, NoMemory>
    ensures { IfOk result (λ line. line.items ≡ said.now ++ space ∷ decimal number ++ space ∷ after.now
        ++ line_feed ∷ []) }
{
    Ok(format!(in alloc; "{said} {number} {after}\n")?.into_bytes())
}

/// The line of a verdict, with its line end.
pub fn verdict_line(alloc: Global, verdict: Verdict) -> Result<Vec<u8>, NoMemory>
    ensures line { IfOk result (λ line. line.items ≡ line_of verdict) }
{
    match verdict {
        Verdict::DoesNotFit(step) => numbered(alloc, "does not fit, step", u64::from(step)),
        Verdict::LossIs(loss) => numbered(alloc, "loss is", loss),
        Verdict::BadStretch(place) => numbered(alloc, "bad stretch", u64::from(place)),
        Verdict::BadCount(place) => numbered(alloc, "bad count", u64::from(place)),
        Verdict::BoundIs(bound) => Ok(format!(in alloc; "bound is {bound}\n")?.into_bytes()),
        Verdict::NotShown { loss, bound } => {
            Ok(format!(in alloc; "not shown, loss {loss} bound {bound}\n")?.into_bytes())
        }
        Verdict::FirstNotShown(stores) => {
            number_between(alloc, "first", u64::from(stores), "not shown")
        }
        Verdict::Least(loss) => numbered(alloc, "least", loss),
        Verdict::LeastInOrder(loss) => number_between(alloc, "least", loss, "in order"),
    }
}
