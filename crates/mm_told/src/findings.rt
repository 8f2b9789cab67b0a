//! The words of what `check` finds of a plan that it does not show to lose least.
ghost use Rattle.std.specs.Prelude.{IfSome, IsTrue};
ghost use Rattle.mm_told.specs.Phrase.{is_phrase};

use crate::words::Words;
use mm_cut::Verdict;

impl Words {
    /// The words of a verdict other than `Least` and `LeastInOrder`, which need none.
    #[must_use]
    pub fn of_verdict(verdict: Verdict) -> Option<Words>
        ensures expected { IfSome result (λ words. IsTrue (is_phrase words.expected.now)) }
        ensures advice { IfSome result (λ words. IsTrue (is_phrase words.advice.now)) }
    {
        match verdict {
            Verdict::DoesNotFit(_) => Some(Words {
                expected: "amounts within the window and the channels' limits",
                advice: "dump less in that step, or plan again",
            }),
            Verdict::LossIs(_) => Some(Words {
                expected: "the loss that the plan has, which is the number printed",
                advice: "take the setup and the forecast that it was planned for; if dumps were changed, plan again",
            }),
            Verdict::BadStretch(_) => Some(Words {
                expected: "stretches of stores of the setup, with steps in order and in range, that share no step",
                advice: "correct that stretch, counted from 1, or plan again",
            }),
            Verdict::BadCount(_) => Some(Words {
                expected: "counts of inner steps, each once, at which each inner store has a channel with a limit",
                advice: "take that count out, counted from 1, or plan again",
            }),
            Verdict::BoundIs(_) => Some(Words {
                expected: "the bound that the cut has, which is the number printed",
                advice: "take the setup and the forecast that it was planned for, or plan again",
            }),
            Verdict::NotShown { .. } => Some(Words {
                expected: "a cut whose bound is the loss of the plan",
                advice: "plan again; this plan fits, and loses at most the difference more than the best",
            }),
            Verdict::FirstNotShown(_) => Some(Words {
                expected: "a cut of that many of the first stores whose bound is what they lose",
                advice: "plan again with --in-order; this plan fits, and loses least in all",
            }),
            Verdict::Least(_) | Verdict::LeastInOrder(_) => None,
        }
    }
}
