//! A verdict, as it crosses to C.
ghost use Rattle.std.specs.Prelude.{◌≡◌};
ghost use Rattle.mm_told.specs.Verdicts.{code_of_kind, told_by, told_of, nothing_told};

use mm_cut::Verdict;

/// Which verdict is told.
#[derive(Clone, Copy)]
pub enum VerdictKind {
    /// None: the call is refused.
    Nothing,
    Least,
    DoesNotFit,
    LossIs,
    BadStretch,
    BadCount,
    BoundIs,
    NotShown,
    LeastInOrder,
    FirstNotShown,
}

impl VerdictKind {
    /// The code of the kind.
    #[must_use]
    pub fn code(self) -> u32
        ensures { result ≡ code_of_kind self }
    {
        self as u32
    }
}

/// A verdict. `kind` is the code of a `VerdictKind`, and says which of the further fields say something; the others are
/// 0. Losses and bounds are in blocks; `place` is a step, or the place of a stretch or of a counted step, from 1, or a
/// number of first stores.
#[repr(C)]
#[derive(Clone, Copy)]
pub struct VerdictTold {
    pub kind: u32,
    pub place: u32,
    pub loss: u64,
    pub bound: i64,
}

impl VerdictTold {
    fn new(kind: VerdictKind, place: u32, loss: u64, bound: i64) -> VerdictTold
        ensures { result ≡ told_by kind place loss bound }
    {
        VerdictTold {
            kind: kind.code(),
            place,
            loss,
            bound,
        }
    }

    /// What is told where there is no verdict: each field is 0.
    #[must_use]
    pub fn nothing() -> VerdictTold
        ensures { result ≡ nothing_told }
    {
        VerdictTold::new(VerdictKind::Nothing, 0, 0, 0)
    }

    /// What is told of a verdict.
    #[must_use]
    pub fn of(verdict: Verdict) -> VerdictTold
        ensures { result ≡ told_of verdict }
    {
        match verdict {
            Verdict::DoesNotFit(step) => VerdictTold::new(VerdictKind::DoesNotFit, step, 0, 0),
            Verdict::LossIs(loss) => VerdictTold::new(VerdictKind::LossIs, 0, loss, 0),
            Verdict::BadStretch(place) => VerdictTold::new(VerdictKind::BadStretch, place, 0, 0),
            Verdict::BadCount(place) => VerdictTold::new(VerdictKind::BadCount, place, 0, 0),
            Verdict::BoundIs(bound) => VerdictTold::new(VerdictKind::BoundIs, 0, 0, bound),
            Verdict::NotShown { loss, bound } => {
                VerdictTold::new(VerdictKind::NotShown, 0, loss, bound)
            }
            Verdict::FirstNotShown(stores) => {
                VerdictTold::new(VerdictKind::FirstNotShown, stores, 0, 0)
            }
            Verdict::Least(loss) => VerdictTold::new(VerdictKind::Least, 0, loss, 0),
            Verdict::LeastInOrder(loss) => VerdictTold::new(VerdictKind::LeastInOrder, 0, loss, 0),
        }
    }
}
