//! The numbers of a series over all steps, which are looked up once.
ghost use Rattle.std.specs.Prelude.{◌≡◌, ◌^◌, ◌+◌, ◌*◌, ◌<◌, ◌≤◌, ℕ, length, slice_index_or};
ghost use Rattle.mm_base.specs.declared.limits.TheConstants.{MAX_STORES, MAX_STEPS};
ghost use Rattle.mm_chart.specs.Series.{IsSeries, amount_at, total_of, most_of};
ghost use Rattle.mm_chart.specs.Columns.{AreAmounts};
ghost use Rattle.mm_chart.specs.declared.series.TheConstants.{AMOUNT_PLACES};

use crate::picture::Picture;
use crate::series::{AMOUNT_PLACES, Series};

/// A series of a picture, with its number of each step.
#[derive(Drop)]
pub struct Column<'a> {
    pub picture: &'a Picture,
    pub series: Series,
    amounts: [u64; AMOUNT_PLACES],
    ghost places: { length amounts ≡ AMOUNT_PLACES },
    ghost are_amounts: { AreAmounts picture.now series amounts },
    ghost most: { (t : ℕ) → slice_index_or amounts t 0 ≤ MAX_STORES * 2 ^ 32 },
}

impl<'a> Column<'a> {
    /// The column of a series.
    #[must_use]
    pub fn new(picture: &'a Picture, series: Series) -> Column<'a>
        requires { IsSeries picture.now series }
        ensures picture { result.picture.now ≡ picture.now }
        ensures series { result.series ≡ series }
    {
        Column {
            picture,
            series,
            amounts: picture.amounts(series),
        }
    }

    /// The number at a place, and 0 where it is no step.
    #[must_use]
    pub fn amount_at(&self, step: u32) -> u64
        requires { step < AMOUNT_PLACES }
        ensures amount { result ≡ amount_at self.now.picture.now self.now.series step }
        ensures most { result ≤ MAX_STORES * 2 ^ 32 }
    {
        self.amounts[step as usize]
    }

    /// The sum over all steps.
    #[tactic(auto, using(crate::proofs::Numbers::amount_at_step, crate::proofs::Ranges::sum_by_next))]
    #[must_use]
    pub fn total(&self) -> u64
        ensures total { result ≡ total_of self.now.picture.now self.now.series }
        ensures most { result ≤ MAX_STEPS * (MAX_STORES * 2 ^ 32) }
    {
        let mut total: u64 = 0;
        for step in 1..self.picture.problem().steps() + 1 {
            total += self.amount_at(step);
        }
        total
    }

    /// The largest number of a step.
    #[tactic(auto, using(crate::proofs::Numbers::amount_at_step, crate::proofs::Ranges::largest_next))]
    #[must_use]
    pub fn most(&self) -> u64
        ensures largest { result ≡ most_of self.now.picture.now self.now.series }
        ensures most { result ≤ MAX_STORES * 2 ^ 32 }
    {
        let mut most: u64 = 0;
        for step in 1..self.picture.problem().steps() + 1 {
            most = most.max(self.amount_at(step));
        }
        most
    }
}
