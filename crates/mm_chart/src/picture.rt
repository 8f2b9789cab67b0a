//! A plan to be drawn, and the numbers of its chart.
ghost use Rattle.std.specs.Prelude.{◌≡◌, ℕ, ◌^◌, ◌+◌, ◌*◌, ◌<◌, ◌≤◌, [], if◌then◌else◌, All, IfOk, Some, None, length};
ghost use Rattle.std.specs.Prelude.{slice_index_or};
ghost use Rattle.mm_base.specs.declared.limits.TheConstants.{MAX_STORES, MAX_STEPS, MAX_BLOCKS};
ghost use Rattle.std.specs.List.{sum_by};
ghost use Rattle.mm_problem.specs.Dumping.{IsDumping, stores, stores_of};
ghost use Rattle.mm_plan.specs.Sheet.{IsSheet};
ghost use Rattle.mm_plan.specs.Table.{amount, HasShape};
ghost use Rattle.mm_plan.specs.Volumes.{first_loss, left};
ghost use Rattle.mm_cut.specs.Stretches.{IsStretch, AreStretches};
ghost use Rattle.mm_cut.specs.Cuts.{IsCut, coming_sum, held_sum, counts_window, counts_limits, windows_sum, limits_sum};
ghost use Rattle.mm_cut.specs.declared.marks.TheConstants.{STEP_PLACES};
ghost use Rattle.mm_chart.specs.declared.series.TheConstants.{AMOUNT_PLACES};
ghost use Rattle.mm_chart.specs.Columns.{AreMarks, AreAmounts};
ghost use Rattle.mm_chart.specs.Picture.{amounts, has_cut, has_worth, cut, counts, IsDrawn, IsSimulation};
ghost use Rattle.mm_chart.specs.Series.{one_if, sent, has_stretch, IsSeries, amount_of, scaled, worth_of};
ghost use Rattle.mm_chart.specs.Series.{limit_worth_of, size_worth_of, has_inner};

use crate::series::{AMOUNT_PLACES, Series};
use crate::shades::{Shade, has_inner, has_stretch, marks_of, shades_of};
use crate::worths::Worths;
use mm_base::{MAX_STEPS, NoMemory};
use mm_cut::{Parts, STEP_PLACES, Verdict, inner_steps, listed_steps, parts_of, verdict_of};
use mm_plan::{Sheet, Simulated, Stretch, first_loss, simulate};
use mm_problem::Problem;
use std::alloc::Global;
use std::fmt;
use std::marker::Model;

/// A problem, a sheet for it, the verdict on the sheet, what its plan does to the stores, and what windows, limits and
/// sizes are worth where that is known.
#[derive(Drop)]
pub struct Picture {
    problem: Problem,
    sheet: Sheet,
    verdict: Verdict,
    volumes: Simulated,
    worth: Option<Worths>,
    // The stretches that are drawn.
    shades: Vec<Shade>,
    // Whether each step is inner in some of them.
    inner: [bool; STEP_PLACES],
    // Whether each step is counted by channels.
    listed: [bool; STEP_PLACES],
}

/// The marks, which the cut determines, are not shown.
impl fmt::Debug for Picture {
    fn fmt<W: fmt::Write>(&self, f: &mut fmt::Formatter<W>) -> fmt::Result {
        f.debug_struct("Picture")
            .field("problem", &self.problem)
            .field("sheet", &self.sheet)
            .field("verdict", &self.verdict)
            .field("volumes", &self.volumes)
            .field("worth", &self.worth)
            .field("shades", &self.shades)
            .finish()
    }
}

impl Model for Picture {
    ghost use Rattle.std.specs.Prelude.{◌≡◌, map};
    ghost use Rattle.mm_chart.specs.Picture.{Drawn, picture_of, amounts, cut, IsDrawn, IsSimulation};
    ghost use Rattle.mm_chart.specs.Shading.{shade_of};
    ghost use Rattle.mm_chart.specs.Columns.{AreStepMarks};

    ghost Value = { Drawn };

    ghost view = { λ a. picture_of a.problem a.sheet a.verdict a.worth };

    ghost invariant = { λ a. IsDrawn (picture_of a.problem a.sheet a.verdict a.worth)
        × IsSimulation a.problem (amounts (picture_of a.problem a.sheet a.verdict a.worth)) a.volumes
        × (a.shades.items ≡ map (shade_of a.problem) (cut (picture_of a.problem a.sheet a.verdict a.worth)))
        × AreStepMarks (picture_of a.problem a.sheet a.verdict a.worth) a.inner a.listed };
}

pub(crate) fn one_if(test: bool) -> u64
    ensures one { result ≡ one_if test }
    ensures most { result ≤ 1 }
{
    if test { 1 } else { 0 }
}

// The stretches of a sheet and its steps that are counted by channels, where they are those of a cut.
fn cut_of(sheet: &Sheet, verdict: Verdict) -> (&[Stretch], &[u32])
    ensures cut { result.0.now ≡ (if has_cut verdict then sheet.now.cut else []) }
    ensures counts { result.1.now ≡ (if has_cut verdict then sheet.now.by_channels else []) }
{
    match verdict {
        Verdict::BoundIs(_)
        | Verdict::NotShown { .. }
        | Verdict::FirstNotShown(_)
        | Verdict::Least(_)
        | Verdict::LeastInOrder(_) => (sheet.cut(), sheet.by_channels()),
        _ => (&[], &[]),
    }
}

impl Picture {
    /// The picture of a sheet that has the problem's shape.
    pub fn new(alloc: Global, problem: Problem, sheet: Sheet) -> Result<Picture, NoMemory>
        requires shape { HasShape problem sheet.plan }
        requires is_sheet { IsSheet sheet }
        ensures problem { IfOk result (λ p. p.problem ≡ problem) }
        ensures sheet { IfOk result (λ p. p.sheet ≡ sheet) }
        ensures worth { IfOk result (λ p. p.worth ≡ None) }
    {
        let verdict = verdict_of(&problem, &sheet);
        let volumes = simulate(alloc, &problem, sheet.plan())?;
        let (cut, counts) = cut_of(&sheet, verdict);
        let shades = shades_of(alloc, &problem, cut)?;
        let inner = inner_steps(&problem, cut);
        let listed = listed_steps(counts);
        Ok(Picture {
            problem,
            sheet,
            verdict,
            volumes,
            worth: None,
            shades,
            inner,
            listed,
        })
    }

    /// The same picture, with what windows, limits and sizes are worth.
    #[must_use]
    pub fn with_worth(self, worth: Worths) -> Picture
        ensures { result ≡ record self { worth = Some worth } }
    {
        Picture {
            worth: Some(worth),
            ..self
        }
    }

    /// Whether it is known what windows, limits and sizes are worth.
    #[must_use]
    pub fn has_worth(&self) -> bool
        ensures { result ≡ has_worth self.now }
    {
        self.worth.is_some()
    }

    // What the window of a step is worth.
    fn worth_of(&self, step: u32) -> u64
        requires { 1 ≤ step }
        ensures worth { result ≡ worth_of self.now.worth step }
        ensures most { result < 2 ^ 32 }
    {
        match &self.worth {
            Some(worth) => u64::from(worth.window(step)),
            None => 0,
        }
    }

    // What one higher limit of a channel is worth in a step.
    fn limit_worth_of(&self, channel: u8, step: u32) -> u64
        requires { 1 ≤ step }
        ensures worth { result ≡ limit_worth_of self.now.worth channel step }
        ensures most { result ≤ MAX_STORES * 2 ^ 32 }
    {
        match &self.worth {
            Some(worth) => worth.limit(channel, step),
            None => 0,
        }
    }

    // What the size of a store is worth.
    pub(crate) fn size_worth(&self, store: usize) -> u64
        ensures { result ≡ size_worth_of self.now.worth store }
    {
        match &self.worth {
            Some(worth) => worth.size(store),
            None => 0,
        }
    }

    /// The verdict on the sheet.
    #[must_use]
    pub fn verdict(&self) -> Verdict
        ensures verdict { result ≡ self.now.verdict }
        ensures is_drawn { IsDrawn self.now }
    {
        self.verdict
    }

    #[must_use]
    pub fn problem(&self) -> &Problem
        ensures { result.now ≡ self.now.problem }
    {
        &self.problem
    }

    // The loss that the sheet says.
    pub(crate) fn said_loss(&self) -> u64
        ensures { result ≡ self.now.sheet.loss }
    {
        self.sheet.loss()
    }

    // What that many of the first stores lose.
    pub(crate) fn first_loss(&self, stores: usize) -> u64
        requires { stores ≤ length self.now.problem.rows }
        ensures { result ≡ first_loss stores self.now.problem (amounts self.now) }
    {
        first_loss(&self.problem, self.sheet.plan(), stores)
    }

    // The stretches that are drawn.
    pub(crate) fn cut(&self) -> &[Stretch]
        ensures cut { result.now ≡ cut self.now }
        ensures stretches { AreStretches self.now.problem result.now }
        ensures each { All (IsStretch self.now.problem) result.now }
    {
        cut_of(&self.sheet, self.verdict).0
    }

    // The steps of the cut that are counted by channels.
    pub(crate) fn counts(&self) -> &[u32]
        ensures { result.now ≡ counts self.now }
    {
        cut_of(&self.sheet, self.verdict).1
    }

    /// The sums of the cut's bound.
    #[must_use]
    pub fn parts(&self) -> Parts
        ensures coming { result.coming ≡ coming_sum self.now.problem (cut self.now) }
        ensures held { result.held ≡ held_sum self.now.problem (cut self.now) }
        ensures windows { result.windows ≡ windows_sum self.now.problem (cut self.now) (counts self.now) }
        ensures limits { result.limits ≡ limits_sum self.now.problem (cut self.now) (counts self.now) }
    {
        parts_of(&self.problem, self.cut(), self.counts())
    }

    fn counts_window(&self, step: u32) -> bool
        requires { step < STEP_PLACES }
        ensures { result ≡ counts_window self.now.problem (cut self.now) (counts self.now) step }
    {
        self.inner[step as usize] && !self.listed[step as usize]
    }

    fn counts_limits(&self, step: u32) -> bool
        requires { step < STEP_PLACES }
        ensures { result ≡ counts_limits self.now.problem (cut self.now) (counts self.now) step }
    {
        self.inner[step as usize] && self.listed[step as usize]
    }

    // Whether a store has a stretch.
    #[tactic(auto, using(crate::proofs::Numbers::list_any_map))]
    pub(crate) fn has_stretch(&self, store: usize) -> bool
        ensures { result ≡ has_stretch self.now store }
    {
        has_stretch(self.shades.as_slice(), store)
    }

    // What leaves a store in a step.
    fn sent(&self, store: usize, step: u32) -> u64
        requires store { store < length self.now.problem.rows }
        requires first { 1 ≤ step }
        requires last { step ≤ length self.now.problem.windows }
        ensures sent { result ≡ sent self.now step store }
        ensures most { result < 2 ^ 32 }
    {
        let written = self.volumes.written(store, step);
        let amount = self.sheet.plan().amount(store, step);
        u64::from(amount.min(written))
    }

    // What is left in a store as a step ends, and what leaves it in the step.
    fn left_and_sent(&self, store: usize, step: u32) -> u64
        requires store { store < length self.now.problem.rows }
        requires first { 1 ≤ step }
        requires last { step ≤ length self.now.problem.windows }
        ensures blocks { result ≡ left self.now.problem (amounts self.now) store step + sent self.now step store }
        ensures most { result ≤ 2 * 2 ^ 32 }
    {
        u64::from(self.volumes.left(store, step)) + self.sent(store, step)
    }

    // What leaves all stores in a step.
    #[tactic(auto, using(mm_base::proofs::RangeSums::sum_by_range_more))]
    fn used(&self, step: u32) -> u64
        requires first { 1 ≤ step }
        requires last { step ≤ length self.now.problem.windows }
        ensures used { result ≡ sum_by (sent self.now step) (stores self.now.problem) }
        ensures most { result ≤ MAX_STORES * 2 ^ 32 }
    {
        let mut used: u64 = 0;
        for store in 0..self.problem.stores() {
            used += self.sent(store, step);
        }
        used
    }

    // What leaves the stores of a channel in a step.
    #[tactic(auto, using(mm_base::proofs::RangeSums::sum_by_filter_range_more))]
    fn sent_on(&self, channel: u8, step: u32) -> u64
        requires first { 1 ≤ step }
        requires last { step ≤ length self.now.problem.windows }
        ensures sent { result ≡ sum_by (sent self.now step) (stores_of self.now.problem channel) }
        ensures most { result ≤ MAX_STORES * 2 ^ 32 }
    {
        let mut sent: u64 = 0;
        for store in 0..self.problem.stores() {
            if self.problem.channel(store) == channel {
                sent += self.sent(store, step);
            }
        }
        sent
    }

    // Whether a stretch has an inner step.
    #[tactic(auto, using(crate::proofs::Numbers::list_any_map))]
    pub(crate) fn has_inner(&self) -> bool
        ensures { result ≡ has_inner self.now }
    {
        has_inner(self.shades.as_slice())
    }

    // Marks of the steps in which a series asks for a stretch.
    #[tactic(auto, using(crate::proofs::Numbers::list_any_map))]
    fn marks(&self, series: Series) -> [bool; STEP_PLACES]
        ensures places { length result ≡ STEP_PLACES }
        ensures marks { AreMarks self.now series result }
    {
        match series {
            Series::Inner(_) | Series::Last(_) | Series::ChannelCounts(_) => {
                marks_of(self.shades.as_slice(), series)
            }
            _ => [false; STEP_PLACES],
        }
    }

    // The number of a step, by the marks of the series.
    fn amount(&self, marks: &[bool], series: Series, step: u32) -> u64
        requires series { IsSeries self.now series }
        requires places { length marks.now ≡ STEP_PLACES }
        requires marks { AreMarks self.now series marks.now }
        requires first { 1 ≤ step }
        requires last { step ≤ length self.now.problem.windows }
        ensures amount { result ≡ amount_of self.now series step }
        ensures most { result ≤ MAX_STORES * 2 ^ 32 }
    {
        // no step is past the marks
        prove!(self.problem.steps() <= MAX_STEPS);
        match series {
            Series::WindowCounts => one_if(self.counts_window(step)),
            Series::Window => u64::from(self.problem.window(step)),
            Series::CountedWindow if self.counts_window(step) => {
                u64::from(self.problem.window(step))
            }
            Series::CountedWindow => 0,
            Series::Used => self.used(step),
            Series::ChannelCounts(_) => one_if(self.counts_limits(step) && marks[step as usize]),
            Series::Sent(channel) => self.sent_on(channel, step),
            Series::LimitsCount => one_if(self.counts_limits(step)),
            Series::Inner(_) | Series::Last(_) => one_if(marks[step as usize]),
            Series::LeftAndSent(store) => self.left_and_sent(store, step),
            Series::Left(store) => u64::from(self.volumes.left(store, step)),
            Series::Lost(store) => u64::from(self.volumes.lost(store, step)),
            Series::Size(store) => u64::from(self.problem.size(store, step)),
            Series::Worth => self.worth_of(step),
            Series::Raised(channel) => self.limit_worth_of(channel, step),
        }
    }

    // The numbers of all steps, by their places.
    #[tactic(auto, using(crate::proofs::Numbers::amount_at_step, crate::proofs::Numbers::amount_at_past))]
    pub(crate) fn amounts(&self, series: Series) -> [u64; AMOUNT_PLACES]
        requires { IsSeries self.now series }
        ensures places { length result ≡ AMOUNT_PLACES }
        ensures amounts { AreAmounts self.now series result }
        ensures most { (t : ℕ) → slice_index_or result t 0 ≤ MAX_STORES * 2 ^ 32 }
    {
        // no step is past the places
        prove!(self.problem.steps() <= MAX_STEPS);
        let marks = self.marks(series);
        let mut amounts = [0; AMOUNT_PLACES];
        for step in 1..self.problem.steps() + 1 {
            amounts[step as usize] = self.amount(&marks, series, step);
        }
        amounts
    }
}

/// An amount in a scale in which the whole has this height, rounded up, and at most the height.
#[must_use]
pub fn scaled(height: u32, whole: u64, amount: u64) -> u32
    requires height { height ≤ 64 }
    requires whole { whole ≤ 2 ^ 40 }
    requires amount { amount ≤ 2 ^ 40 }
    ensures scaled { result ≡ scaled height whole amount }
    ensures most { result ≤ height }
{
    if whole == 0 || amount == 0 {
        return 0;
    }
    if whole <= amount {
        return height;
    }
    let height = u64::from(height);
    height.min((amount * height + (whole - 1)) / whole) as u32
}
