//! The dumping problem of a setup and a forecast.
ghost use Rattle.std.specs.Prelude.{◌≡◌, ◌==◌, ◌<◌, ◌≤◌, length, slice_index, slice_index_or, position, bytes_eq, IfOk};
ghost use Rattle.std.specs.Prelude.{◌*◌, ◌↔◌, drop, IsTrue, IfErr, IfSome, IfNone};
ghost use Rattle.mm_base.specs.declared.limits.TheConstants.{MAX_BLOCKS, MAX_CHANNEL};
ghost use Rattle.mm_base.specs.Id.{IsIdField};
ghost use Rattle.mm_problem.specs.Dumping.{no_row, row, place, start, channel, setup_limit, step_limit, IsFlyable};
ghost use Rattle.mm_problem.specs.Dumping.{column_limit, lesser, limit, window, arrivals, IsDumping};
ghost use Rattle.mm_problem.specs.Forecast.{limit_of, limits_of, problem_of};
ghost use Rattle.mm_problem.specs.Data.{problem_from, limited_by};
ghost use Rattle.mm_problem.specs.Rest.{starting_with, rows_from, starts_fit, rest_from};
ghost use Rattle.mm_problem.specs.declared.fault.Fault.TheVariants.{NoMemory};
ghost use Rattle.mm_base.specs.Reading.{Gives};

use crate::come::Arrivals;
use crate::data::{test_columns, test_rows, test_steps};
use crate::document::{test_limit_count, test_store_count};
use crate::fault::{Fault, Name};
use crate::reading::test;
use crate::setup::Setup;
use crate::steps::{StepTable, forecast_of, test_some_step};
use mm_base::grid::place;
use mm_base::{CHANNELS, LimitRow, StoreId, StoreRow};
use std::alloc::Global;
use std::marker::Model;

/// A problem of memory dumping: stores with sizes, start volumes and channels, limits of channels, and for each step a
/// pass window, what arrives at each store, and limits of channels and sizes of stores in this step, all in blocks; and
/// when a step's arrivals come. Stores count from 0 in setup order, steps from 1.
#[derive(Debug, Drop)]
pub struct Problem {
    pub(crate) rows: Vec<StoreRow>,
    pub(crate) limits: [Option<u32>; CHANNELS],
    pub(crate) steps: StepTable,
    pub(crate) come: Arrivals,
}

impl Model for Problem {
    ghost use Rattle.mm_problem.specs.Dumping.{Dumping, IsDumping};
    ghost use Rattle.mm_problem.specs.StepLists.{numbers_of};

    ghost Value = { Dumping };

    ghost view = { λ a. numbers_of a.rows.items a.limits a.steps a.come };

    ghost invariant = { λ a. IsDumping (numbers_of a.rows.items a.limits a.steps a.come) };
}

// The place of the store with this identifier.
fn place_in(rows: &[StoreRow], id: &StoreId) -> Option<usize>
    ensures { result ≡ position (λ r. bytes_eq r.id id.now) rows.now }
{
    rows.iter().position(|row| row.id == *id)
}

// The store at a place, with its start volume.
fn started(rows: &[StoreRow], starts: &[u32], place: usize) -> StoreRow
    requires within { place < length rows.now }
    requires as_many { length starts.now ≡ length rows.now }
    ensures { result ≡ starting_with (slice_index_or rows.now place no_row) (slice_index starts.now place) }
{
    StoreRow {
        start: starts[place],
        ..rows[place]
    }
}

// Whether each start volume fits in its store.
fn starts_fit(rows: &[StoreRow], starts: &[u32]) -> bool
    requires { length starts.now ≡ length rows.now }
    ensures { result ≡ starts_fit rows.now starts.now }
{
    (0..rows.len()).all(|place| {
        let row = started(rows, starts, place);
        row.start <= row.size
    })
}

// The stores, with these start volumes.
fn rows_from(alloc: Global, rows: &[StoreRow], starts: &[u32]) -> Result<Vec<StoreRow>, Fault>
    requires { length starts.now ≡ length rows.now }
    ensures rows { IfOk result (λ v. v.items ≡ rows_from rows.now starts.now) }
    ensures memory { IfErr result (λ e. e ≡ NoMemory) }
{
    let rows = (0..rows.len()).map(|place| started(rows, starts, place));
    Ok(rows.collect(alloc)?)
}

// The cells of the steps after a step, in a table with this number of cells for each step.
#[tactic(auto, using(std::proofs::lemmas::List::take_rest))]
fn later(cells: &[u32], width: usize, step: u32) -> &[u32]
    requires { step * width ≤ length cells.now }
    ensures { result.now ≡ drop (step * width) cells.now }
{
    &cells[step as usize * width..]
}

// The limit of a channel, if it has one.
fn limit_of(limits: &[LimitRow], channel: u8) -> Option<u32>
    ensures { result ≡ limit_of limits.now channel }
{
    let row = limits.iter().find(|row| row.channel == channel)?;
    Some(row.blocks)
}

// The limit of each channel.
fn limits_of(limits: &[LimitRow]) -> [Option<u32>; CHANNELS]
    ensures { result ≡ limits_of limits.now }
{
    std::array::from_fn(|channel| limit_of(limits, channel as u8))
}

// The place of a channel.
fn column_of(limited: &[u8], channel: u8) -> Option<usize>
    ensures { result ≡ position (λ k. k == channel) limited.now }
{
    limited.iter().position(|of| *of == channel)
}

// The lesser of two limits, either of which may be missing.
fn lesser(a: Option<u32>, b: Option<u32>) -> Option<u32>
    ensures lesser { result ≡ lesser a b }
{
    match (a, b) {
        (Some(a), Some(b)) => Some(a.min(b)),
        (Some(a), None) => Some(a),
        (None, b) => b,
    }
}

impl Problem {
    /// The problem of these stores, limits of channels, windows, and arrivals (step by step, and within a step in store
    /// order). Otherwise the first fault, by the same tests as those of the readers: 28 `SetupField` for a repeated
    /// store or channel, 29 `ForecastText` if the number of arrivals is not that of stores times steps, or 33 `Limit`;
    /// or 0 `NoMemory`.
    #[tactic(auto, unfolding(crate::specs::Data::problem_from))]
    pub fn new(
        alloc: Global,
        rows: &[StoreRow],
        limits: &[LimitRow],
        windows: &[u32],
        arrivals: &[u32],
    ) -> Result<Problem, Fault>
        ensures problem { Gives NoMemory (λ problem. problem) result
            (problem_from rows.now limits.now windows.now arrivals.now) }
    {
        test_store_count(rows.len())?;
        test_limit_count(limits.len())?;
        test_rows(rows)?;
        test_rows(limits)?;
        test_steps(rows.len(), windows, arrivals)?;
        test_some_step(windows.len())?;
        let rows = Vec::from_slice(alloc, rows)?;
        let limits = limits_of(limits);
        let steps = StepTable::of(alloc, windows, arrivals, &[], &[], &[], &[])?;
        Ok(Problem {
            rows,
            limits,
            steps,
            come: Arrivals::Before,
        })
    }

    /// The same problem with a limit for each step and each of these channels, which rise. The limits come step by
    /// step, and within a step in channel order. Otherwise the first fault, by the same tests as those of such columns:
    /// 30 `Header`, 29 `ForecastText` if the number of limits is not that of channels times steps, or 33 `Limit`; or 0
    /// `NoMemory`.
    #[tactic(auto, unfolding(crate::specs::Data::limited_by))]
    pub fn with_step_limits(
        &self,
        alloc: Global,
        channels: &[u8],
        limits: &[u32],
    ) -> Result<Problem, Fault>
        ensures problem { Gives NoMemory (λ problem. problem) result
            (limited_by self.now channels.now limits.now) }
    {
        let windows = self.steps.windows.as_slice();
        test_columns(CHANNELS, Name::Limit, windows.len(), channels, limits)?;
        let rows = Vec::from_slice(alloc, self.rows.as_slice())?;
        let arrived = self.steps.arrived.as_slice();
        let sized = self.steps.sized.as_slice();
        let step_sizes = self.steps.step_sizes.as_slice();
        let steps = StepTable::of(alloc, windows, arrived, channels, limits, sized, step_sizes)?;
        Ok(Problem {
            rows,
            limits: self.limits,
            steps,
            come: self.come,
        })
    }

    /// The problem of the steps after this one, with these start volumes in setup order. A start volume above its
    /// store's size is 33 `Limit`; or 0 `NoMemory`.
    #[tactic(auto, unfolding(crate::specs::Rest::rest_from))]
    pub fn rest(&self, alloc: Global, step: u32, starts: &[u32]) -> Result<Problem, Fault>
        requires before_last { step < length self.now.windows }
        requires as_many { length starts.now ≡ length self.now.rows }
        ensures rest { Gives NoMemory (λ problem. problem) result
            (rest_from self.now step starts.now) }
    {
        let stores = self.rows.as_slice();
        let fit = starts_fit(stores, starts);
        test(fit, Fault::Limit { name: Name::Start })?;
        let rows = rows_from(alloc, stores, starts)?;
        let own = self.steps.limited.as_slice();
        let windows = &self.steps.windows[step as usize..];
        let arrived = later(&self.steps.arrived, stores.len(), step);
        let step_limits = later(&self.steps.step_limits, own.len(), step);
        let sized = self.steps.sized.as_slice();
        let step_sizes = later(&self.steps.step_sizes, sized.len(), step);
        let steps = StepTable::of(alloc, windows, arrived, own, step_limits, sized, step_sizes)?;
        Ok(Problem {
            rows,
            limits: self.limits,
            steps,
            come: self.come,
        })
    }

    /// The problem of a setup and the CSV text of a forecast. Otherwise the first fault of the forecast: 29
    /// `ForecastText`, 30 `Header`, 31 `Cell`, 32 `StepNumber` or 33 `Limit`; or 0 `NoMemory`.
    #[tactic(auto, unfolding(crate::specs::Forecast::problem_of))]
    pub fn read(alloc: Global, setup: &Setup, text: &[u8]) -> Result<Problem, Fault>
        ensures problem { Gives NoMemory (λ problem. problem) result (problem_of setup.now text.now) }
    {
        let stores = setup.stores();
        let steps = forecast_of(alloc, stores, text)?;
        let rows = Vec::from_slice(alloc, stores)?;
        let limits = limits_of(setup.limits());
        Ok(Problem {
            rows,
            limits,
            steps,
            come: setup.come(),
        })
    }

    /// The number of stores, 1 to 16.
    #[must_use]
    pub fn stores(&self) -> usize
        ensures stores { result ≡ length self.now.rows }
        ensures is_dumping { IsDumping self.now }
    {
        self.rows.len()
    }

    /// The number of steps, 1 to 256.
    #[must_use]
    pub fn steps(&self) -> u32
        ensures steps { result ≡ length self.now.windows }
        ensures is_dumping { IsDumping self.now }
    {
        self.steps.windows.len() as u32
    }

    /// The number of virtual channels, 8.
    #[must_use]
    pub fn channels(&self) -> u8
        ensures channels { result ≡ length self.now.limits }
        ensures is_dumping { IsDumping self.now }
    {
        let limits = &self.limits;
        limits.len() as u8
    }

    /// The place of the store with this identifier, from 0, or `None`.
    #[must_use]
    pub fn place(&self, id: &StoreId) -> Option<usize>
        ensures found { IfSome result (λ s. (s ≡ place self.now id.now) × (s < length self.now.rows)) }
        ensures none { IfNone result (place self.now id.now ≡ length self.now.rows) }
    {
        place_in(self.rows.as_slice(), id)
    }

    /// The identifier of a store.
    #[must_use]
    pub fn id(&self, store: usize) -> StoreId
        requires store { store < length self.now.rows }
        ensures id { result ≡ (row self.now store).id }
        ensures is_field { IsIdField result }
    {
        let id = self.rows[store].id;
        // The bytes are those of an identifier, as `field` ensures.
        let _field = id.field();
        id
    }

    /// When a step's arrivals come.
    #[must_use]
    pub fn come(&self) -> Arrivals
        ensures come { result ≡ self.now.come }
    {
        self.come
    }

    /// Whether arrivals come before dumps, and no store has sizes by step. Only then can steps be carried out.
    #[must_use]
    pub fn is_flyable(&self) -> bool
        ensures flyable { IsTrue result ↔ IsFlyable self.now }
    {
        self.come == Arrivals::Before && self.steps.sized.is_empty()
    }

    /// How many blocks a store holds at the start of the first step.
    #[must_use]
    pub fn start(&self, store: usize) -> u32
        requires store { store < length self.now.rows }
        ensures start { result ≡ start self.now store }
        ensures most { result ≤ MAX_BLOCKS }
    {
        self.rows[store].start
    }

    /// The virtual channel of a store, 0 to 7.
    #[must_use]
    pub fn channel(&self, store: usize) -> u8
        requires store { store < length self.now.rows }
        ensures channel { result ≡ channel self.now store }
        ensures most { result ≤ MAX_CHANNEL }
    {
        self.rows[store].channel
    }

    /// The limit of a channel in the setup, in blocks a step, or `None`.
    #[must_use]
    pub fn setup_limit(&self, channel: u8) -> Option<u32>
        ensures limit { result ≡ setup_limit self.now channel }
        ensures most { IfSome result (λ blocks. blocks ≤ MAX_BLOCKS) }
    {
        self.limits.get(channel as usize).copied().unwrap_or(None)
    }

    // The limit that the forecast has for a channel in a step.
    fn step_limit(&self, channel: u8, step: u32) -> Option<u32>
        requires first { 1 ≤ step }
        requires last { step ≤ length self.now.windows }
        ensures limit { result ≡ step_limit self.now channel step }
        ensures most { IfSome result (λ blocks. blocks ≤ MAX_BLOCKS) }
    {
        let column = column_of(self.steps.limited.as_slice(), channel)?;
        Some(self.column_limit(column, step))
    }

    /// How many blocks can leave through a channel in a step: the lesser of the setup's limit and the forecast's limit
    /// of this step, or the one that there is. `None` if there is neither.
    #[must_use]
    pub fn limit(&self, channel: u8, step: u32) -> Option<u32>
        requires first { 1 ≤ step }
        requires last { step ≤ length self.now.windows }
        ensures limit { result ≡ limit self.now channel step }
        ensures most { IfSome result (λ blocks. blocks ≤ MAX_BLOCKS) }
    {
        if (channel as usize) < self.limits.len() {
            lesser(
                self.limits[channel as usize],
                self.step_limit(channel, step),
            )
        } else {
            None
        }
    }

    /// The channels with a limit for each step, in rising order.
    #[must_use]
    pub fn limited(&self) -> &[u8]
        ensures channels { result.now ≡ self.now.limited }
    {
        self.steps.limited.as_slice()
    }

    /// The forecast's limit of a channel in a step, in blocks. The channel is given by its place in `limited`, from 0.
    #[must_use]
    pub fn column_limit(&self, column: usize, step: u32) -> u32
        requires column { column < length self.now.limited }
        requires first { 1 ≤ step }
        requires last { step ≤ length self.now.windows }
        ensures limit { result ≡ column_limit self.now column step }
        ensures most { result ≤ MAX_BLOCKS }
    {
        self.steps.step_limits[place(self.steps.limited.len(), step, column)]
    }

    /// How many blocks arrive in a store in a step.
    #[must_use]
    pub fn arrivals(&self, store: usize, step: u32) -> u32
        requires store { store < length self.now.rows }
        requires first { 1 ≤ step }
        requires last { step ≤ length self.now.windows }
        ensures arrivals { result ≡ arrivals self.now store step }
        ensures most { result ≤ MAX_BLOCKS }
    {
        self.steps.arrived[place(self.rows.len(), step, store)]
    }

    /// How many blocks can leave all stores together in a step.
    #[must_use]
    pub fn window(&self, step: u32) -> u32
        requires first { 1 ≤ step }
        requires last { step ≤ length self.now.windows }
        ensures window { result ≡ window self.now step }
        ensures most { result ≤ MAX_BLOCKS }
    {
        self.steps.windows[step as usize - 1]
    }
}
