//! What has been read of a plan text so far.
ghost use Rattle.std.specs.Prelude.{◌≡◌, ◌↔◌, IsTrue, IfOk, OnOk, MatchBool};
ghost use Rattle.mm_plan.specs.Reading.{may_begin, has_all, may_follow, after, start, IsTaken, IsRefused};
ghost use Rattle.mm_plan.specs.Sheet.{bound_line};
ghost use Rattle.mm_plan.specs.Seen.{seen};

use crate::certificate::{Certificate, Cut};
use crate::form::Form;
use crate::line::{Line, read_line};
use crate::row::is_dump;
use crate::stretch::{MAX_COUNTS, MAX_STRETCHES, Stretch};
use mm_base::{MAX_STEPS, MAX_STORES, StoreId};
use std::alloc::{AllocError, Global};
use std::marker::Model;
use std::mem;

// Which line comes next.
#[derive(Clone, Copy)]
pub(crate) enum Stage {
    ToTitle,
    ToStores,
    ToDumps,
    ToLoss,
    ToCut,
    ToEnd,
    Done,
}

// What the lines so far say, and which line comes next.
#[derive(Drop)]
pub(crate) struct Draft {
    stage: Stage,
    pub(crate) form: Form,
    pub(crate) stores: Vec<StoreId>,
    pub(crate) steps: u32,
    pub(crate) amounts: Vec<u32>,
    // those that have been read to their bounds, that of all stores first
    pub(crate) certificates: Vec<Certificate>,
    // of the certificate that is being read
    loss: u64,
    cut: Vec<Stretch>,
    by_channels: Vec<u32>,
}

impl Model for Draft {
    ghost use Rattle.std.specs.Prelude.{length};
    ghost use Rattle.mm_plan.specs.Reading.{DraftRows};

    ghost Value = { DraftRows };

    ghost view = { λ a. record {
      stage = a.stage;
      form = a.form;
      rows = record {
        stores = a.stores.items;
        plan = record { stores = length a.stores.items; steps = a.steps; amounts = a.amounts.items };
        certificates = a.certificates.items;
        loss = a.loss;
        cut = a.cut.items;
        by_channels = a.by_channels.items;
      };
    } };
}

impl Draft {
    ghost use Rattle.mm_plan.specs.declared.draft.Stage.TheVariants.{Done};

    pub(crate) fn new(alloc: Global) -> Draft
        ensures { result ≡ start }
    {
        Draft {
            stage: Stage::ToTitle,
            form: Form::First,
            stores: Vec::new(alloc),
            steps: 0,
            amounts: Vec::new(alloc),
            certificates: Vec::new(alloc),
            loss: 0,
            cut: Vec::new(alloc),
            by_channels: Vec::new(alloc),
        }
    }

    // Whether the certificate of that many stores comes next.
    fn may_begin(&self, number: u32) -> bool
        ensures { result ≡ may_begin self.now.form number self.now.rows }
    {
        self.form.is_third()
            && number as usize == self.certificates.len()
            && self.certificates.len() < self.stores.len()
    }

    // Whether no certificate of the first stores is to come.
    fn has_all(&self) -> bool
        ensures { result ≡ has_all self.now.form self.now.rows }
    {
        !self.form.is_third() || self.certificates.len() == self.stores.len()
    }

    fn may_add(&self, line: &Line) -> bool
        ensures { result ≡ may_follow self.now.stage self.now.form self.now.rows (seen line.now) }
    {
        match (self.stage, line) {
            (Stage::ToTitle, Line::Title(_)) => true,
            (Stage::ToStores, Line::Stores(ids)) => !ids.is_empty() && ids.len() <= MAX_STORES,
            (Stage::ToDumps, Line::Dump { step, amounts }) => {
                u64::from(*step) == u64::from(self.steps) + 1 && amounts.len() == self.stores.len()
            }
            (Stage::ToDumps, Line::Loss(_)) => self.steps > 0,
            (Stage::ToLoss, Line::Loss(_)) => true,
            (Stage::ToCut, Line::Cut(_)) => {
                self.cut.len() < MAX_STRETCHES && self.by_channels.is_empty()
            }
            (Stage::ToCut, Line::Count(_)) => {
                self.form.may_count() && self.by_channels.len() < MAX_COUNTS
            }
            (Stage::ToCut, Line::Bound(_)) => self.form.fits(self.by_channels.len()),
            (Stage::ToEnd, Line::First(number)) => self.may_begin(*number),
            (Stage::ToEnd, Line::End) => self.has_all(),
            _ => false,
        }
    }

    // Adds the certificate that has been read to its bound.
    fn add_bound(&mut self, alloc: Global, bound: i64) -> Result<(), AllocError>
        ensures { OnOk result (self.new ≡ after self.old (bound_line bound)) }
    {
        let cut = Cut {
            stretches: mem::replace(&mut self.cut, Vec::new(alloc)),
            by_channels: mem::replace(&mut self.by_channels, Vec::new(alloc)),
        };
        let certificate = Certificate::new(self.loss, cut, bound);
        self.certificates.push(certificate)?;
        self.loss = 0;
        self.stage = Stage::ToEnd;
        Ok(())
    }

    // Adds a line that comes next.
    fn add(&mut self, alloc: Global, line: Line) -> Result<(), AllocError>
        ensures { OnOk result (self.new ≡ after self.old (seen line)) }
    {
        match line {
            Line::Title(form) => {
                self.form = form;
                self.stage = Stage::ToStores;
            }
            Line::Stores(ids) => {
                self.stores = ids;
                self.stage = Stage::ToDumps;
            }
            Line::Dump { step, amounts } => {
                self.amounts.extend_from_slice(amounts.as_slice())?;
                self.steps = step;
            }
            Line::Loss(loss) => {
                self.loss = loss;
                self.cut.clear();
                self.by_channels.clear();
                self.stage = Stage::ToCut;
            }
            Line::Cut(stretch) => self.cut.push(stretch)?,
            Line::Count(step) => self.by_channels.push(step)?,
            Line::Bound(bound) => self.add_bound(alloc, bound)?,
            Line::First(_) => self.stage = Stage::ToLoss,
            Line::End => self.stage = Stage::Done,
        }
        Ok(())
    }

    // Takes the dump line of the next step. Any other text changes nothing, and the answer is false.
    fn take_dump(&mut self, text: &[u8]) -> Result<bool, AllocError>
        ensures { IfOk result (λ taken. MatchBool taken
            (IsTaken self.old text.now self.new)
            (self.new ≡ self.old)) }
    {
        let stores = self.stores.len();
        if stores > MAX_STORES || self.steps >= MAX_STEPS || !matches!(self.stage, Stage::ToDumps) {
            return Ok(false);
        }
        let mut amounts = [0; MAX_STORES];
        let step = self.steps + 1;
        if !is_dump(text, step, stores, &mut amounts) {
            return Ok(false);
        }
        self.amounts.extend_from_slice(&amounts[..stores])?;
        self.steps = step;
        Ok(true)
    }

    // Takes a line that may come next. The answer is false if this line may not.
    pub(crate) fn take(&mut self, alloc: Global, text: &[u8]) -> Result<bool, AllocError>
        ensures { IfOk result (λ taken. MatchBool taken
            (IsTaken self.old text.now self.new)
            (IsRefused self.old text.now)) }
    {
        if self.take_dump(text)? {
            return Ok(true);
        }
        let Some(line) = read_line(alloc, text)? else {
            return Ok(false);
        };
        if !self.may_add(&line) {
            return Ok(false);
        }
        self.add(alloc, line)?;
        Ok(true)
    }

    // Whether the last line has been taken.
    pub(crate) fn is_done(&self) -> bool
        ensures { IsTrue result ↔ (self.now.stage ≡ Done) }
    {
        matches!(self.stage, Stage::Done)
    }
}
