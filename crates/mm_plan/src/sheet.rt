//! A plan with its certificate: what a plan text says.
ghost use Rattle.std.specs.Prelude.{◌≡◌, ◌<◌, ◌≤◌, ◌↔◌, ◌∷◌, [], Some, None, IfOk, IfErr, IfSome, IsOk, IsTrue, OnOk};
ghost use Rattle.std.specs.Prelude.{MatchOption, MatchResult, length, map};
ghost use Rattle.std.specs.Option.{option_map};
ghost use Rattle.mm_plan.specs.Sheet.{SheetRows, IsSheet, IsShapedFor, sheet_text};
ghost use Rattle.mm_plan.specs.Printing.{AreOrdered, AreRising, IsPrinted};
ghost use Rattle.mm_plan.specs.Table.{HasShape, IsTable};
ghost use Rattle.mm_plan.specs.Reading.{sheet_of};
ghost use Rattle.mm_base.specs.Reading.{IfRefused};
ghost use Rattle.mm_plan.specs.Fault.{IsTextFault};
ghost use Rattle.mm_plan.specs.declared.draft.Stage.TheVariants.{Done};
ghost use Rattle.mm_plan.specs.declared.fault.Fault.TheVariants.{Shape};

use crate::certificate::Certificate;
use crate::draft::Draft;
use crate::fault::Fault;
use crate::form::Form;
use crate::plan::Plan;
use crate::print::{ordered, push_certificate, push_end, push_firsts, push_front, rising};
use crate::stretch::Stretch;
use mm_base::lines::split_line;
use mm_base::{NoMemory, StoreId};
use mm_problem::Problem;
use std::alloc::Global;
use std::marker::Model;

/// A dump plan with its certificate. Contracts see its parts, with its lists as lists.
///
/// Its text has one of three forms: `mmplan 1` where no step is counted by channels, and `mmplan 2` where some are.
/// `mmplan 3` says that the plan serves the stores in order, and has certificates of the first store, of the first two
/// and so on up to all but one; each may have counts.
#[derive(Debug, Drop)]
pub struct Sheet {
    pub(crate) stores: Vec<StoreId>,
    pub(crate) plan: Plan,
    // that of all stores
    pub(crate) own: Certificate,
    pub(crate) firsts: Option<Vec<Certificate>>,
}

impl Model for Sheet {
    ghost use Rattle.std.specs.Option.{option_map};
    ghost use Rattle.mm_plan.specs.Sheet.{SheetRows};

    ghost Value = { SheetRows };

    ghost view = { λ a. record {
      stores = a.stores.items;
      plan = a.plan;
      loss = a.own.loss;
      cut = a.own.cut;
      by_channels = a.own.by_channels;
      bound = a.own.bound;
      firsts = option_map (λ firsts. firsts.items) a.firsts;
    } };
}

// Whether these are the problem's stores, in order.
fn are_stores(ids: &[StoreId], problem: &Problem) -> bool
    ensures { IsTrue result ↔ (ids.now ≡ map (λ r. r.id) problem.now.rows) }
{
    if ids.len() != problem.stores() {
        return false;
    }
    for (place, id) in ids.iter().enumerate() {
        if *id != problem.id(place) {
            return false;
        }
    }
    true
}

// Whether the last line has been taken, and nothing is left.
fn ends(draft: &Draft, rest: &[u8]) -> bool
    ensures { IsTrue result ↔ ((draft.now.stage ≡ Done) × (rest.now ≡ [])) }
{
    rest.is_empty() && draft.is_done()
}

// The sheet of a draft with a certificate.
fn finish(draft: Draft) -> Sheet
    requires plan { IsTable draft.rows.plan }
    requires some { 1 ≤ length draft.rows.certificates }
    ensures { result ≡ sheet_of draft }
{
    let Draft {
        form,
        stores,
        steps,
        amounts,
        mut certificates,
        ..
    } = draft;
    let plan = Plan {
        stores: stores.len(),
        steps,
        amounts,
    };
    let own = certificates.remove(0);
    Sheet {
        stores,
        plan,
        own,
        firsts: form.is_third().then_some(certificates),
    }
}

impl Sheet {
    /// The sheet with these parts: the certificate of all stores, and those of the first store, of the first two and so
    /// on where it says that the plan serves the stores in order.
    #[must_use]
    pub fn new(
        stores: Vec<StoreId>,
        plan: Plan,
        own: Certificate,
        firsts: Option<Vec<Certificate>>,
    ) -> Sheet
        ensures { result ≡ record {
          stores = stores.items;
          plan = plan;
          loss = own.loss;
          cut = own.cut;
          by_channels = own.by_channels;
          bound = own.bound;
          firsts = option_map (λ firsts. firsts.items) firsts;
        } }
    {
        Sheet {
            stores,
            plan,
            own,
            firsts,
        }
    }

    /// Reads a plan text. The text of no sheet is `PlanText` with its first line, from 1, that cannot stand there, or
    /// with the line on which it ends, if it ends too early or without a line feed.
    pub fn parse(alloc: Global, text: &[u8]) -> Result<Sheet, Fault>
        ensures found { IfOk result (λ s. IsSheet s × (text.now ≡ sheet_text s)) }
        ensures read { (s : SheetRows) → IsSheet s → text.now ≡ sheet_text s
            → MatchResult result (λ r. r ≡ s) (λ e. e ≡ Fault.NoMemory) }
        ensures bad { IfRefused Fault.NoMemory result (IsTextFault text.now) }
    {
        let mut draft = Draft::new(alloc);
        let mut rest = text;
        let mut line: u32 = 1;
        while let Some((front, after)) = split_line(rest) {
            let Ok(taken) = draft.take(alloc, front) else {
                return Err(Fault::NoMemory);
            };
            if !taken {
                return Err(Fault::PlanText { line });
            }
            rest = after;
            line += 1;
        }
        if !ends(&draft, rest) {
            return Err(Fault::PlanText { line });
        }
        Ok(finish(draft))
    }

    /// Whether the sheet has the problem's stores, in order, and its number of steps; otherwise it is `Shape`.
    pub fn shape(&self, problem: &Problem) -> Result<(), Fault>
        ensures ok { IsOk result ↔ IsShapedFor problem.now self.now }
        ensures plan { self.now.plan.stores ≡ length self.now.stores
            → OnOk result (HasShape problem.now self.now.plan) }
        ensures refused { IfErr result (λ e. e ≡ Shape) }
    {
        if self.plan.steps == problem.steps() && are_stores(self.stores.as_slice(), problem) {
            Ok(())
        } else {
            Err(Fault::Shape)
        }
    }

    /// The plan text of the sheet, with its stretches in store order, then by first and by last step, and its counted
    /// steps in rising order. The certificates of the first stores are printed as they stand.
    pub fn print(&self, alloc: Global) -> Result<Vec<u8>, NoMemory>
        ensures { IfOk result (λ text. IsPrinted self.now text.items) }
    {
        let cut = ordered(alloc, self.stores(), self.cut())?;
        let by_channels = rising(alloc, self.by_channels())?;
        self.print_in_order(alloc, cut.as_slice(), by_channels.as_slice())
    }

    // The plan text of the sheet, with its stretches and its counted steps in this order.
    fn print_in_order(
        &self,
        alloc: Global,
        cut: &[Stretch],
        by_channels: &[u32],
    ) -> Result<Vec<u8>, NoMemory>
        requires cut { AreOrdered self.now.stores self.now.cut cut.now }
        requires by_channels { AreRising self.now.by_channels by_channels.now }
        ensures { IfOk result (λ text. IsPrinted self.now text.items) }
    {
        let form = Form::of(self.firsts(), by_channels);
        let mut text = Vec::new(alloc);
        push_front(&mut text, form, self.stores(), self.plan())?;
        push_certificate(&mut text, self.loss(), cut, by_channels, self.bound())?;
        push_firsts(&mut text, self.firsts())?;
        push_end(&mut text)?;
        Ok(text)
    }

    /// The identifiers of the stores, in the order of the plan's places.
    #[must_use]
    pub fn stores(&self) -> &[StoreId]
        ensures { result.now ≡ self.now.stores }
    {
        self.stores.as_slice()
    }

    #[must_use]
    pub fn plan(&self) -> &Plan
        ensures { result.now ≡ self.now.plan }
    {
        &self.plan
    }

    /// The loss that the sheet says, in blocks.
    #[must_use]
    pub fn loss(&self) -> u64
        ensures { result ≡ self.now.loss }
    {
        self.own.loss()
    }

    /// The stretches of the cut.
    #[must_use]
    pub fn cut(&self) -> &[Stretch]
        ensures { result.now ≡ self.now.cut }
    {
        self.own.cut()
    }

    /// The inner steps that are counted by channels.
    #[must_use]
    pub fn by_channels(&self) -> &[u32]
        ensures { result.now ≡ self.now.by_channels }
    {
        self.own.by_channels()
    }

    /// The bound of the cut that the sheet says, in blocks.
    #[must_use]
    pub fn bound(&self) -> i64
        ensures { result ≡ self.now.bound }
    {
        self.own.bound()
    }

    /// The certificates of the first store, of the first two and so on, where the sheet says that the plan serves the
    /// stores in order.
    #[must_use]
    pub fn firsts(&self) -> Option<&[Certificate]>
        ensures { option_map (λ firsts. firsts.now) result ≡ self.now.firsts }
    {
        match &self.firsts {
            Some(firsts) => Some(firsts.as_slice()),
            None => None,
        }
    }
}
