//! The sheet of a plan: what each pass does to each store.
ghost use Rattle.std.specs.Prelude.{◌≡◌, ◌+◌, ◌-◌, ◌*◌, ◌^◌, ◌<◌, ◌≤◌, [], ◌∷◌, ◌++◌, length, map, filter, IfOk, OnOk};
ghost use Rattle.std.specs.Prelude.{IfSome, slice_get};
ghost use Rattle.std.specs.List.{range_with_len};
ghost use Rattle.mm_utc.specs.declared.moment.TheConstants.{MOMENTS};
ghost use Rattle.mm_mission.specs.Mission.{IsMission};
ghost use Rattle.mm_mission_sheet.specs.Cells.{csv_line, csv_text};
ghost use Rattle.mm_mission_sheet.specs.Rows.{IsSent};
ghost use Rattle.mm_mission_sheet.specs.Sheets.{step_at, over_steps, lies_in, begins_in, sent_then, lost_then, ended};
ghost use Rattle.mm_mission_sheet.specs.Sheets.{held_after, row_of, span_of, next_begin, row_in, row_before, loses};
ghost use Rattle.mm_mission_sheet.specs.Sheets.{rows_before, rows_in, sheet_rows, row_cells, rows_text, sheet_lines};
ghost use Rattle.mm_mission_sheet.specs.Sheets.{AreFlown};

use crate::cell::{Cell, Pushed, push_line};
use crate::flight::{Flight, PassName, Sent};
use mm_base::NoMemory;
use mm_mission::{Mission, PacketStep, Span};
use mm_utc::Moment;
use std::alloc::Global;

// What stands in place of a pass's name.
const BEFORE: &str = "before the first pass";

// What a time, mostly that of a pass, does to a store: what is sent in it, what the store holds at its begin and end,
// and what it loses from the begin until the next pass.
#[derive(Clone, Copy)]
struct Row {
    sent: Sent,
    before: u64,
    after: u64,
    lost: u128,
}

// A flight, and what its steps do to each store.
#[derive(Drop)]
struct Flown<'a> {
    flight: Flight<'a>,
    edges: &'a [u64],
    steps: &'a [PacketStep],
    ghost flown: { AreFlown flight.mission.now edges.now steps.now },
}

// Whether a step lies in a time.
fn lies_in(edges: &[u64], span: &Span, step: usize) -> bool
    requires first { 1 ≤ step }
    requires last { step < length edges.now }
    ensures { result ≡ lies_in edges.now span.now step }
{
    span.begin <= edges[step - 1] && edges[step] <= span.end
}

// Whether a step begins in a time, and not as it ends.
fn begins_in(edges: &[u64], span: &Span, step: usize) -> bool
    requires first { 1 ≤ step }
    requires last { step < length edges.now }
    ensures { result ≡ begins_in edges.now span.now step }
{
    span.begin <= edges[step - 1] && edges[step - 1] < span.end
}

// How many steps have ended by a time.
#[tactic(auto, unfolding(crate::specs::Sheets::ended))]
fn ended(edges: &[u64], time: u64) -> usize
    ensures { result ≡ ended edges.now time }
{
    edges.iter().skip(1).filter(|edge| **edge <= time).count()
}

impl Flown<'_> {
    fn step(&self, store: usize, step: usize) -> PacketStep
        requires store { store < length self.now.flight.mission.now.stores }
        requires first { 1 ≤ step }
        requires last { step < length self.now.edges.now }
        ensures { result ≡ step_at self.now.edges.now self.now.steps.now store step }
    {
        self.steps[store * (self.edges.len() - 1) + (step - 1)]
    }

    fn sent_then(&self, store: usize, span: &Span, step: usize) -> u64
        requires store { store < length self.now.flight.mission.now.stores }
        requires first { 1 ≤ step }
        requires last { step < length self.now.edges.now }
        ensures { result ≡ sent_then self.now.edges.now self.now.steps.now store span.now step }
    {
        if lies_in(self.edges, span, step) {
            self.step(store, step).dumped
        } else {
            0
        }
    }

    fn lost_then(&self, store: usize, span: &Span, step: usize) -> u128
        requires store { store < length self.now.flight.mission.now.stores }
        requires first { 1 ≤ step }
        requires last { step < length self.now.edges.now }
        ensures { result ≡ lost_then self.now.edges.now self.now.steps.now store span.now step }
    {
        if begins_in(self.edges, span, step) {
            self.step(store, step).lost
        } else {
            0
        }
    }

    // The packets of a store that are sent in the steps that lie in a time.
    fn sent(&self, store: usize, span: &Span) -> u128
        requires { store < length self.now.flight.mission.now.stores }
        ensures sent { result
            ≡ over_steps self.now.edges.now (sent_then self.now.edges.now self.now.steps.now store span.now) }
        ensures few { result ≤ 2 ^ 90 }
    {
        let mut total: u128 = 0;
        for step in 1..self.edges.len() {
            total += u128::from(self.sent_then(store, span, step));
        }
        total
    }

    // The packets of a store that are lost in the steps that begin in a time.
    fn lost(&self, store: usize, span: &Span) -> u128
        requires { store < length self.now.flight.mission.now.stores }
        ensures { result
            ≡ over_steps self.now.edges.now (lost_then self.now.edges.now self.now.steps.now store span.now) }
    {
        let mut total: u128 = 0;
        for step in 1..self.edges.len() {
            total += self.lost_then(store, span, step);
        }
        total
    }

    // What a store holds at a time, as the last step has ended by then.
    fn held(&self, store: usize, time: u64) -> u64
        requires { store < length self.now.flight.mission.now.stores }
        ensures { result ≡ held_after self.now.flight.mission.now self.now.edges.now self.now.steps.now store
            (ended self.now.edges.now time) }
    {
        match ended(self.edges, time) {
            0 => self.flight.mission.store_at(store).start,
            step => self.step(store, step).held,
        }
    }

    // The row of a store for a time, with what it loses from its begin until another time.
    #[tactic(auto, unfolding(crate::specs::Sheets::row_of))]
    fn row(&self, pass: Option<usize>, span: Span, until: u64, store: usize) -> Row
        requires { store < length self.now.flight.mission.now.stores }
        ensures row { result
            ≡ row_of self.now.flight.mission.now self.now.edges.now self.now.steps.now pass span until store }
        ensures pass { result.sent.pass ≡ pass }
        ensures span { result.sent.span ≡ span }
        ensures store { result.sent.store ≡ store }
        ensures few { result.sent.packets ≤ 2 ^ 90 }
        ensures lost { result.lost ≡ over_steps self.now.edges.now
            (lost_then self.now.edges.now self.now.steps.now store (record { begin = span.begin; end = until })) }
    {
        let from = Span {
            begin: span.begin,
            end: until,
        };
        Row {
            sent: Sent {
                pass,
                span,
                store,
                packets: self.sent(store, &span),
            },
            before: self.held(store, span.begin),
            after: self.held(store, span.end),
            lost: self.lost(store, &from),
        }
    }

    // When a pass lasts, if there is one.
    #[tactic(auto, using(crate::proofs::SheetLemmas::later_at, crate::proofs::SheetLemmas::within_at))]
    fn span(&self, pass: usize) -> Span
        ensures span { result ≡ span_of (slice_get self.now.flight.mission.now.passes pass) }
        ensures later { pass < length self.now.flight.mission.now.passes → result.begin < result.end }
        ensures within { result.end ≤ self.now.flight.mission.now.lasts }
        ensures is_mission { IsMission self.now.flight.mission.now }
    {
        match self.flight.mission.passes().get(pass) {
            Some(pass) => pass.span,
            None => Span { begin: 0, end: 0 },
        }
    }

    // When the pass at a place begins, or the mission ends.
    #[tactic(auto, using(crate::proofs::SheetLemmas::next_within))]
    fn next_begin(&self, pass: usize) -> u64
        ensures begin { result ≡ next_begin self.now.flight.mission.now pass }
        ensures within { result ≤ self.now.flight.mission.now.lasts }
    {
        match self.flight.mission.passes().get(pass) {
            Some(pass) => pass.span.begin,
            None => self.flight.mission.lasts(),
        }
    }

    fn push_row(&self, alloc: Global, text: &mut Vec<u8>, row: &Row) -> Pushed
        requires { IsSent self.now.flight.mission.now row.now.sent }
        ensures { OnOk result (text.new.items ≡ text.old.items ++ rows_text self.now.flight.begin
            self.now.flight.mission.now self.now.flight.names.now (row.now ∷ [])) }
    {
        let more = [
            Cell::Number(u128::from(row.before)),
            Cell::Number(u128::from(row.after)),
            Cell::Number(row.lost),
        ];
        push_line(
            alloc,
            text,
            &self.flight.sent_cells(BEFORE, &row.sent),
            &more,
        )
    }

    // The row of the time before the first pass, if its store loses something then.
    #[tactic(auto, using(crate::proofs::SheetLemmas::some_time))]
    fn push_before(&self, alloc: Global, text: &mut Vec<u8>, store: usize) -> Pushed
        requires { store < length self.now.flight.mission.now.stores }
        ensures { OnOk result (text.new.items ≡ text.old.items ++ rows_text self.now.flight.begin
            self.now.flight.mission.now self.now.flight.names.now (filter loses
            (row_before self.now.flight.mission.now self.now.edges.now self.now.steps.now store ∷ []))) }
    {
        let end = self.next_begin(0);
        let row = self.row(None, Span { begin: 0, end }, end, store);
        if row.lost == 0 {
            return Ok(());
        }
        self.push_row(alloc, text, &row)
    }

    // The rows of the time before the first pass.
    fn push_all_before(&self, alloc: Global, text: &mut Vec<u8>) -> Pushed
        ensures { OnOk result (text.new.items ≡ text.old.items ++ rows_text self.now.flight.begin
            self.now.flight.mission.now self.now.flight.names.now
            (rows_before self.now.flight.mission.now self.now.edges.now self.now.steps.now)) }
    {
        for store in 0..self.flight.mission.stores() {
            self.push_before(alloc, text, store)?;
        }
        Ok(())
    }

    fn push_store(&self, alloc: Global, text: &mut Vec<u8>, pass: usize, store: usize) -> Pushed
        requires pass { pass < length self.now.flight.mission.now.passes }
        requires store { store < length self.now.flight.mission.now.stores }
        ensures { OnOk result (text.new.items ≡ text.old.items ++ rows_text self.now.flight.begin
            self.now.flight.mission.now self.now.flight.names.now
            (row_in self.now.flight.mission.now self.now.edges.now self.now.steps.now pass store ∷ [])) }
    {
        let row = self.row(
            Some(pass),
            self.span(pass),
            self.next_begin(pass + 1),
            store,
        );
        self.push_row(alloc, text, &row)
    }

    // The rows of a pass.
    fn push_pass(&self, alloc: Global, text: &mut Vec<u8>, pass: usize) -> Pushed
        requires pass { pass < length self.now.flight.mission.now.passes }
        ensures { OnOk result (text.new.items ≡ text.old.items ++ rows_text self.now.flight.begin
            self.now.flight.mission.now self.now.flight.names.now
            (rows_in self.now.flight.mission.now self.now.edges.now self.now.steps.now pass)) }
    {
        for store in 0..self.flight.mission.stores() {
            self.push_store(alloc, text, pass, store)?;
        }
        Ok(())
    }

    // All rows.
    fn push_rows(&self, alloc: Global, text: &mut Vec<u8>) -> Pushed
        ensures { OnOk result (text.new.items ≡ text.old.items ++ rows_text self.now.flight.begin
            self.now.flight.mission.now self.now.flight.names.now
            (sheet_rows self.now.flight.mission.now self.now.edges.now self.now.steps.now)) }
    {
        self.push_all_before(alloc, text)?;
        for pass in 0..self.flight.mission.passes().len() {
            self.push_pass(alloc, text, pass)?;
        }
        Ok(())
    }
}

/// The sheet of a plan: comma separated values, a header, then a line for each store that loses something before the
/// first pass, and for each pass and store a line: the packets that are sent in it and their octets, the mean of their
/// bits in a second, rounded down, what the store holds at its begin and end, and what it loses from its begin until
/// the next pass begins. The steps are those of `in_packets`.
pub fn sheet_csv<'a>(
    alloc: Global,
    begin: Moment,
    mission: &'a Mission,
    names: &'a [PassName<'a>],
    edges: &'a [u64],
    steps: &'a [PacketStep],
) -> Result<Vec<u8>, NoMemory>
    requires names { length names.now ≡ length mission.now.passes }
    requires in_years { begin + mission.now.lasts < MOMENTS }
    requires flown { AreFlown mission.now edges.now steps.now }
    ensures { IfOk result (λ text. text.items
        ≡ csv_text (sheet_lines begin mission.now names.now (sheet_rows mission.now edges.now steps.now))) }
{
    let flight = Flight {
        begin,
        mission,
        names,
    };
    let flown = Flown {
        flight,
        edges,
        steps,
    };
    let mut text = Vec::new(alloc);
    text.extend_from_slice(
        b"pass,station,begin,end,store,packets,octets,bit/s,before,after,lost\n",
    )?;
    flown.push_rows(alloc, &mut text)?;
    Ok(text)
}
