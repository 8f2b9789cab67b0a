//! A pass window that several seats draw from.
ghost use Rattle.std.specs.Prelude.{◌≡◌, ℕ, ◌+◌, ◌<◌, ◌≤◌, sum, vec_len, IfOk, IfErr, OnOk, OnErr};
ghost use Rattle.mm_desk.specs.Passes.{IsPassBook, AreUndrawn};

use crate::desk::MAX_SEATS;
use mm_base::{NoMemory, Refusal, Refused};
use std::alloc::Global;
use std::marker::{Brand, Model};
use std::sync::ledger::{Blank, Book, Ledger, Share};
use std::sync::{Mutex, Wait};
use thiserror::Error;

/// A name of a pass book: its ledger, and its window. A call with `Brand` picks them; a function generic in the name
/// opens and closes the book.
pub trait Passing: Ledger {
    ghost window: { ℕ };
}

impl Passing for Brand {
    ghost window = { 0 };
}

// What is under the lock of a pass book.
#[derive(Drop)]
struct WindowState<W: Passing> {
    window: u64,
    drawn: u64,
    book: Book<W>,
    ghost of_window: { window ≡ W.window },
    ghost within: { drawn ≤ window },
    ghost counted: { drawn ≡ book.total },
}

/// A pass window, in blocks, under a lock.
#[derive(Drop)]
pub struct PassBook<W: Passing> {
    state: Mutex<WindowState<W>>,
}

/// A seat at a pass book. Contracts see how much was drawn through it.
#[derive(Drop)]
pub struct PassSeat<W: Passing> {
    drawn: u64,
    share: Share<W>,
}

impl<W: Passing> Model for PassSeat<W> {
    ghost Value = { ℕ };

    ghost view = { λ s. s.drawn };

    ghost invariant = { λ s. (s.share.parts ≡ 1) × (s.share.amount ≡ s.drawn) };
}

/// A draw was refused: the window has only this many blocks left.
#[derive(Clone, Copy, Debug, PartialEq, Eq, Error)]
#[error("{} left {left}", self.refusal())]
pub struct WindowFull {
    pub left: u64,
}

impl Refused for WindowFull {
    ghost use Rattle.mm_base.specs.declared.refusal.Refusal.TheVariants as refusal;

    ghost refusal_of = { λ _. refusal.WindowFull };

    fn refusal(self) -> Refusal {
        Refusal::WindowFull
    }
}

impl<W: Passing> PassSeat<W> {
    /// How much was drawn through the seat.
    pub fn drawn(&self) -> u64
        ensures drawn { result ≡ self.now }
    {
        self.drawn
    }
}

impl<W: Passing> PassBook<W> {
    /// A pass book with nothing drawn, and its seats.
    pub fn open(
        alloc: Global,
        blank: Blank,
        window: u64,
        seats: u32,
    ) -> Result<(PassBook<W>, Vec<PassSeat<W>>), NoMemory>
        requires lowest { 1 ≤ seats }
        requires highest { seats ≤ MAX_SEATS }
        requires book { IsPassBook blank window seats W.name W.parts W.window }
        ensures seats { IfOk result (λ opened. AreUndrawn seats opened.1.items) }
    {
        let mut list = Vec::new(alloc);
        list.reserve(seats as usize)?;
        let (book, mut all) = blank.open::<W>();
        for _ in 0..seats {
            let share = all.split_off(1, 0);
            list.push_reserved(PassSeat { drawn: 0, share });
        }
        let state = Mutex::new(WindowState {
            window,
            drawn: 0,
            book,
        });
        Ok((PassBook { state }, list))
    }

    /// Draws from the window through a seat, or says how much of it is left.
    pub fn draw<R: Wait>(&self, rt: &R, seat: &mut PassSeat<W>, n: u64) -> Result<(), WindowFull>
        ensures ok { OnOk result (seat.new ≡ seat.old + n) }
        ensures within { OnOk result (seat.new ≤ W.window) }
        ensures full { IfErr result (λ full. full.left < n) }
        ensures left { IfErr result (λ full. full.left + seat.old ≤ W.window) }
        ensures err { OnErr result (seat.new ≡ seat.old) }
    {
        let mut locked = self.state.lock(rt);
        let state = &mut *locked;
        state.book.audit(&mut seat.share);
        let left = state.window - state.drawn;
        if left < n {
            return Err(WindowFull { left });
        }
        state.book.add(&mut seat.share, n);
        state.book.audit(&mut seat.share);
        state.drawn += n;
        seat.drawn += n;
        Ok(())
    }

    /// Closes the book with all its seats, and returns how much was drawn.
    pub fn close(self, seats: Vec<PassSeat<W>>) -> u64
        requires all { vec_len seats ≡ W.parts }
        requires some { 1 ≤ vec_len seats }
        ensures total { result ≡ sum seats.items }
        ensures within { result ≤ W.window }
    {
        let WindowState {
            window: _,
            drawn,
            mut book,
        } = self.state.into_inner();
        let mut all = whole(seats);
        book.audit(&mut all);
        drawn
    }
}

// The shares of all seats as one.
fn whole<W: Passing>(mut seats: Vec<PassSeat<W>>) -> Share<W>
    requires some { 1 ≤ vec_len seats }
    ensures parts { result.parts ≡ vec_len seats }
    ensures amount { result.amount ≡ sum seats.items }
{
    let Some(PassSeat { drawn: _, share }) = seats.pop() else {
        unreachable!()
    };
    let mut all = share;
    while let Some(PassSeat { drawn: _, share }) = seats.pop() {
        all.merge(share);
    }
    all
}
