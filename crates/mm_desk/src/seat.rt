//! The seats of a desk.
ghost use Rattle.std.specs.Prelude.{◌≡◌, IfOk};
ghost use Rattle.mm_desk.specs.Seats.{new_seat, AreNew};

use crate::entry::Entry;
use crate::opening::Opening;
use mm_base::NoMemory;
use std::alloc::Global;
use std::marker::{Model, PhantomData};

/// A seat at a desk: the place of the desk, the seat's number there, and the list of the calls made through it.
#[derive(Drop)]
pub struct Seat<N: Opening> {
    place: u32,
    number: u32,
    pub(crate) list: Vec<Entry>,
    of: PhantomData<N>,
}

impl<N: Opening> Model for Seat<N> {
    ghost use Rattle.mm_desk.specs.Seats.{SeatView};

    ghost Value = { SeatView };

    ghost view = { λ s. record { place = s.place; number = s.number; list = s.list.items } };
}

impl<N: Opening> Seat<N> {
    /// A seat at the desk of this place, through which no call was made. It takes no memory.
    pub fn new(alloc: Global, place: u32, number: u32) -> Seat<N>
        ensures seat { result ≡ new_seat place number }
    {
        let list = Vec::new(alloc);
        Seat {
            place,
            number,
            list,
            of: PhantomData,
        }
    }

    /// The place of the desk.
    pub fn place(&self) -> u32
        ensures place { result ≡ self.now.place }
    {
        self.place
    }

    /// The calls made through the seat, in order, with their replies.
    pub fn list(&self) -> &[Entry]
        ensures list { result.now ≡ self.now.list }
    {
        self.list.as_slice()
    }

    /// The seat's number.
    pub fn number(&self) -> u32
        ensures number { result ≡ self.now.number }
    {
        self.number
    }
}

// The seats of a desk at this place.
pub(crate) fn new_seats<N: Opening>(
    alloc: Global,
    place: u32,
    seats: u32,
) -> Result<Vec<Seat<N>>, NoMemory>
    ensures new { IfOk result (λ list. AreNew place seats list.items) }
{
    let mut list = Vec::new(alloc);
    for number in 0..seats {
        list.push(Seat::new(alloc, place, number))?;
    }
    Ok(list)
}
