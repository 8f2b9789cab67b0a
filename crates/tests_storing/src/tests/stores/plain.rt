//! A store as a plain list, and calls with its results.
use super::Call::{DeleteUpTo, FirstIn, PutAt};
use super::Told::{Deleted, First, Kept, KeptOver, Lost, Nothing};
use super::{Call, LAST, Step, Told};
use crate::tests::samples::Host;
use mm_base::Kind;

// A store as a plain list, by the rules alone.
#[derive(Drop)]
struct PlainStore {
    kind: Kind,
    size: usize,
    last: u64,
    held: Vec<(u64, u16)>,
}

impl PlainStore {
    fn put(&mut self, rt: &impl Host, now: u64, count: u16) -> Told {
        let time = now.max(self.last.saturating_add(1));
        let full = self.held.len() >= self.size;
        if full && self.kind == Kind::Bounded {
            return Lost(count);
        }
        self.last = time;
        let mut answer = Kept(time);
        if full && !self.held.is_empty() {
            answer = KeptOver(time, self.held.remove(0).1);
        }
        self.held.push((time, count)).expect(rt, "memory");
        answer
    }

    fn delete_up_to(&mut self, limit: u64) -> Told {
        let before = self.held.len();
        self.held.retain(|held| held.0 > limit);
        Deleted(before.saturating_sub(self.held.len()))
    }

    fn first_in(&self, from: u64, to: u64, after: u64) -> Told {
        for held in &self.held {
            if from <= held.0 && held.0 <= to && after < held.0 {
                return First(held.0, held.1);
            }
        }
        Nothing
    }

    // Adds look-ups that read all packets.
    fn list(&self, rt: &impl Host, steps: &mut Vec<Step>) {
        let mut after = 0;
        for held in &self.held {
            add(rt, steps, FirstIn(0, LAST, after), First(held.0, held.1));
            after = held.0;
        }
        add(rt, steps, FirstIn(0, LAST, after), Nothing);
    }
}

fn add(rt: &impl Host, steps: &mut Vec<Step>, call: Call, answer: Told) {
    steps.push((call, answer)).expect(rt, "memory");
}

// Adds the call that this random number selects, and look-ups after it.
fn draw(rt: &impl Host, plain: &mut PlainStore, steps: &mut Vec<Step>, drawn: u64, count: u16) {
    let shift = (drawn >> 40) % 9;
    let now = plain.last.saturating_add(shift);
    let limit = now.saturating_sub(12);
    if drawn >> 61 == 0 {
        add(rt, steps, DeleteUpTo(limit), plain.delete_up_to(limit));
    } else {
        add(rt, steps, PutAt(now, count), plain.put(rt, now, count));
    }
    let (from, after) = (now.saturating_sub(15), now.saturating_sub(3 * shift));
    let found = plain.first_in(from, now, after);
    add(rt, steps, FirstIn(from, now, after), found);
    plain.list(rt, steps);
}

// A thousand puts and deletions, selected by pseudo-random numbers, with look-ups after each.
pub(super) fn drawn(rt: &impl Host, kind: Kind) -> Vec<Step> {
    let mut plain = PlainStore {
        kind,
        size: 7,
        last: 0,
        held: Vec::new(rt.alloc()),
    };
    let mut steps = Vec::new(rt.alloc());
    let mut drawn: u64 = 12345;
    for count in 0..1000u16 {
        drawn = drawn
            .wrapping_mul(6364136223846793005)
            .wrapping_add(1442695040888963407);
        draw(rt, &mut plain, &mut steps, drawn, count);
    }
    steps
}
