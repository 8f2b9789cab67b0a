//! What several links can send together.
ghost use Rattle.std.specs.Prelude.{◌≡◌, ◌*◌, ◌<◌, ◌≤◌, length, sum_by};
ghost use Rattle.mm_base.specs.declared.limits.TheConstants.{CHANNELS};
ghost use Rattle.mm_links.specs.Rooms.{window_at, limit_of, room_of, limits_of, is_in, AreRooms};
ghost use Rattle.mm_links.specs.Narrowed.{IsNarrowed};

use crate::limits::MAX_LINKS;
use crate::link::{Link, Rooms};
use mm_base::CHANNELS;

// What the windows come to.
fn windows(links: &[Link]) -> u64
    requires { length links.now ≤ MAX_LINKS }
    ensures { result ≡ sum_by window_at links.now }
{
    links.iter().map(|link| u64::from(link.window)).sum()
}

// What all links can send of a channel.
pub(crate) fn limit(links: &[Link], channel: usize) -> u64
    requires few { length links.now ≤ MAX_LINKS }
    requires channel { channel < CHANNELS }
    ensures limit { result ≡ limit_of links.now channel }
    ensures most { result ≤ MAX_LINKS * u32.MAX }
{
    let mut sum = 0;
    for link in links {
        sum += u64::from(link.limit(channel));
    }
    sum
}

// What all links can send of a set of channels.
fn room(links: &[Link], set: &[bool; CHANNELS]) -> u64
    requires { length links.now ≤ MAX_LINKS }
    ensures { result ≡ room_of links.now (is_in set.now) }
{
    links.iter().map(|link| u64::from(link.room(set))).sum()
}

// What their limits come to for a set of channels.
fn set_limit(links: &[Link], set: &[bool; CHANNELS]) -> u64
    requires { length links.now ≤ MAX_LINKS }
    ensures { result ≡ limits_of links.now (is_in set.now) }
{
    let mut sum = 0;
    for channel in 0..CHANNELS {
        if set[channel] {
            sum += limit(links, channel);
        }
    }
    sum
}

// The widest window of at most this much that leaves room for each set of channels which has, of those below `channel`,
// the channels of this set.
fn narrowed(links: &[Link], set: [bool; CHANNELS], channel: usize, most: u64) -> u64
    requires few { length links.now ≤ MAX_LINKS }
    requires channel { channel ≤ CHANNELS }
    ensures { IsNarrowed links.now set channel most result }
{
    if channel == CHANNELS {
        let room = room(links, &set);
        if room < set_limit(links, &set) {
            most.min(room)
        } else {
            most
        }
    } else {
        let mut without = set;
        without[channel] = false;
        let mut with = set;
        with[channel] = true;
        let most = narrowed(links, without, channel + 1, most);
        narrowed(links, with, channel + 1, most)
    }
}

/// What links can send together in a step. Whatever keeps the window and the limits can be shared out among them
/// (`share`), and this holds of no wider window that is at most the sum of the links' windows.
#[must_use]
pub fn rooms(links: &[Link]) -> Rooms
    requires { length links.now ≤ MAX_LINKS }
    ensures { AreRooms links.now result }
{
    let mut limits = [0; CHANNELS];
    for channel in 0..CHANNELS {
        limits[channel] = limit(links, channel);
    }
    let window = narrowed(links, [false; CHANNELS], 0, windows(links));
    Rooms { window, limits }
}
