//! Links, and what they can send in a step.
ghost use Rattle.std.specs.Prelude.{◌≡◌, ◌↔◌, ◌<◌, IsTrue, sum_by};
ghost use Rattle.mm_base.specs.declared.limits.TheConstants.{CHANNELS};
ghost use Rattle.mm_links.specs.Rooms.{channels, limit_at, room_at, is_in};
ghost use Rattle.mm_links.specs.Shared.{amount, Keeps};

use mm_base::CHANNELS;

/// What a link can send in a step, in units: in all, and of each channel.
#[derive(Clone, Copy, Debug, PartialEq, Eq)]
pub struct Link {
    pub window: u32,
    /// A channel without a limit can have the whole window. What no store sends is best limited to 0, since it then
    /// narrows no window.
    pub limits: [Option<u32>; CHANNELS],
}

/// What several links can send together in a step, in units: in all, and of each channel.
#[derive(Clone, Copy, Debug, PartialEq, Eq)]
pub struct Rooms {
    pub window: u64,
    pub limits: [u64; CHANNELS],
}

// What is sent of all channels.
fn total(amounts: &[u64; CHANNELS]) -> u128
    ensures { result ≡ sum_by (amount amounts.now) channels }
{
    let mut sum = 0;
    for channel in 0..CHANNELS {
        sum += u128::from(amounts[channel]);
    }
    sum
}

impl Rooms {
    /// Whether amounts of channels, in units, keep each limit, and all together the window.
    #[must_use]
    pub fn keeps(&self, amounts: &[u64; CHANNELS]) -> bool
        ensures { IsTrue result ↔ Keeps self.now amounts.now }
    {
        for channel in 0..CHANNELS {
            if amounts[channel] > self.limits[channel] {
                return false;
            }
        }
        total(amounts) <= u128::from(self.window)
    }
}

impl Link {
    // What it can send of a channel.
    pub(crate) fn limit(&self, channel: usize) -> u32
        requires { channel < CHANNELS }
        ensures { result ≡ limit_at self.now channel }
    {
        match self.limits[channel] {
            Some(limit) => limit.min(self.window),
            None => self.window,
        }
    }

    // What it can send of a set of channels.
    pub(crate) fn room(&self, set: &[bool; CHANNELS]) -> u32
        ensures { result ≡ room_at (is_in set.now) self.now }
    {
        let mut sum = 0;
        for channel in 0..CHANNELS {
            if set[channel] {
                sum += u64::from(self.limit(channel));
            }
        }
        u64::from(self.window).min(sum) as u32
    }
}
