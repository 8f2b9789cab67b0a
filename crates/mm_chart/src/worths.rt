//! What larger windows, limits and stores are worth.
ghost use Rattle.std.specs.Prelude.{◌≡◌, ◌≤◌, ◌<◌, ◌*◌, ◌-◌, ◌^◌, All, Some, slice_index_or};
ghost use Rattle.mm_base.specs.declared.limits.TheConstants.{MAX_STORES};
ghost use Rattle.mm_chart.specs.Series.{limit_worth_of, size_worth_of};

use mm_base::CHANNELS;
use mm_base::grid::place;
use std::marker::Model;

/// How many blocks fewer the least plan loses where one window, limit or size of a problem is the largest.
#[derive(Debug, Drop)]
pub struct Worths {
    windows: Vec<u32>,
    limits: Vec<u64>,
    step_limits: Vec<u64>,
    sizes: Vec<u64>,
}

impl Model for Worths {
    ghost use Rattle.std.specs.Prelude.{◌≤◌, ◌*◌, ◌^◌, All};
    ghost use Rattle.mm_base.specs.declared.limits.TheConstants.{MAX_STORES};
    ghost use Rattle.mm_chart.specs.Picture.{WorthLists};

    ghost Value = { WorthLists };

    ghost view = { λ a. record {
      windows = a.windows.items;
      limits = a.limits.items;
      step_limits = a.step_limits.items;
      sizes = a.sizes.items;
    } };

    ghost invariant = { λ a. All (λ n. n ≤ MAX_STORES * 2 ^ 32) a.limits.items
        × All (λ n. n ≤ MAX_STORES * 2 ^ 32) a.step_limits.items };
}

impl Worths {
    /// What the windows are worth, step by step; the limits of the channels in the setup; and the limits of steps, step
    /// by step, in each all channels; and the sizes of the stores. A channel without a limit has 0.
    #[must_use]
    pub fn new(
        windows: Vec<u32>,
        limits: Vec<u64>,
        step_limits: Vec<u64>,
        sizes: Vec<u64>,
    ) -> Worths
        requires limits { All (λ n. n ≤ MAX_STORES * 2 ^ 32) limits.items }
        requires step_limits { All (λ n. n ≤ MAX_STORES * 2 ^ 32) step_limits.items }
        ensures { result ≡ record {
          windows = windows.items;
          limits = limits.items;
          step_limits = step_limits.items;
          sizes = sizes.items;
        } }
    {
        Worths {
            windows,
            limits,
            step_limits,
            sizes,
        }
    }

    // What the window of a step is worth.
    pub(crate) fn window(&self, step: u32) -> u32
        requires { 1 ≤ step }
        ensures { result ≡ slice_index_or self.now.windows (step - 1) 0 }
    {
        self.windows.get(step as usize - 1).copied().unwrap_or(0)
    }

    // What one higher limit of a channel is worth in a step.
    pub(crate) fn limit(&self, channel: u8, step: u32) -> u64
        requires { 1 ≤ step }
        ensures worth { result ≡ limit_worth_of (Some self.now) channel step }
        ensures most { result ≤ MAX_STORES * 2 ^ 32 }
    {
        let in_setup = self.limits.get(channel as usize).copied().unwrap_or(0);
        let place = place(CHANNELS, step, channel as usize);
        in_setup.max(self.step_limits.get(place).copied().unwrap_or(0))
    }

    // What the size of a store is worth.
    pub(crate) fn size(&self, store: usize) -> u64
        ensures { result ≡ size_worth_of (Some self.now) store }
    {
        self.sizes.get(store).copied().unwrap_or(0)
    }
}
