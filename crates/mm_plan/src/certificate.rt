//! What shows that no plan loses less of some stores: a loss, a cut, and its bound.
ghost use Rattle.std.specs.Prelude.{◌≡◌};
ghost use Rattle.mm_plan.specs.Sheet.{CertificateRows};

use crate::stretch::Stretch;
use std::marker::Model;

/// Stretches, and the inner steps that are counted by channels. Nothing is known of them.
#[derive(Debug, Drop)]
pub struct Cut {
    pub stretches: Vec<Stretch>,
    pub by_channels: Vec<u32>,
}

/// A loss in blocks, and a cut with its bound. The cut shows the loss if its bound is that number. Contracts see its
/// parts, with its lists as lists.
#[derive(Debug, Drop)]
pub struct Certificate {
    loss: u64,
    cut: Cut,
    bound: i64,
}

impl Model for Certificate {
    ghost use Rattle.mm_plan.specs.Sheet.{CertificateRows};

    ghost Value = { CertificateRows };

    ghost view = { λ a. record {
      loss = a.loss;
      cut = a.cut.stretches.items;
      by_channels = a.cut.by_channels.items;
      bound = a.bound;
    } };
}

impl Certificate {
    /// The certificate with these parts.
    #[must_use]
    pub fn new(loss: u64, cut: Cut, bound: i64) -> Certificate
        ensures { result ≡ record {
          loss = loss;
          cut = cut.stretches.items;
          by_channels = cut.by_channels.items;
          bound = bound;
        } }
    {
        Certificate { loss, cut, bound }
    }

    /// The loss that it says, in blocks.
    #[must_use]
    pub fn loss(&self) -> u64
        ensures { result ≡ self.now.loss }
    {
        self.loss
    }

    /// The stretches of the cut.
    #[must_use]
    pub fn cut(&self) -> &[Stretch]
        ensures { result.now ≡ self.now.cut }
    {
        self.cut.stretches.as_slice()
    }

    /// The inner steps that are counted by channels.
    #[must_use]
    pub fn by_channels(&self) -> &[u32]
        ensures { result.now ≡ self.now.by_channels }
    {
        self.cut.by_channels.as_slice()
    }

    /// The bound of the cut that it says, in blocks.
    #[must_use]
    pub fn bound(&self) -> i64
        ensures { result ≡ self.now.bound }
    {
        self.bound
    }
}
