//! The labels of stores.

use mm_base::StoreId;
use mm_desk::Named;

/// The label of a store: its identifier, and the virtual channel that it is sent on.
#[derive(Clone, Copy)]
pub struct StoreLabel {
    pub id: StoreId,
    pub channel: u8,
}

impl Named for StoreLabel {
    ghost name = { λ s. s.id };

    fn id(&self) -> &StoreId {
        &self.id
    }
}
