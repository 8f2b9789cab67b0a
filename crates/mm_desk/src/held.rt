//! Named packet stores.

use crate::named::Named;
use crate::state::StoreState;
use mm_base::StoreId;

/// A named packet store: its identifier, the virtual channel that it is sent on, and its state.
#[derive(Drop)]
pub struct Held {
    pub id: StoreId,
    pub channel: u8,
    pub state: StoreState,
}

impl Named for Held {
    ghost name = { λ h. h.id };

    fn id(&self) -> &StoreId {
        &self.id
    }
}
