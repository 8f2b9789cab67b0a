//! Where a named packet store stands among others.
ghost use Rattle.std.specs.Prelude.{◌≡◌, None, MatchOption, IfSome};
ghost use Rattle.std.specs.List.{position_or_len};
ghost use Rattle.std.specs.Option.{option_copied};
ghost use Rattle.mm_desk.specs.Holdings.{StandsAt, has_id, store_of};

use crate::held::Held;
use crate::named;
use mm_base::StoreId;

/// The place of the store with this identifier, from 0.
#[must_use]
pub fn place_of(stores: &[Held], id: &StoreId) -> Option<usize>
    ensures stands { MatchOption result (store_of id.now stores.now ≡ None) (λ place. StandsAt id.now stores.now place) }
    ensures first { IfSome result (λ place. place ≡ position_or_len (has_id id.now) stores.now) }
{
    named::place_of(stores, id)
}

/// The store with this identifier.
#[must_use]
pub fn store_of<'a>(stores: &'a [Held], id: &StoreId) -> Option<&'a Held>
    ensures store { option_copied result ≡ store_of id.now stores.now }
{
    stores.iter().find(|held| held.id == *id)
}
