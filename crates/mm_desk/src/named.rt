//! What is known by the identifier of a store.
ghost use Rattle.std.specs.Prelude.{◌≡◌, ℕ, List, position, bytes_eq};

use mm_base::StoreId;

/// A packet store, closed or open, with its identifier.
pub trait Named {
    ghost name: { Self → List ℕ };

    /// The identifier.
    fn id(&self) -> &StoreId
        ensures id { result.now ≡ name self.now };
}

/// The place of the first store with an identifier, from 0.
#[must_use]
pub fn place_of<N: Named>(stores: &[N], id: &StoreId) -> Option<usize>
    ensures place { result ≡ position (λ n. bytes_eq (N.name n) id.now) stores.now }
{
    stores.iter().position(|store| *store.id() == *id)
}
