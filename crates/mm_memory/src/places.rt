//! Where the store stands that a text names.
ghost use Rattle.std.specs.Prelude.{◌≡◌, None, MatchOption, position};
ghost use Rattle.mm_base.specs.Id.{IsIdText};
ghost use Rattle.mm_memory.specs.Holdings.{has_id};
ghost use Rattle.mm_memory.specs.Naming.{IsPadded, NamesAt, store_of_text};

use mm_desk::Held;
pub use mm_desk::holding::{place_of, store_of};

// The text padded with spaces to a field. None where its length or its last octet shows that no identifier has it.
fn padded(text: &[u8]) -> Option<[u8; 8]>
    ensures padded { MatchOption result (IsIdText text.now → ⊥) (IsPadded text.now) }
{
    let last = text.last()?;
    if *last == b' ' || text.len() > 8 {
        return None;
    }
    let mut field = [b' '; 8];
    field[..text.len()].copy_from_slice(text);
    Some(field)
}

// The place of the store whose identifier has this field, from 0. It is a call, so that each field is compared in one
// piece.
#[inline(never)]
fn place_of_field(stores: &[Held], field: &[u8; 8]) -> Option<usize>
    ensures place { result ≡ position (has_id field.now) stores.now }
{
    stores.iter().position(|held| held.id.field() == *field)
}

/// The place of the store whose identifier has this text, from 0.
pub(crate) fn place_named(stores: &[Held], text: &[u8]) -> Option<usize>
    ensures named { MatchOption result (store_of_text text.now stores.now ≡ None) (NamesAt text.now stores.now) }
{
    let field = padded(text)?;
    let place = place_of_field(stores, &field)?;
    // The identifier is read, since it is a fact of it that its field has a text.
    let _field = stores[place].id.field();
    Some(place)
}
