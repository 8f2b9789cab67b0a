//! A count of one octet, and entries of fixed width after it.
ghost use Rattle.std.specs.Prelude.{◌≡◌, ◌+◌, ◌*◌, ◌<◌, ◌≤◌, ◌∷◌, length, is_some, IfOk, IfSome, MatchBool, IsOkUnless};
ghost use Rattle.std.specs.Option.{option_map};
ghost use Rattle.std.specs.List.{flat_map, AllByRecursion};
ghost use Rattle.mm_st15.specs.Layout.{octets_of, Fits};
ghost use Rattle.mm_st15.specs.Counted.{counted_at};

use crate::entries::Entries;
use crate::entry::{Entry, entries_of, put_entries};
use crate::fault::Fault;
use mm_packet::octet_at;
use std::alloc::{AllocError, Global};

// The count and the octets after it, where these are that many entries.
fn counted_at(least: u8, width: usize, octets: &[u8]) -> Option<(usize, &[u8])>
    requires { width ≤ 28 }
    ensures value { option_map (λ x. (x.0, x.1.now)) result ≡ counted_at least width octets.now }
    ensures parts { IfSome result (λ x. octets.now ≡ x.0 ∷ x.1.now) }
    ensures count { IfSome result (λ x. (least ≤ x.0) × (x.0 < 256)) }
    ensures len { IfSome result (λ x. length x.1.now ≡ x.0 * width) }
{
    let (count, rest) = octet_at(octets)?;
    if count < least || rest.len() != count as usize * width {
        return None;
    }
    Some((count as usize, rest))
}

// The entries after their count. There must be at least this many.
pub(crate) fn counted_entries<E: Entry>(
    alloc: Global,
    least: u8,
    octets: &[u8],
) -> Result<Entries<E>, Fault>
    requires { E.WIDTH ≤ 28 }
    ensures spelled { IfOk result (λ entries. octets.now
        ≡ length entries ∷ flat_map (octets_of E.layout) entries) }
    ensures count { IfOk result (λ entries. (least ≤ length entries) × (length entries < 256)) }
    ensures fits { IfOk result (λ entries. AllByRecursion (Fits E.layout) entries) }
    ensures refused { MatchBool (is_some (counted_at least E.WIDTH octets.now))
        (IsOkUnless result Fault.NoMemory) (result ≡ Err Fault.CountMismatch) }
{
    let (count, octets) = counted_at(least, E::WIDTH, octets).ok_or(Fault::CountMismatch)?;
    Ok(entries_of(alloc, count, octets)?)
}

// The number of the entries, and their octets.
pub(crate) fn counted_octets<E: Entry>(
    alloc: Global,
    entries: &Entries<E>,
) -> Result<Vec<u8>, AllocError>
    requires { length entries.now < 256 }
    ensures octets { IfOk result (λ out. out.items
        ≡ length entries.now ∷ flat_map (octets_of E.layout) entries.now) }
    ensures len { IfOk result (λ out. length out.items ≡ 1 + length entries.now * E.WIDTH) }
    ensures fits { IfOk result (λ _. AllByRecursion (Fits E.layout) entries.now) }
{
    let mut out = Vec::new(alloc);
    out.push(entries.as_slice().len() as u8)?;
    put_entries(&mut out, entries)?;
    Ok(out)
}
