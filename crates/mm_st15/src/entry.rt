//! Entries of fixed width, read and written one after another.
ghost use Rattle.std.specs.Prelude.{◌≡◌, ◌+◌, ◌*◌, ◌<◌, ◌++◌, ℕ, length, drop, OnOk, IfOk, IfSome, IfNone};
ghost use Rattle.std.specs.List.{flat_map, AllByRecursion};
ghost use Rattle.mm_st15.specs.Layout.{Layout, octets_of, Fits};

use crate::entries::Entries;
use std::alloc::{AllocError, Global};

// An instruction of a request, or an entry of a report.
pub(crate) trait Entry: Copy {
    // Its fields.
    ghost layout: { Layout Self };

    // How many octets it has.
    const WIDTH: usize;

    ghost WIDTH: { ℕ };

    // The entry at the front of the octets, and what follows it.
    fn read(octets: &[u8]) -> Option<(Self, &[u8])>
        ensures spelled { IfSome result (λ x. octets.now ≡ octets_of Self.layout x.0 ++ x.1.now) }
        ensures len { IfSome result (λ x. length octets.now ≡ Self.WIDTH + length x.1.now) }
        ensures fits { IfSome result (λ x. Fits Self.layout x.0) }
        ensures none { IfNone result (length octets.now < Self.WIDTH) };

    // Writes the octets at the end.
    fn put(&self, out: &mut Vec<u8>) -> Result<(), AllocError>
        ensures octets { OnOk result (out.new.items ≡ out.old.items ++ octets_of Self.layout self.now) }
        ensures len { OnOk result (length out.new.items ≡ length out.old.items + Self.WIDTH) }
        ensures fits { OnOk result (Fits Self.layout self.now) };
}

// The identifier at the front of the octets, and what follows it.
pub(crate) fn id_at(octets: &[u8]) -> Option<([u8; 8], &[u8])>
    ensures spelled { IfSome result (λ x. octets.now ≡ x.0 ++ x.1.now) }
    ensures id { IfSome result (λ x. length x.0 ≡ 8) }
    ensures rest { IfSome result (λ x. x.1.now ≡ drop 8 octets.now) }
    ensures len { IfSome result (λ x. length octets.now ≡ 8 + length x.1.now) }
    ensures none { IfNone result (length octets.now < 8) }
{
    let (id, rest) = octets.split_first_chunk::<8>()?;
    Some((*id, rest))
}

// As many entries as the octets are.
pub(crate) fn entries_of<E: Entry>(
    alloc: Global,
    count: usize,
    octets: &[u8],
) -> Result<Entries<E>, AllocError>
    requires { length octets.now ≡ count * E.WIDTH }
    ensures spelled { IfOk result (λ entries. flat_map (octets_of E.layout) entries ≡ octets.now) }
    ensures count { IfOk result (λ entries. length entries ≡ count) }
    ensures fits { IfOk result (λ entries. AllByRecursion (Fits E.layout) entries) }
{
    let mut entries = Vec::with_capacity(alloc, count)?;
    let mut rest = octets;
    for _ in 0..count {
        let (entry, after) = E::read(rest).unwrap();
        entries.push(entry)?;
        rest = after;
    }
    Ok(Entries::new(entries))
}

// Writes the entries at the end, one after another.
pub(crate) fn put_entries<E: Entry>(
    out: &mut Vec<u8>,
    entries: &Entries<E>,
) -> Result<(), AllocError>
    ensures octets { OnOk result (out.new.items
        ≡ out.old.items ++ flat_map (octets_of E.layout) entries.now) }
    ensures len { OnOk result (length out.new.items
        ≡ length out.old.items + length entries.now * E.WIDTH) }
    ensures fits { OnOk result (AllByRecursion (Fits E.layout) entries.now) }
{
    for entry in entries.as_slice() {
        entry.put(out)?;
    }
    Ok(())
}
