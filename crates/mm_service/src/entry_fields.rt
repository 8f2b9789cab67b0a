//! The entries of reports in one flat form, as C has them.
ghost use Rattle.std.specs.Prelude.{◌≡◌, ◌≤◌, ◌++◌, map, length, drop};
ghost use Rattle.mm_service.specs.EntryFields.{no_entry, row_told, summary_told, status_told, configuration_told, over};

use mm_st15::{Configuration, Row, Status, Summary};

/// The fields of an entry of a report. Those that the entries of its report do not have are 0. The octets of an
/// identifier are those of the packet, which end in spaces.
#[repr(C)]
#[derive(Clone, Copy, Debug, PartialEq, Eq)]
pub struct EntryFields {
    /// The identifier of the store.
    pub id: [u8; 8],
    /// The storage time of its oldest packet, in ticks; 0 where it is empty.
    pub oldest: u64,
    /// The storage time of its newest packet, in ticks; 0 where it is empty.
    pub newest: u64,
    /// How many packets it holds.
    pub held: u32,
    /// Its size, in blocks.
    pub size: u32,
    /// The application process identifier of a report type.
    pub apid: u16,
    /// The service type of a report type.
    pub service: u8,
    /// The message subtype of a report type.
    pub subtype: u8,
    /// Whether its storage is on: 0 off, 1 on.
    pub storage: u8,
    /// Whether a retrieval is on: 0 off, 1 on.
    pub retrieval: u8,
    /// Its type: 0 circular, 1 bounded.
    pub kind: u8,
    /// Its virtual channel.
    pub channel: u8,
}

impl EntryFields {
    // An entry with no fields.
    fn nothing() -> EntryFields
        ensures { result ≡ no_entry }
    {
        EntryFields {
            id: [0; 8],
            oldest: 0,
            newest: 0,
            held: 0,
            size: 0,
            apid: 0,
            service: 0,
            subtype: 0,
            storage: 0,
            retrieval: 0,
            kind: 0,
            channel: 0,
        }
    }
}

// The entry with these fields of a value, and no others.
macro_rules! entry {
    ($told:expr; $($field:ident),*) => {
        EntryFields { $($field: $told.$field,)* ..EntryFields::nothing() }
    };
}

// What is told of an entry.
pub(crate) trait ToFields {
    ghost use Rattle.mm_service.specs.declared.entry_fields.EntryFields.{EntryFields};

    ghost told: { Self → EntryFields };

    fn fields(&self) -> EntryFields
        ensures { result ≡ told self.now };
}

impl ToFields for Row {
    ghost told = { row_told };

    fn fields(&self) -> EntryFields {
        entry!(self; apid, service, subtype)
    }
}

impl ToFields for Summary {
    ghost told = { summary_told };

    fn fields(&self) -> EntryFields {
        entry!(self; id, oldest, newest, held)
    }
}

impl ToFields for Status {
    ghost told = { status_told };

    fn fields(&self) -> EntryFields {
        entry!(self; id, storage, retrieval)
    }
}

impl ToFields for Configuration {
    ghost told = { configuration_told };

    fn fields(&self) -> EntryFields {
        entry!(self; id, size, kind, channel)
    }
}

// Writes the fields of entries at the head of a buffer.
pub(crate) fn tell_entries<E: ToFields>(entries: &[E], out: &mut [EntryFields])
    requires { length entries.now ≤ length out.old }
    ensures { out.new ≡ over (map E.told entries.now) out.old }
{
    for (index, entry) in entries.iter().enumerate() {
        out[index] = entry.fields();
    }
}
