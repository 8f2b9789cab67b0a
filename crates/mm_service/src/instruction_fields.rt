//! Instructions in one flat form, as C has them.
ghost use Rattle.std.specs.Prelude.{◌≡◌, map, IfOk};
ghost use Rattle.mm_service.specs.InstructionFields.{spaced, padded, target_of, report_type_of, time_range_of};
ghost use Rattle.mm_service.specs.InstructionFields.{time_limit_of, configuration_of, size_of, channel_of};

use mm_base::NoMemory;
use mm_st15::{Channel, Configuration, Entries, ReportType, Size, Target, TimeLimit, TimeRange};
use std::alloc::Global;

/// The fields of an instruction. A request reads those that its instructions have, and no others. The octets of the
/// identifier may end in octets 0, which stand for the spaces of a packet.
#[repr(C)]
#[derive(Clone, Copy, Debug, PartialEq, Eq)]
pub struct InstructionFields {
    /// The identifier of the store.
    pub id: [u8; 8],
    /// The first storage time of a retrieval, in ticks.
    pub from: u64,
    /// The last storage time of a retrieval, or of the content that is deleted, in ticks.
    pub to: u64,
    /// The size of the store, in blocks.
    pub size: u32,
    /// The application process identifier of a report type.
    pub apid: u16,
    /// The service type of a report type.
    pub service: u8,
    /// The message subtype of a report type.
    pub subtype: u8,
    /// The type of the store: 0 circular, 1 bounded.
    pub kind: u8,
    /// The virtual channel of the store.
    pub channel: u8,
}

// An octet of an identifier, where 0 stands for a space.
fn spaced(octet: u8) -> u8
    ensures { result ≡ spaced octet }
{
    if octet == 0 { b' ' } else { octet }
}

// The identifier, as packets have it.
fn padded(id: [u8; 8]) -> [u8; 8]
    ensures { result ≡ padded id }
{
    let mut field = id;
    for index in 0..id.len() {
        field[index] = spaced(id[index]);
    }
    field
}

// An instruction of this type: its identifier, and the fields of the same names.
macro_rules! instruction {
    ($made:ident, $fields:expr; $($field:ident),*) => {
        $made { id: padded($fields.id), $($field: $fields.$field),* }
    };
}

// What the fields of an instruction make.
pub(crate) trait OfFields: Copy {
    ghost use Rattle.mm_service.specs.declared.instruction_fields.InstructionFields.{InstructionFields};

    ghost made_of: { InstructionFields → Self };

    fn of_fields(fields: &InstructionFields) -> Self
        ensures { result ≡ made_of fields.now };
}

impl OfFields for Target {
    ghost made_of = { target_of };

    fn of_fields(fields: &InstructionFields) -> Target {
        instruction!(Target, fields;)
    }
}

impl OfFields for ReportType {
    ghost made_of = { report_type_of };

    fn of_fields(fields: &InstructionFields) -> ReportType {
        instruction!(ReportType, fields; apid, service, subtype)
    }
}

impl OfFields for TimeRange {
    ghost made_of = { time_range_of };

    fn of_fields(fields: &InstructionFields) -> TimeRange {
        TimeRange {
            id: padded(fields.id),
            from: fields.from,
            to: fields.to,
        }
    }
}

impl OfFields for TimeLimit {
    ghost made_of = { time_limit_of };

    fn of_fields(fields: &InstructionFields) -> TimeLimit {
        TimeLimit {
            id: padded(fields.id),
            limit: fields.to,
        }
    }
}

impl OfFields for Configuration {
    ghost made_of = { configuration_of };

    fn of_fields(fields: &InstructionFields) -> Configuration {
        instruction!(Configuration, fields; size, kind, channel)
    }
}

impl OfFields for Size {
    ghost made_of = { size_of };

    fn of_fields(fields: &InstructionFields) -> Size {
        instruction!(Size, fields; size)
    }
}

impl OfFields for Channel {
    ghost made_of = { channel_of };

    fn of_fields(fields: &InstructionFields) -> Channel {
        instruction!(Channel, fields; channel)
    }
}

// The instructions that these fields make, in order.
pub(crate) fn instructions_of<I: OfFields>(
    alloc: Global,
    fields: &[InstructionFields],
) -> Result<Entries<I>, NoMemory>
    ensures { IfOk result (λ entries. entries ≡ map I.made_of fields.now) }
{
    let mut entries = Vec::with_capacity(alloc, fields.len())?;
    for each in fields {
        entries.push(I::of_fields(each))?;
    }
    Ok(Entries::new(entries))
}
