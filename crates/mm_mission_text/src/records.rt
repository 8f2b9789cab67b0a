//! The records of a text.
ghost use Rattle.std.specs.Prelude.{◌≡◌, IfOk, IfErr, map};
ghost use Rattle.csv.specs.Records.{fields_of};
ghost use Rattle.mm_problem.specs.Records.{records_of, HasRecords};
ghost use Rattle.mm_mission_text.specs.Tables.{rows_of};
ghost use Rattle.mm_mission_text.specs.declared.fault.Fault.TheVariants.{NoMemory};

use crate::fault::Fault;
use csv::{ByteRecord, ErrorKind, Reader, ReaderBuilder};
use std::alloc::Global;

// A reader of the records of a text, which may have any lengths.
fn reader_of(alloc: Global, text: &[u8]) -> Reader<&[u8]>
    ensures { HasRecords result (records_of text.now) }
{
    ReaderBuilder::new()
        .has_headers(false)
        .flexible(true)
        .from_reader(alloc, text)
}

// The records of a text, without white space at the ends of their cells.
pub(crate) fn records_in(alloc: Global, text: &[u8]) -> Result<Vec<ByteRecord>, Fault>
    ensures rows { IfOk result (λ v. map fields_of v.items ≡ rows_of text.now) }
    ensures memory { IfErr result (λ e. e ≡ NoMemory) }
{
    let mut records = Vec::new(alloc);
    for record in reader_of(alloc, text).into_byte_records() {
        match record {
            Ok(mut record) => {
                record.trim()?;
                records.push(record)?;
            }
            Err(error) => match error.kind() {
                ErrorKind::Io(_) | ErrorKind::OutOfMemory => return Err(Fault::NoMemory),
                _ => unreachable!(),
            },
        }
    }
    Ok(records)
}
