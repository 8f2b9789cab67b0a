//! The records of a forecast, one at a time.
ghost use Rattle.std.specs.Prelude.{◌≡◌, List, IfOk, IfErr};
ghost use Rattle.csv.specs.Records.{fields_of};
ghost use Rattle.mm_problem.specs.declared.fault.Fault.TheVariants.{NoMemory};
ghost use Rattle.mm_problem.specs.Records.{Fields, records_of, HasRecords, IsReading, TakesRecord};

use crate::fault::Fault;
use csv::{ByteRecord, ErrorKind, Reader, ReaderBuilder};
use std::alloc::Global;

// A reader of the records of a text. Records can have any number of fields.
pub(crate) fn reader_of(alloc: Global, text: &[u8]) -> Reader<&[u8]>
    ensures { HasRecords result (records_of text.now) }
{
    ReaderBuilder::new()
        .has_headers(false)
        .flexible(true)
        .from_reader(alloc, text)
}

// Reads the next record, if there is one. `csv` can fail for lack of memory or because its input fails; bytes in memory
// never fail.
pub(crate) fn next_record(reader: &mut Reader<&[u8]>, row: &mut ByteRecord) -> Result<bool, Fault>
    requires { IsReading reader.old }
    ensures takes { IfOk result (λ found. (rows : List Fields) → HasRecords reader.old rows
        → TakesRecord rows found (fields_of row.new) reader.new) }
    ensures memory { IfErr result (λ e. e ≡ NoMemory) }
{
    match reader.read_byte_record(row) {
        Ok(found) => Ok(found),
        Err(error) => match error.kind() {
            ErrorKind::Io(_) | ErrorKind::OutOfMemory => Err(Fault::NoMemory),
            _ => unreachable!(),
        },
    }
}
