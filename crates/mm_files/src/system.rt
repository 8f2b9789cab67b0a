//! The files of the system: how one is read, and how a text takes the place of one.
ghost use Rattle.std.specs.Prelude.{◌≡◌, ◌++◌, ◌∷◌, [], Some, true, IsTrue, IfOk, IfErr, IfSome, IsErrAnd};
ghost use Rattle.mm_files.specs.Contents.{MayBe, MayBeUnread, Notes, reading, unknown};
ghost use Rattle.mm_files.specs.ReadFaults.{is_unread};
ghost use Rattle.mm_files.specs.Streams.{is_stream};

use crate::files::{Device, Files, Input, ReadFault, StoreFault, read_to_end};
use crate::readings::Readings;
use crate::streams::{STREAM, is_stream};
use std::alloc::Global;
use std::fs::{self, File, OpenFile, Permissions};
use std::io::{self, ErrorKind, Read, Write};
use std::os::unix::fs::MetadataExt;
use std::rt;

// Reads the input of this name to its end, and notes what came.
fn read_noted<I: Input>(
    alloc: Global,
    name: &str,
    input: &mut I,
    readings: &mut Readings,
) -> Result<Vec<u8>, ReadFault>
    ensures whole { IfOk result (λ text. IfSome (I.coming input.old) (λ octets. text.items ≡ octets)) }
    ensures noted { IfOk result (λ text. readings.new ≡ readings.old ++ reading name.now text.items ∷ []) }
    ensures unnoted { IfErr result (λ _. readings.new ≡ readings.old) }
{
    let text = read_to_end(alloc, input)?;
    readings
        .note(alloc, name, &text)
        .map_err(|_| ReadFault::NoMemory)?;
    Ok(text)
}

// Reads the file that was opened under this name to its end, and notes what came.
fn read_opened<R: Read + Drop>(
    alloc: Global,
    name: &str,
    opened: io::Result<R>,
    readings: &mut Readings,
) -> Result<Vec<u8>, ReadFault>
    ensures whole { IfOk opened (λ file. IfOk result (λ text. IfSome (R.remaining file)
        (λ octets. text.items ≡ octets))) }
    ensures noted { IfOk result (λ text. readings.new ≡ readings.old ++ reading name.now text.items ∷ []) }
    ensures unopened { IfErr opened (λ error. IsErrAnd result (λ fault. IsTrue (is_unread fault))) }
    ensures unnoted { IfErr result (λ _. readings.new ≡ readings.old) }
{
    match opened {
        Ok(file) => read_noted(alloc, name, &mut Device::new(file), readings),
        Err(error) => Err(ReadFault::of(&error)),
    }
}

// The path of what has this name.
fn path_of(name: &str) -> &str {
    if is_stream(true, name) {
        "/dev/stdin"
    } else {
        name
    }
}

// The permissions of the file of this name, where there is one.
fn permissions_of<R: rt::Files>(
    runtime: &R,
    name: &str,
) -> Result<Option<Permissions>, StoreFault> {
    match fs::symlink_metadata(runtime, name) {
        Ok(there) if there.is_file() => Ok(Some(there.permissions())),
        Ok(_) => Err(StoreFault::NotAFile),
        Err(error) if error.kind() == ErrorKind::NotFound => Ok(None),
        Err(error) => Err(StoreFault::of(&error)),
    }
}

// Whether two names are known to lead to one file.
fn are_of_one_file<R: rt::Files>(runtime: &R, one: &str, other: &str) -> bool {
    match (fs::metadata(runtime, one), fs::metadata(runtime, other)) {
        (Ok(one), Ok(other)) => one.dev() == other.dev() && one.ino() == other.ino(),
        _ => false,
    }
}

// A new file in the folder of the named one, and its name: the name with `.new` and the first number of which there is
// none. Such a file of an earlier run, which was stopped before it could remove it, is passed over.
fn make_beside<R: rt::Files>(
    runtime: &R,
    alloc: Global,
    name: &str,
) -> Result<(R::File, String), StoreFault> {
    for number in 1..u32::MAX {
        let beside = format!(in alloc; "{name}.new{number}").map_err(|_| StoreFault::NoMemory)?;
        match File::create_new(runtime, beside.as_str()) {
            Ok(file) => return Ok((file, beside)),
            Err(error) if error.kind() == ErrorKind::AlreadyExists => {}
            Err(error) => return Err(StoreFault::of(&error)),
        }
    }
    Err(StoreFault::Failed)
}

// Writes the whole text to the disk.
fn write_synced<F: OpenFile + Write>(
    file: &mut F,
    text: &[u8],
    permissions: Option<Permissions>,
) -> io::Result<()> {
    if let Some(permissions) = permissions {
        file.set_permissions(permissions)?;
    }
    file.write_all(text)?;
    file.sync_all()
}

/// The files of the system, with standard input under the name `-`. Contracts do not know what a file holds; what is
/// read is noted.
#[derive(Drop)]
pub struct SystemFiles<'a, R, I> {
    runtime: &'a R,
    input: I,
    readings: Readings,
}

impl<'a, R: rt::Files, I: Input> SystemFiles<'a, R, I> {
    /// The files of the system, of which this is the standard input.
    pub fn new(alloc: Global, runtime: &'a R, input: I) -> SystemFiles<'a, R, I> {
        SystemFiles {
            runtime,
            input,
            readings: Readings::new(alloc),
        }
    }
}

impl<R: rt::Files, I: Input> Files for SystemFiles<'_, R, I> {
    ghost has_streams = { true };

    fn has_streams() -> bool {
        true
    }

    ghost content = { λ _ _. unknown };

    ghost readings = { λ s. Some s.readings };

    fn read(&mut self, alloc: Global, name: &str) -> Result<Vec<u8>, ReadFault>
        ensures whole { IfOk result (λ text. MayBe unknown text.items) }
        // Under the name of standard input all that it gives is read, where that is known.
        ensures streamed { IsTrue (is_stream true name.now)
            → IfOk result (λ text. IfSome (I.coming self.old.input) (λ octets. text.items ≡ octets)) }
        ensures unread { IfErr result (λ fault. IsTrue (is_unread fault) → MayBeUnread unknown) }
        ensures noted { IfOk result (λ text. Notes (Some self.old.readings) (Some self.new.readings)
            (reading name.now text.items ∷ [])) }
        ensures unnoted { IfErr result (λ _. Notes (Some self.old.readings) (Some self.new.readings) []) }
    {
        if is_stream(true, name) {
            return read_noted(alloc, name, &mut self.input, &mut self.readings);
        }
        let opened = fs::open(self.runtime, name);
        read_opened(alloc, name, opened, &mut self.readings)
    }

    fn is_same_file(&self, one: &str, other: &str) -> bool {
        one == other || are_of_one_file(self.runtime, path_of(one), path_of(other))
    }

    // The text is written to a new file, which then takes the name in one step. So the file of the name is the old one
    // or the new one, and never a part of it. A new file that does not get so far is removed.
    fn store(&mut self, alloc: Global, name: &str, text: &[u8]) -> Result<(), StoreFault> {
        if name == STREAM {
            return Err(StoreFault::NotAFile);
        }
        let permissions = permissions_of(self.runtime, name)?;
        let (mut file, beside) = make_beside(self.runtime, alloc, name)?;
        let written = write_synced(&mut file, text, permissions).and_then(|()| fs::rename(
            self.runtime,
            beside.as_str(),
            name,
        ));
        match written {
            Ok(()) => Ok(()),
            Err(error) => {
                let _removed = fs::remove_file(self.runtime, beside.as_str());
                Err(StoreFault::of(&error))
            }
        }
    }
}
