//! Where the program's files come from, and how they are read to their end.
ghost use Rattle.std.specs.Prelude.{◌≡◌, ◌≤◌, ◌<◌, ℕ, List, Option, None, Some, Bool, true, false, [], ◌∷◌, length};
ghost use Rattle.std.specs.Prelude.{IsOk, IsErrAnd, IfOk, IfErr, IfSome, IsTrue, IsFalse};
ghost use Rattle.std.specs.Io.{ReadsAtMost};
ghost use Rattle.std.specs.Io.KnownBytes.{ReadConsumes};
ghost use Rattle.std.specs.IoError.{error_kind};
ghost use Rattle.mm_files.specs.Contents.{Content, IsStored, MayBe, MayBeUnread, Notes, Reading, reading};
ghost use Rattle.mm_files.specs.Inputs.{failed_after, is_interrupted};
ghost use Rattle.mm_files.specs.ReadFaults.{is_unread, refusal_of};
ghost use Rattle.mm_files.specs.declared.files.ReadFault.TheVariants.{NoMemory};
ghost use Rattle.mm_files.specs.declared.files.TheConstants.{MAX_READS};

use mm_base::{Refusal, Refused, refusals};
use std::alloc::Global;
use std::fmt;
use std::io::{self, ErrorKind, Read};
use thiserror::Error;

/// The most reads of one file, and the most bytes that it may have.
pub const MAX_READS: u64 = 1 << 30;

/// How many bytes one read asks for.
const PIECE: usize = 4096;

/// What keeps a file from being read. It is shown as what was expected, and what to do.
#[derive(Clone, Copy, Debug, PartialEq, Eq)]
pub enum Obstacle {
    /// There is no file of this name.
    Missing,
    /// A script has this name with a carriage return beside it.
    CarriageReturn,
    /// A script has this name with spaces beside it.
    Spaces,
    /// The user may not read it.
    Forbidden,
    /// It is a folder.
    Folder,
    /// It has more than 2^30 bytes, or its end does not come.
    TooLong,
    /// A read failed.
    Failed,
}

impl fmt::Display for Obstacle {
    fn fmt<W: fmt::Write>(&self, f: &mut fmt::Formatter<W>) -> fmt::Result {
        f.write_str(match self {
            Obstacle::Missing => {
                "expected a file of this name; check the name and its folder, or in a script the line === NAME above \
                    the file; outside a script - is standard input"
            }
            Obstacle::CarriageReturn => {
                "expected a line === NAME; in this script a carriage return stands beside the name; save the script \
                    with LF at the end of each line, not CR LF"
            }
            Obstacle::Spaces => {
                "expected a line === NAME; in this script spaces stand beside the name; remove them"
            }
            Obstacle::Forbidden => {
                "expected a file that may be read; let this user read it, as chmod does, or take a copy of it"
            }
            Obstacle::Folder => "expected a file, and this is a folder; name a file in it",
            Obstacle::TooLong => {
                "expected a file of at most 2^30 bytes; check that it is the file that was meant"
            }
            Obstacle::Failed => {
                "expected a file that can be read to its end; try again, or take a copy of it; a read of it failed"
            }
        })
    }
}

/// Why the text of a file is not there.
#[derive(Clone, Copy, Debug, PartialEq, Eq, Error)]
pub enum ReadFault {
    #[error("{}", Refusal::NoMemory)]
    NoMemory,
    #[error("{}", Refusal::NotRead)]
    NotRead { obstacle: Obstacle },
}

impl ReadFault {
    /// What the error of an open or a read means.
    pub(crate) fn of(error: &io::Error) -> ReadFault
        ensures unread { IsTrue (is_unread result) }
    {
        let obstacle = match error.kind() {
            ErrorKind::NotFound | ErrorKind::NotADirectory => Obstacle::Missing,
            ErrorKind::PermissionDenied => Obstacle::Forbidden,
            ErrorKind::IsADirectory => Obstacle::Folder,
            _ => Obstacle::Failed,
        };
        ReadFault::NotRead { obstacle }
    }
}

impl Refused for ReadFault {
    fn refusal(self) -> Refusal {
        refusals!(self; NoMemory; with NotRead)
    }

    ghost refusal_of = { refusal_of };
}

const TOO_LONG: ReadFault = ReadFault::NotRead {
    obstacle: Obstacle::TooLong,
};

/// Why a text was not stored in a file.
#[derive(Clone, Copy, Debug, PartialEq, Eq, Error)]
pub enum StoreFault {
    #[error("there is no memory for it")]
    NoMemory,
    #[error("the files of a script are only read")]
    InScript,
    #[error("it is a file that the task reads")]
    IsRead,
    #[error("what has this name is no file, but a folder, a device or a link")]
    NotAFile,
    #[error("its folder is not there")]
    Missing,
    #[error("this user may not write there")]
    Forbidden,
    #[error("there is no room left")]
    Full,
    #[error("a write failed")]
    Failed,
}

impl StoreFault {
    /// What an error means that came while a file was written.
    pub(crate) fn of(error: &io::Error) -> StoreFault {
        match error.kind() {
            ErrorKind::NotFound | ErrorKind::NotADirectory => StoreFault::Missing,
            ErrorKind::PermissionDenied | ErrorKind::ReadOnlyFilesystem => StoreFault::Forbidden,
            ErrorKind::StorageFull | ErrorKind::QuotaExceeded => StoreFault::Full,
            ErrorKind::OutOfMemory => StoreFault::NoMemory,
            _ => StoreFault::Failed,
        }
    }
}

/// Where the bytes of a file come from.
pub trait Input {
    /// The bytes that are still to come, where they are known.
    ghost coming: { Self → Option (List ℕ) };

    /// Whether no read fails.
    ghost is_sure: { Self → Bool };

    /// Whether a read has failed. One that was interrupted has not.
    ghost has_failed: { Self → Bool };

    /// Reads some bytes, and none only at the end.
    fn read(&mut self, piece: &mut [u8]) -> io::Result<usize>
        ensures bound { ReadsAtMost result piece.new }
        ensures octets { ReadConsumes (coming self.old) (coming self.new) result piece.new }
        ensures sure { IsTrue (is_sure self.old) → IsOk result }
        ensures stays { is_sure self.new ≡ is_sure self.old }
        ensures failed { has_failed self.new ≡ failed_after (has_failed self.old) result };
}

impl Input for &[u8] {
    ghost coming = { λ s. Some s.now };

    ghost is_sure = { λ _. true };

    ghost has_failed = { λ _. false };

    fn read(&mut self, piece: &mut [u8]) -> io::Result<usize> {
        Read::read(self, piece)
    }
}

/// A reader of the system, of which any read may fail.
#[derive(Drop)]
pub struct Device<R> {
    pub reader: R,
    /// Whether a read has failed. One that was interrupted has not.
    pub has_failed: bool,
}

impl<R> Device<R> {
    pub fn new(reader: R) -> Device<R>
        ensures { result ≡ record { reader = reader; has_failed = false } }
    {
        Device {
            reader,
            has_failed: false,
        }
    }
}

impl<R: Read + Drop> Input for Device<R> {
    ghost coming = { λ s. R.remaining s.reader };

    ghost is_sure = { λ _. false };

    ghost has_failed = { λ s. s.has_failed };

    fn read(&mut self, piece: &mut [u8]) -> io::Result<usize> {
        match self.reader.read(piece) {
            Ok(count) => Ok(count),
            Err(error) => {
                self.has_failed = !is_interrupted(&error) || self.has_failed;
                Err(error)
            }
        }
    }
}

// Whether the read can be made again.
fn is_interrupted(error: &io::Error) -> bool
    ensures { result ≡ is_interrupted (error_kind error.now) }
{
    matches!(error.kind(), ErrorKind::Interrupted)
}

/// Files by name.
pub trait Files {
    /// Whether `-` is not the name of a file, but of standard input, and as an output of standard output.
    ghost has_streams: { Bool };

    /// Whether `-` is the name of standard input and standard output.
    fn has_streams() -> bool
        ensures streams { result ≡ has_streams };

    /// What is known of the file of a name.
    ghost content: { Self → List ℕ → Content };

    /// What was read so far, where that is noted.
    ghost readings: { Self → Option (List Reading) } = { λ _. None };

    /// The whole file; `NotRead` where there is none of this name, it fails, or it does not end in time.
    fn read(&mut self, alloc: Global, name: &str) -> Result<Vec<u8>, ReadFault>
        ensures whole { IfOk result (λ text. MayBe (content self.old name.now) text.items) }
        ensures unread { IfErr result (λ fault. IsTrue (is_unread fault) → MayBeUnread (content self.old name.now)) }
        ensures stays { content self.new ≡ content self.old }
        // What is handed back is noted, and nothing else.
        ensures noted { IfOk result (λ text. Notes (readings self.old) (readings self.new)
            (reading name.now text.items ∷ [])) }
        ensures unnoted { IfErr result (λ _. Notes (readings self.old) (readings self.new) []) };

    /// Whether both names are known to be of one file. The same name always is.
    fn is_same_file(&self, one: &str, other: &str) -> bool
        ensures same { one.now ≡ other.now → IsTrue result };

    /// Makes the text the whole file of this name, whether or not there is one. Where it fails, each file is as it was.
    fn store(&mut self, alloc: Global, name: &str, text: &[u8]) -> Result<(), StoreFault>
        ensures stored { IfOk result (λ _. IsStored (content self.old) (content self.new) name.now text.now) }
        ensures kept { IfErr result (λ _. content self.new ≡ content self.old) }
        ensures unread { readings self.new ≡ readings self.old };
}

/// Reads to the end; `NotRead` where a read fails, or the end has not come after 2^30 reads or 2^30 bytes.
pub fn read_to_end<I: Input>(alloc: Global, input: &mut I) -> Result<Vec<u8>, ReadFault>
    ensures within { IfOk result (λ text. length text.items ≤ MAX_READS) }
    ensures whole { IfOk result (λ text. IfSome (I.coming input.old) (λ octets. text.items ≡ octets)) }
    ensures read { IsTrue (I.is_sure input.old) → IfSome (I.coming input.old)
        (λ octets. length octets < MAX_READS → IfErr result (λ fault. fault ≡ NoMemory)) }
    // A read that fails is told as `NotRead`, and as nothing else.
    ensures failed { IsFalse (I.has_failed input.old) → IsTrue (I.has_failed input.new)
        → IsErrAnd result (λ fault. IsTrue (is_unread fault)) }
{
    let mut text = Vec::new(alloc);
    let mut piece = [0u8; PIECE];
    for _turn in 0..MAX_READS {
        let count = match input.read(&mut piece) {
            Ok(count) => count,
            Err(error) if is_interrupted(&error) => continue,
            Err(error) => return Err(ReadFault::of(&error)),
        };
        if count == 0 {
            return Ok(text);
        }
        if count as u64 > MAX_READS - text.len() as u64 {
            return Err(TOO_LONG);
        }
        text.extend_from_slice(&piece[..count])
            .map_err(|_| ReadFault::NoMemory)?;
    }
    Err(TOO_LONG)
}
