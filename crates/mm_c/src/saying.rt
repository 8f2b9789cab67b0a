//! The words of a refusal, and the version of the library.
ghost use Rattle.std.specs.Prelude.{◌≡◌, ◌≤◌, length};
ghost use Rattle.mm_told.specs.Telling.{TellsSome, TellsText};
ghost use Rattle.mm_told.specs.Wording.{SaysTold};
ghost use Rattle.mm_c.specs.Telling.{IsNotTooSmall};

use mm_told::{Answer, RefusedAt, WORDS_ROOM, tell_text, words_of};

/// The version of the library: that of its calls and of the texts that they take and give.
pub const VERSION: &[u8] = b"0.4.0";

/// The same as a number, of two digits for each part.
pub const VERSION_NUMBER: u32 = 400;

/// The words of a refusal for people, in one line without its end: its number, its name and its fields, what was
/// expected, and what to do. There is no octet where no refusal has these codes. It takes no memory, and `WORDS_ROOM`
/// octets are never too few.
#[unsafe(no_mangle)]
pub extern "C" fn rudlayog_words(refused: &RefusedAt, out: &mut [u8], answer: &mut Answer)
    ensures told { TellsSome (SaysTold refused.now) out.old out.new answer.new }
    ensures room { WORDS_ROOM ≤ length out.old → IsNotTooSmall answer.new }
{
    *answer = tell_text(words_of(refused).as_str().as_bytes(), out);
}

/// The version of the library.
#[unsafe(no_mangle)]
pub extern "C" fn rudlayog_version(out: &mut [u8], answer: &mut Answer)
    ensures told { TellsText VERSION.now out.old out.new answer.new }
{
    *answer = tell_text(VERSION, out);
}

/// The version of the library as a number.
#[unsafe(no_mangle)]
pub extern "C" fn rudlayog_version_number(number: &mut u32)
    ensures told { number.new ≡ VERSION_NUMBER }
{
    *number = VERSION_NUMBER;
}
