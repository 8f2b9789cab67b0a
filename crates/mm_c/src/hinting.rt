//! What is found in texts that are refused.
ghost use Rattle.mm_told.specs.Telling.{Tells};
ghost use Rattle.mm_c.specs.Telling.{IsAnyText, IsNoMemory};

use mm_base::NoMemory;
use mm_told::{Answer, Hint, Reason, RefusedAt, Texts, found_for, tell_text};
use std::alloc::Global;

// A hint in one line without its end.
fn text_of(alloc: Global, hint: &Hint) -> Result<Vec<u8>, NoMemory> {
    let text = format!(in alloc; "{hint}")?;
    Ok(text.into_bytes())
}

// The hint found in texts that are refused so, without octets if there is none.
fn found_in(alloc: Global, texts: Texts<'_>, refused: &RefusedAt) -> Result<Vec<u8>, NoMemory> {
    let Some(reason) = refused.reason() else {
        return Ok(Vec::new(alloc));
    };
    match found_for(alloc, reason, texts) {
        Ok(Some(hint)) => text_of(alloc, &hint),
        Ok(None) => Ok(Vec::new(alloc)),
        Err(error) => Err(error),
    }
}

/// The hint on a call that was refused so, found in its setup, its forecast and its plan text: the line that the
/// program prints, without its end, and no octet if there is no hint. A text that the call did not have is empty.
#[unsafe(no_mangle)]
pub extern "C" fn rudlayog_hint(
    alloc: Global,
    setup: &[u8],
    forecast: &[u8],
    plan: &[u8],
    refused: &RefusedAt,
    out: &mut [u8],
    answer: &mut Answer,
)
    ensures told { Tells IsAnyText IsNoMemory out.old out.new answer.new }
{
    let texts = Texts {
        setup,
        forecast,
        plan,
        sources: b"",
        links: b"",
    };
    *answer = match found_in(alloc, texts, refused) {
        Ok(text) => tell_text(&text, out),
        Err(_) => Answer::refused(Reason::no_memory()),
    };
}
