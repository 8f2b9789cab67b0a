//! The instructions of requests and the entries of reports, in words and numbers.
ghost use Rattle.std.specs.Prelude.{◌≡◌, ◌++◌, ℕ, List, OnOk};
ghost use Rattle.mm_ask.specs.EntryWords.{named, id_words, type_words, storage_words, retrieval_words};

use crate::text::Pushed;
use mm_base::StoreId;
use mm_base::numbers::push_number;
use mm_st15::{
    Channel, Configuration, ReportType, Row, Size, Status, Summary, Target, TimeLimit, TimeRange,
};
use std::alloc::Global;

/// Writes a word and its number.
#[tactic(auto, using(std::proofs::Common::append_assoc), unfolding(crate::specs::EntryWords::named))]
pub(crate) fn push_named(text: &mut Vec<u8>, word: &[u8], number: u64) -> Pushed
    ensures { OnOk result (text.new.items ≡ text.old.items ++ named word.now number) }
{
    text.extend_from_slice(word)?;
    push_number(text, number)
}

/// Writes the text of an identifier, or the hexadecimal digits of octets that are none.
#[tactic(auto, using(crate::proofs::WordLemmas::words_of_id, crate::proofs::WordLemmas::words_of_other))]
pub(crate) fn push_id(alloc: Global, text: &mut Vec<u8>, octets: &[u8; 8]) -> Pushed
    ensures { OnOk result (text.new.items ≡ text.old.items ++ id_words octets.now) }
{
    match StoreId::of_field(*octets) {
        Ok(id) => text.extend_from_slice(id.text()),
        Err(_) => {
            let digits = hex::encode_upper(alloc, octets.as_slice())?;
            text.extend_from_slice(digits.as_bytes())
        }
    }
}

// Writes the type of a store.
#[tactic(auto, unfolding(crate::specs::EntryWords::type_words))]
fn push_type(text: &mut Vec<u8>, kind: u8) -> Pushed
    ensures { OnOk result (text.new.items ≡ text.old.items ++ type_words kind) }
{
    match kind {
        0 => text.extend_from_slice(b" type circular"),
        1 => text.extend_from_slice(b" type bounded"),
        _ => push_named(text, b" type ", u64::from(kind)),
    }
}

// Writes whether storage is on.
#[tactic(auto, unfolding(crate::specs::EntryWords::storage_words))]
fn push_storage(text: &mut Vec<u8>, status: u8) -> Pushed
    ensures { OnOk result (text.new.items ≡ text.old.items ++ storage_words status) }
{
    match status {
        0 => text.extend_from_slice(b" storage off"),
        1 => text.extend_from_slice(b" storage on"),
        _ => push_named(text, b" storage ", u64::from(status)),
    }
}

// Writes whether a retrieval is on.
#[tactic(auto, unfolding(crate::specs::EntryWords::retrieval_words))]
fn push_retrieval(text: &mut Vec<u8>, status: u8) -> Pushed
    ensures { OnOk result (text.new.items ≡ text.old.items ++ retrieval_words status) }
{
    match status {
        0 => text.extend_from_slice(b" retrieval off"),
        1 => text.extend_from_slice(b" retrieval on"),
        _ => push_named(text, b" retrieval ", u64::from(status)),
    }
}

/// An instruction of a request or an entry of a report that can be said in words.
pub(crate) trait InWords {
    // Its words.
    ghost words: { Self → List ℕ };

    // Writes the words at the end.
    fn push(&self, alloc: Global, text: &mut Vec<u8>) -> Pushed
        ensures words { OnOk result (text.new.items ≡ text.old.items ++ Self.words self.now) };
}

impl InWords for Target {
    ghost use Rattle.mm_ask.specs.EntryWords.{target_words};

    ghost words = { target_words };

    fn push(&self, alloc: Global, text: &mut Vec<u8>) -> Pushed {
        push_id(alloc, text, &self.id)
    }
}

impl InWords for ReportType {
    ghost use Rattle.mm_ask.specs.EntryWords.{report_type_words};

    ghost words = { report_type_words };

    #[tactic(auto, using(std::proofs::Common::append_assoc))]
    fn push(&self, alloc: Global, text: &mut Vec<u8>) -> Pushed {
        push_id(alloc, text, &self.id)?;
        push_named(text, b" apid ", u64::from(self.apid))?;
        push_named(text, b" service ", u64::from(self.service))?;
        push_named(text, b" subtype ", u64::from(self.subtype))
    }
}

impl InWords for TimeRange {
    ghost use Rattle.mm_ask.specs.EntryWords.{time_range_words};

    ghost words = { time_range_words };

    #[tactic(auto, using(std::proofs::Common::append_assoc))]
    fn push(&self, alloc: Global, text: &mut Vec<u8>) -> Pushed {
        push_id(alloc, text, &self.id)?;
        push_named(text, b" from ", self.from)?;
        push_named(text, b" to ", self.to)
    }
}

impl InWords for TimeLimit {
    ghost use Rattle.mm_ask.specs.EntryWords.{time_limit_words};

    ghost words = { time_limit_words };

    #[tactic(auto, using(std::proofs::Common::append_assoc))]
    fn push(&self, alloc: Global, text: &mut Vec<u8>) -> Pushed {
        push_id(alloc, text, &self.id)?;
        push_named(text, b" up to ", self.limit)
    }
}

impl InWords for Configuration {
    ghost use Rattle.mm_ask.specs.EntryWords.{configuration_words};

    ghost words = { configuration_words };

    #[tactic(auto, using(std::proofs::Common::append_assoc))]
    fn push(&self, alloc: Global, text: &mut Vec<u8>) -> Pushed {
        push_id(alloc, text, &self.id)?;
        push_named(text, b" size ", u64::from(self.size))?;
        push_type(text, self.kind)?;
        push_named(text, b" channel ", u64::from(self.channel))
    }
}

impl InWords for Size {
    ghost use Rattle.mm_ask.specs.EntryWords.{size_words};

    ghost words = { size_words };

    #[tactic(auto, using(std::proofs::Common::append_assoc))]
    fn push(&self, alloc: Global, text: &mut Vec<u8>) -> Pushed {
        push_id(alloc, text, &self.id)?;
        push_named(text, b" size ", u64::from(self.size))
    }
}

impl InWords for Channel {
    ghost use Rattle.mm_ask.specs.EntryWords.{channel_words};

    ghost words = { channel_words };

    #[tactic(auto, using(std::proofs::Common::append_assoc))]
    fn push(&self, alloc: Global, text: &mut Vec<u8>) -> Pushed {
        push_id(alloc, text, &self.id)?;
        push_named(text, b" channel ", u64::from(self.channel))
    }
}

impl InWords for Row {
    ghost use Rattle.mm_ask.specs.EntryWords.{row_words};

    ghost words = { row_words };

    #[tactic(auto, using(std::proofs::Common::append_assoc))]
    fn push(&self, _alloc: Global, text: &mut Vec<u8>) -> Pushed {
        push_named(text, b"apid ", u64::from(self.apid))?;
        push_named(text, b" service ", u64::from(self.service))?;
        push_named(text, b" subtype ", u64::from(self.subtype))
    }
}

impl InWords for Summary {
    ghost use Rattle.mm_ask.specs.EntryWords.{summary_words};

    ghost words = { summary_words };

    #[tactic(auto, using(std::proofs::Common::append_assoc))]
    fn push(&self, alloc: Global, text: &mut Vec<u8>) -> Pushed {
        push_id(alloc, text, &self.id)?;
        push_named(text, b" oldest ", self.oldest)?;
        push_named(text, b" newest ", self.newest)?;
        push_named(text, b" held ", u64::from(self.held))
    }
}

impl InWords for Status {
    ghost use Rattle.mm_ask.specs.EntryWords.{status_words};

    ghost words = { status_words };

    #[tactic(auto, using(std::proofs::Common::append_assoc))]
    fn push(&self, alloc: Global, text: &mut Vec<u8>) -> Pushed {
        push_id(alloc, text, &self.id)?;
        push_storage(text, self.storage)?;
        push_retrieval(text, self.retrieval)
    }
}
