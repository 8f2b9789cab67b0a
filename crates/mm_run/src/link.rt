//! Links that fail where the lines of a text say so.
ghost use Rattle.std.specs.Prelude.{◌≡◌, ◌+◌, ◌-◌, ◌^◌, ◌<◌, ◌≤◌, ◌==◌, ◌∷◌, ◌++◌, [], length, is_err, is_some, nat_lt};
ghost use Rattle.std.specs.Prelude.{All, IfOk, IfSome, OnErr, OnOk};
ghost use Rattle.std.specs.List.{list_any};
ghost use Rattle.std.proofs.Math.ListN.{replicate};
ghost use Rattle.mm_base.specs.Lines.{file_lines};
ghost use Rattle.mm_base.specs.Reading.{IfRefused};
ghost use Rattle.mm_dump.specs.Sending.{sent_at};
ghost use Rattle.mm_run.specs.declared.link.TheConstants.{MAX_SENT};
ghost use Rattle.mm_run.specs.LinkView.{new_link, fails_next, next_send, after_failure};
ghost use Rattle.mm_run.specs.Links.{count_at, failing_at, with_failing, linked_of, AreLinked, AreFailing, SaysLinks};

use crate::script_fault::ScriptFault;
use crate::words::number_in;
use mm_base::lines::{cut_word, first_line};
use mm_base::{NoMemory, StoreId};
use mm_dump::{Link, SendFailed};
use mm_packet::BlockPacket;
use std::alloc::Global;
use std::marker::Model;
use std::snapshot::Snapshot;

/// The most packets that a link takes: as many as a list can hold of values without bytes.
pub const MAX_SENT: usize = 0x7fff_ffff_ffff_ffff;

/// The greatest number of links that a text can say: one of two digits. A run takes fewer.
pub const MAX_WRITTEN: u8 = 99;

/// The greatest number of a send that a text can say.
pub const MAX_SEND: u32 = u32::MAX;

// A packet that was sent, for contracts alone: it has no bytes, and neither has a list of such.
#[derive(Drop)]
struct Note {
    store: Snapshot<StoreId>,
    time: Snapshot<u64>,
    packet: Snapshot<BlockPacket>,
}

/// A send that failed.
#[derive(Clone, Copy, Debug, PartialEq, Eq)]
pub struct FailedSend {
    /// The number of the send, counted from 1 over all sends of the link. Sends that fail count too.
    pub send: u128,
    /// The store of the packet that was not sent.
    pub store: StoreId,
}

/// A link that fails at the sends of a text's lines, and keeps nothing of what is sent over it. Contracts see which of
/// its sends fail by the lines, what was sent, how many sends have failed, and the last of these.
#[derive(Drop)]
pub struct ScriptedLink {
    failing: Vec<u32>,
    notes: Vec<Note>,
    failed: u64,
    last_failure: Option<FailedSend>,
}

impl Model for ScriptedLink {
    ghost use Rattle.std.specs.Prelude.{◌≤◌, length, map, vec_capacity};
    ghost use Rattle.mm_run.specs.LinkView.{LinkView, NotesLast, sent_of};
    ghost use Rattle.mm_run.specs.declared.link.TheConstants.{MAX_SENT};

    ghost Value = { LinkView };

    ghost view = { λ a. record {
      failing = a.failing.items;
      sent = map sent_of a.notes.items;
      failed = a.failed;
      last_failure = a.last_failure;
    } };

    ghost invariant = { λ a. (MAX_SENT ≤ vec_capacity a.notes)
        × NotesLast (length a.notes.items) a.failed a.last_failure };
}

// The number of the next send, after these that succeeded and this many that failed.
fn next_number(sent: usize, failed: u64) -> u128
    ensures { result ≡ sent + failed + 1 }
{
    sent as u128 + u128::from(failed) + 1
}

impl ScriptedLink {
    /// A link that does not fail.
    pub(crate) fn new(alloc: Global) -> Result<ScriptedLink, NoMemory>
        ensures { IfOk result (λ link. link ≡ new_link) }
    {
        Ok(ScriptedLink {
            failing: Vec::new(alloc),
            notes: Vec::with_capacity(alloc, MAX_SENT)?,
            failed: 0,
            last_failure: None,
        })
    }

    /// Makes the send with this number, counted from 1, fail.
    pub(crate) fn fail(&mut self, send: u32) -> Result<(), NoMemory>
        ensures { OnOk result (self.new ≡ record self.old { failing = self.old.failing ++ send ∷ [] }) }
    {
        self.failing.push(send)?;
        Ok(())
    }

    /// The last send that failed, if any did.
    #[must_use]
    pub fn last_failure(&self) -> Option<FailedSend>
        ensures last { result ≡ self.now.last_failure }
        ensures some { is_some result ≡ nat_lt 0 self.now.failed }
        ensures made { IfSome result (λ f. (1 ≤ f.send) × (f.send < next_send self.now)) }
    {
        self.last_failure
    }

    /// Counts and notes the next send, of a packet of this store, which fails.
    pub(crate) fn refuse(&mut self, store: &StoreId) -> SendFailed
        requires room { self.old.failed < 2 ^ 64 - 1 }
        ensures after { self.new ≡ after_failure store.now self.old }
    {
        self.last_failure = Some(FailedSend {
            send: self.next_send(),
            store: *store,
        });
        self.failed += 1;
        SendFailed
    }

    // The number of the next send.
    fn next_send(&self) -> u128
        ensures { result ≡ next_send self.now }
    {
        next_number(self.notes.len(), self.failed)
    }

    // Whether the next send fails by the lines.
    fn fails_next(&self) -> bool
        ensures { result ≡ fails_next self.now }
    {
        let number = self.next_send();
        self.failing.iter().any(|send| u128::from(*send) == number)
    }
}

impl Link for ScriptedLink {
    ghost sent = { λ link. link.sent };

    ghost failed = { λ link. link.failed };

    fn send(&mut self, store: &StoreId, time: u64, packet: &BlockPacket) -> Result<(), SendFailed>
        requires room { self.old.failed < 2 ^ 64 - 1 }
        ensures ok { OnOk result (self.new
            ≡ record self.old { sent = self.old.sent ++ sent_at store.now time packet.now ∷ [] }) }
        ensures err { OnErr result (self.new ≡ after_failure store.now self.old) }
        ensures lines { length self.old.sent < MAX_SENT → is_err result ≡ fails_next self.old }
    {
        let note = Note {
            store: Snapshot::of(store),
            time: Snapshot::of(&time),
            packet: Snapshot::of(packet),
        };
        if !self.fails_next() && self.notes.push(note).is_ok() {
            return Ok(());
        }
        Err(self.refuse(store))
    }

    fn failures(&self) -> u64 {
        self.failed
    }
}

/// A send that fails: what a line says.
#[derive(Clone, Copy, Debug, PartialEq, Eq)]
pub struct Failing {
    /// The number of the link, counted from 1.
    pub link: u8,
    /// The number of the send, counted from 1. Sends that fail count too.
    pub send: u32,
}

/// The number of links that a line `links N` says.
#[tactic(auto, unfolding(crate::specs::Links::count_at))]
fn count_at(bad: ScriptFault, line: &[u8]) -> Result<u8, ScriptFault>
    ensures count { result ≡ count_at bad line.now }
    ensures most { IfOk result (λ n. n ≤ MAX_WRITTEN) }
{
    let (word, number) = cut_word(line).ok_or(bad)?;
    if word != b"links".as_slice() {
        return Err(bad);
    }
    let count = number_in(bad, 0, u64::from(MAX_WRITTEN), number)?;
    Ok(count as u8)
}

/// What a line `fail LINK SEND` says.
#[tactic(auto, unfolding(crate::specs::Links::failing_at))]
fn failing_at(bad: ScriptFault, count: u8, line: &[u8]) -> Result<Failing, ScriptFault>
    ensures failing { result ≡ failing_at bad count line.now }
    ensures first { IfOk result (λ f. 1 ≤ f.link) }
    ensures last { IfOk result (λ f. f.link ≤ count) }
{
    let (word, rest) = cut_word(line).ok_or(bad)?;
    if word != b"fail".as_slice() {
        return Err(bad);
    }
    let (link, send) = cut_word(rest).ok_or(bad)?;
    let link = number_in(bad, 1, u64::from(count), link)?;
    let send = number_in(bad, 1, u64::from(MAX_SEND), send)?;
    Ok(Failing {
        link: link as u8,
        send: send as u32,
    })
}

// This many links that do not fail.
fn new_links(alloc: Global, count: u8) -> Result<Vec<ScriptedLink>, NoMemory>
    ensures { IfOk result (λ links. links.items ≡ replicate count new_link) }
{
    let mut links = Vec::new(alloc);
    for _ in 0..count {
        links.push(ScriptedLink::new(alloc)?)?;
    }
    Ok(links)
}

// Makes the sends fail that the lines name. The first of these lines is line 2 of its text.
fn fail_all(links: &mut Vec<ScriptedLink>, count: u8, text: &[u8]) -> Result<(), ScriptFault>
    requires { AreLinked (record { count = count; failing = [] }) links.old.items }
    ensures failing { OnOk result (AreFailing count text.now links.new.items) }
    ensures refused { IfRefused ScriptFault.NoMemory result
        (λ e. with_failing count 2 [] (file_lines text.now) ≡ Err e) }
{
    let mut rest = text;
    let mut line: u64 = 2;
    while let Some((front, after)) = first_line(rest) {
        let failing = failing_at(ScriptFault::LinksText { line }, count, front)?;
        links[usize::from(failing.link) - 1].fail(failing.send)?;
        rest = after;
        line += 1;
    }
    Ok(())
}

/// The links that a text says: `links N` in its first line, and then lines `fail LINK SEND`. Otherwise `LinksText`
/// with the number, from 1, of the first line that has another form or names a link that does not exist.
#[tactic(auto, unfolding(crate::specs::Links::linked_of))]
pub fn read_links(alloc: Global, text: &[u8]) -> Result<Vec<ScriptedLink>, ScriptFault>
    ensures found { IfOk result (λ links. SaysLinks text.now links.items) }
    ensures unfailed { IfOk result (λ links. All (λ l. l.failed ≡ 0) links.items) }
    ensures refused { IfRefused ScriptFault.NoMemory result (λ e. linked_of text.now ≡ Err e) }
{
    let Some((first, rest)) = first_line(text) else {
        return Err(ScriptFault::LinksText { line: 1 });
    };
    let count = count_at(ScriptFault::LinksText { line: 1 }, first)?;
    let mut links = new_links(alloc, count)?;
    fail_all(&mut links, count, rest)?;
    Ok(links)
}
