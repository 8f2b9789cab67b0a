//! Texts of sources.
ghost use Rattle.std.specs.Prelude.{◌≡◌, ◌+◌, ◌-◌, ◌<◌, ℕ, List, [], length, max, All, IfOk, OnOk};
ghost use Rattle.mm_base.specs.Reading.{Gives, IfRefused};
ghost use Rattle.mm_run.specs.declared.sources.SourceLine.{SourceLine};
ghost use Rattle.mm_run.specs.declared.source.TheConstants.{MAX_PACKETS};
ghost use Rattle.mm_run.specs.Sources.{packet_in, source_line_at, IsSourceLine, given, Says, AreFew, source_lines_of};

use crate::script_fault::ScriptFault;
use crate::source::{MAX_PACKETS, ScriptedSource};
use crate::untaken::UnstoredCount;
use crate::words::number_in;
use mm_ask::{LineFault, packet_of};
use mm_base::lines::{cut_word, first_line};
use mm_base::{MAX_STEPS, NoMemory};
use mm_packet::BlockPacket;
use mm_record::Source;
use mm_report::MAX_SOURCES;
use std::alloc::Global;

/// A packet that a source gives in a step: what a line says. Step 0 is before the run.
#[derive(Debug, Drop)]
pub struct SourceLine {
    /// The number of the source, counted from 1.
    pub source: u8,
    pub step: u32,
    pub packet: BlockPacket,
}

/// What a text of sources says.
#[derive(Drop)]
pub struct SourceFile {
    /// The packets of step 0, before the run, in the order of the lines.
    pub opening: Vec<BlockPacket>,
    /// The sources, from number 1 to the greatest number of a line.
    pub sources: Vec<ScriptedSource>,
}

// The packet that the digits spell, with nothing after it, where a block has room for it.
#[tactic(auto, unfolding(crate::specs::Sources::packet_in))]
fn packet_in(alloc: Global, bad: ScriptFault, digits: &[u8]) -> Result<BlockPacket, ScriptFault>
    ensures { Gives ScriptFault.NoMemory (λ packet. packet) result (packet_in bad digits.now) }
{
    match packet_of(alloc, digits) {
        Ok(packet) => BlockPacket::of(packet).map_err(|_| bad),
        Err(LineFault::NoMemory) => Err(ScriptFault::NoMemory),
        Err(_) => Err(bad),
    }
}

// What a line `source step HEX` says.
#[tactic(auto, unfolding(crate::specs::Sources::source_line_at))]
fn source_line_at(alloc: Global, bad: ScriptFault, line: &[u8]) -> Result<SourceLine, ScriptFault>
    ensures source_line { Gives ScriptFault.NoMemory (λ source_line. source_line) result (source_line_at bad line.now) }
    ensures in_range { IfOk result IsSourceLine }
{
    let (source, rest) = cut_word(line).ok_or(bad)?;
    let source = number_in(bad, 1, MAX_SOURCES as u64, source)?;
    let (step, digits) = cut_word(rest).ok_or(bad)?;
    let step = number_in(bad, 0, u64::from(MAX_STEPS), step)?;
    let packet = packet_in(alloc, bad, digits)?;
    Ok(SourceLine {
        source: source as u8,
        step: step as u32,
        packet,
    })
}

// Adds sources that give nothing until there are this many.
fn reach(alloc: Global, sources: &mut Vec<ScriptedSource>, count: usize) -> Result<(), NoMemory>
    ensures count { OnOk result (length sources.new.items ≡ max (length sources.old.items) count) }
    ensures given { OnOk result ((s t : ℕ) → given sources.new.items s t ≡ given sources.old.items s t) }
{
    while sources.len() < count {
        sources.push(ScriptedSource::new(alloc)?)?;
    }
    Ok(())
}

impl SourceFile {
    ghost use Rattle.mm_run.specs.Sources.{with_source_line};
    ghost use Rattle.mm_run.specs.Drafts.{IsRead, Adds};
    ghost use Rattle.mm_run.specs.Counted.{HasCounted, all_unstored};

    // Adds what a line says, where there is room for it; `opened` counts the packets of step 0 of each source.
    fn add(
        &mut self,
        alloc: Global,
        opened: &mut [u32; MAX_SOURCES],
        bad: ScriptFault,
        source_line: SourceLine,
    ) -> Result<(), ScriptFault>
        requires { IsSourceLine source_line }
        ensures { (earlier : List SourceLine) → IsRead earlier self.old opened.old
            → Adds (with_source_line bad earlier source_line) self.new opened.new result }
    {
        let SourceLine {
            source,
            step,
            packet,
        } = source_line;
        reach(alloc, &mut self.sources, usize::from(source))?;
        let place = usize::from(source) - 1;
        if step == 0 {
            if opened[place] >= MAX_PACKETS {
                return Err(bad);
            }
            self.opening.push(packet).map_err(|_| NoMemory)?;
            opened[place] += 1;
        } else {
            if self.sources[place].left(step) >= MAX_PACKETS {
                return Err(bad);
            }
            self.sources[place].add(step, packet)?;
        }
        Ok(())
    }

    /// What a text says, of which each line is `source step HEX`. Otherwise `SourcesText` with the first line, from
    /// 1, that is of another form, whose packet is refused, too long or followed by octets, or that is the 65,536th
    /// of its source and step.
    pub fn read(alloc: Global, text: &[u8]) -> Result<SourceFile, ScriptFault>
        ensures found { IfOk result (λ read. Says text.now read.opening.items read.sources.items) }
        ensures few { IfOk result (λ read. AreFew read.sources.items) }
        ensures refused { IfRefused ScriptFault.NoMemory result (λ e. source_lines_of text.now ≡ Err e) }
    {
        SourceFile::read_noting(alloc, text, &mut UnstoredCount::new(None))
    }

    /// Does what `read` does, and counts the packets that go to no store.
    pub(crate) fn read_noting(
        alloc: Global,
        text: &[u8],
        count: &mut UnstoredCount<'_>,
    ) -> Result<SourceFile, ScriptFault>
        requires none { all_unstored count.old.unstored ≡ 0 }
        requires counts { HasCounted count.old [] }
        ensures found { IfOk result (λ read. Says text.now read.opening.items read.sources.items) }
        ensures few { IfOk result (λ read. AreFew read.sources.items) }
        ensures start { count.new.start ≡ count.old.start }
        ensures counts { IfOk result (λ _. (lines : List SourceLine) → source_lines_of text.now ≡ Ok lines
            → HasCounted count.new lines) }
        ensures ranged { IfOk result (λ _. (lines : List SourceLine) → source_lines_of text.now ≡ Ok lines
            → All IsSourceLine lines) }
        ensures refused { IfRefused ScriptFault.NoMemory result (λ e. source_lines_of text.now ≡ Err e) }
    {
        let mut file = SourceFile {
            opening: Vec::new(alloc),
            sources: Vec::new(alloc),
        };
        let mut opened = [0; MAX_SOURCES];
        let mut rest = text;
        let mut line: u64 = 1;
        while let Some((front, after)) = first_line(rest) {
            let bad = ScriptFault::SourcesText { line };
            let source_line = source_line_at(alloc, bad, front)?;
            count.note(line, &source_line);
            file.add(alloc, &mut opened, bad, source_line)?;
            rest = after;
            line += 1;
        }
        Ok(file)
    }
}
