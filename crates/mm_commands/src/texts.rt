//! The texts of a task's files.
ghost use Rattle.std.specs.Prelude.{◌≡◌, ◌++◌, IfOk, IfErr};
ghost use Rattle.mm_files.specs.Contents.{WereRead};
ghost use Rattle.mm_commands.specs.Reading.{IsUnread, listed, name_of, reading_of, readings_of};

use crate::fault::Fault;
use mm_command_line::FileNames;
use mm_files::{Files, ReadFault};
use mm_told::Texts;
use std::alloc::Global;

/// The bytes of a task's files; none for a file that the task does not have.
#[derive(Drop)]
pub(crate) struct TaskTexts {
    pub(crate) setup: Vec<u8>,
    pub(crate) forecast: Vec<u8>,
    pub(crate) plan: Vec<u8>,
    pub(crate) sources: Vec<u8>,
    pub(crate) links: Vec<u8>,
    /// The requests, the packets, or the mission.
    pub(crate) other: Vec<u8>,
}

// The bytes of a file, where one is named.
#[tactic(auto, using(crate::proofs::Refusals::none_read, crate::proofs::Refusals::one_read, crate::proofs::Refusals::one_unread))]
fn read_named<'a, F: Files>(
    alloc: Global,
    files: &mut F,
    name: Option<&'a str>,
) -> Result<Vec<u8>, Fault<'a>>
    ensures read { IfOk result (λ text. WereRead (F.content files.old) (F.readings files.old) (F.readings files.new)
        (reading_of name.entry text.items)) }
    ensures unread { IfErr result (IsUnread (F.content files.old) (F.readings files.old) (F.readings files.new)
        (name_of name.entry)) }
    ensures stays { F.content files.new ≡ F.content files.old }
{
    let Some(name) = name else {
        return Ok(Vec::new(alloc));
    };
    match files.read(alloc, name) {
        Ok(text) => Ok(text),
        Err(ReadFault::NoMemory) => Err(Fault::NoMemory),
        Err(ReadFault::NotRead { obstacle }) => Err(Fault::NotRead { name, obstacle }),
    }
}

/// The bytes of one file and then of another, where they are named.
pub(crate) fn read_two<'a, F: Files>(
    alloc: Global,
    files: &mut F,
    first: Option<&'a str>,
    second: Option<&'a str>,
) -> Result<(Vec<u8>, Vec<u8>), Fault<'a>>
    ensures read { IfOk result (λ texts. WereRead (F.content files.old) (F.readings files.old) (F.readings files.new)
        (reading_of first.entry texts.0.items ++ reading_of second.entry texts.1.items)) }
    ensures unread { IfErr result (IsUnread (F.content files.old) (F.readings files.old) (F.readings files.new)
        (name_of first.entry ++ name_of second.entry)) }
    ensures stays { F.content files.new ≡ F.content files.old }
{
    let one = read_named(alloc, files, first)?;
    let other = read_named(alloc, files, second)?;
    Ok((one, other))
}

impl TaskTexts {
    /// Reads the files of these names, one after another.
    pub(crate) fn read<'a, F: Files>(
        alloc: Global,
        files: &mut F,
        names: FileNames<'a>,
    ) -> Result<TaskTexts, Fault<'a>>
        ensures read { IfOk result (λ texts. WereRead (F.content files.old) (F.readings files.old)
            (F.readings files.new) (readings_of names.entry texts)) }
        ensures unread { IfErr result (IsUnread (F.content files.old) (F.readings files.old) (F.readings files.new)
            (listed names.entry)) }
        ensures stays { F.content files.new ≡ F.content files.old }
    {
        let (setup, forecast) = read_two(alloc, files, names.setup, names.forecast)?;
        let (plan, sources) = read_two(alloc, files, names.plan, names.sources)?;
        let (links, other) = read_two(alloc, files, names.links, names.other)?;
        Ok(TaskTexts {
            setup,
            forecast,
            plan,
            sources,
            links,
            other,
        })
    }

    /// The texts in which a hint is found.
    pub(crate) fn hinted(&self) -> Texts<'_> {
        Texts {
            setup: &self.setup,
            forecast: &self.forecast,
            plan: &self.plan,
            sources: &self.sources,
            links: &self.links,
        }
    }
}
