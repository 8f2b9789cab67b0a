//! Scripts: the words of a command line, and then its files, in one text.
ghost use Rattle.std.specs.Prelude.{◌≡◌, ◌<◌, ◌≤◌, [], ◌∷◌, length, bytes_eq, false, None, IfOk, IfErr, IfSome, IfNone};
ghost use Rattle.std.specs.Prelude.{IsErrAnd, IsTrue};
ghost use Rattle.std.specs.Option.{option_map};
ghost use Rattle.mm_base.specs.Lines.{text_lines};
ghost use Rattle.mm_files.specs.Contents.{MayBe, MayBeUnread, Notes, content_of, reading};
ghost use Rattle.mm_files.specs.Scripts.{IsFirstLine, is_heading, heading_of, before_heading, script_contents};
ghost use Rattle.mm_files.specs.Scripts.{script_file};
ghost use Rattle.mm_files.specs.ReadFaults.{is_unread};
ghost use Rattle.mm_files.specs.declared.files.ReadFault.TheVariants.{NoMemory};

use crate::files::{Files, Obstacle, ReadFault, StoreFault};
use mm_base::lines::split_line;
use std::alloc::Global;
use std::marker::Model;

/// What the line that begins a file starts with; the rest of the line is the file's name.
const HEADING: &[u8] = b"=== ";

/// The first line of a text without its LF, and what follows it.
pub fn first_line(text: &[u8]) -> (&[u8], &[u8])
    ensures lines { IsFirstLine text.now result.0.now result.1.now }
    ensures shorter { 1 ≤ length text.now → length result.1.now < length text.now }
{
    match split_line(text) {
        Some(parts) => parts,
        None => (text, &[]),
    }
}

fn is_heading(line: &[u8]) -> bool
    ensures { result ≡ is_heading line.now }
{
    line.starts_with(HEADING)
}

fn is_heading_of(line: &[u8], name: &[u8]) -> bool
    ensures { result ≡ bytes_eq line.now (heading_of name.now) }
{
    line.strip_prefix(HEADING) == Some(name)
}

/// The octets before the first heading, or all.
pub fn before_heading(text: &[u8]) -> &[u8]
    ensures { result.now ≡ before_heading (text_lines text.now) }
{
    let mut rest = text;
    while !rest.is_empty() {
        let (line, after) = first_line(rest);
        if is_heading(line) {
            break;
        }
        rest = after;
    }
    &text[..text.len() - rest.len()]
}

// What stands beside the name in a heading: a carriage return, or spaces.
fn obstacle_beside(name: &[u8], heading: &[u8]) -> Obstacle {
    if name.contains(&b'\r') || heading.contains(&b'\r') {
        Obstacle::CarriageReturn
    } else {
        Obstacle::Spaces
    }
}

// Why none of the headings in the text is that of the file of this name.
fn obstacle_in(text: &[u8], name: &[u8]) -> Obstacle {
    let mut rest = text;
    while !rest.is_empty() {
        let (line, after) = first_line(rest);
        match line.strip_prefix(HEADING) {
            Some(found) if found.trim_ascii() == name.trim_ascii() => {
                return obstacle_beside(name, found);
            }
            _ => rest = after,
        }
    }
    Obstacle::Missing
}

/// The files of a script, in which `-` is a name like any other. Contracts see the text that they stand in.
#[derive(Drop)]
pub struct ScriptFiles<'a> {
    text: &'a [u8],
}

impl<'a> Model for ScriptFiles<'a> {
    ghost use Rattle.std.specs.Prelude.{ℕ, List};

    ghost Value = { List ℕ };

    ghost view = { λ s. s.text.now };
}

impl<'a> ScriptFiles<'a> {
    /// The files of a script's text after its first line.
    pub fn new(text: &'a [u8]) -> ScriptFiles<'a>
        ensures text { result ≡ text.now }
    {
        ScriptFiles { text }
    }

    /// The first file of this name.
    #[tactic(auto, using(crate::proofs::ScriptLemmas::found, crate::proofs::ScriptLemmas::not_found), unfolding(crate::specs::Scripts::script_file))]
    pub fn find(&self, name: &[u8]) -> Option<&'a [u8]>
        ensures { option_map (λ octets. octets.now) result ≡ script_file self.now name.now }
    {
        let mut rest = self.text;
        while !rest.is_empty() {
            let (line, after) = first_line(rest);
            if is_heading_of(line, name) {
                return Some(before_heading(after));
            }
            rest = after;
        }
        None
    }
}

impl Files for ScriptFiles<'_> {
    ghost has_streams = { false };

    fn has_streams() -> bool
        ensures streams { result ≡ false }
    {
        false
    }

    ghost content = { λ text. script_contents text };

    #[tactic(auto, using(crate::proofs::ScriptLemmas::is_file, crate::proofs::ScriptLemmas::is_no_file))]
    fn read(&mut self, alloc: Global, name: &str) -> Result<Vec<u8>, ReadFault>
        ensures whole { IfOk result (λ text. MayBe (content_of (script_file self.old name.now)) text.items) }
        ensures found { IfSome (script_file self.old name.now) (λ _. IfErr result (λ fault. fault ≡ NoMemory)) }
        ensures none { IfNone (script_file self.old name.now) (IsErrAnd result (λ fault. IsTrue (is_unread fault))) }
        ensures unread { IfErr result (λ fault. IsTrue (is_unread fault)
            → MayBeUnread (content_of (script_file self.old name.now))) }
        ensures stays { self.new ≡ self.old }
        ensures noted { IfOk result (λ text. Notes None None (reading name.now text.items ∷ [])) }
        ensures unnoted { IfErr result (λ _. Notes None None []) }
    {
        let Some(text) = self.find(name.as_bytes()) else {
            let obstacle = obstacle_in(self.text, name.as_bytes());
            return Err(ReadFault::NotRead { obstacle });
        };
        Vec::from_slice(alloc, text).map_err(|_| ReadFault::NoMemory)
    }

    fn is_same_file(&self, one: &str, other: &str) -> bool {
        one == other
    }

    fn store(&mut self, _alloc: Global, _name: &str, _text: &[u8]) -> Result<(), StoreFault> {
        Err(StoreFault::InScript)
    }
}
