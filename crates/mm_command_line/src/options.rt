//! The words of a line by what they are: those of its command, its flags, and the names of its outputs.
ghost use Rattle.std.specs.Prelude.{◌≡◌, ◌↔◌, ℕ, Bool, List, [], ◌∷◌, Option, IfOk, IfSome, IfNone, IsTrue};
ghost use Rattle.std.specs.Prelude.{map, option_map};
ghost use Rattle.std.specs.Borrow.{Bor};
ghost use Rattle.mm_command_line.specs.Lines.{IsFileName, IsOutput, flags_if, is_part_flag, is_task_flag, joined_name, keep_words};
ghost use Rattle.mm_command_line.specs.Lines.{no_parts, part_flags, parts_in, parts_of, read_word, with_option};
ghost use Rattle.mm_command_line.specs.declared.task.MissionPart.{MissionPart};

use crate::task::MissionPart;
use std::alloc::{AllocError, Global};
use std::convert::AsStr;

/// The word before the name of an output.
pub(crate) const OUTPUT: &str = "--output";

/// What a word with the name of an output begins with.
pub(crate) const OUTPUT_IS: &str = "--output=";

/// The flag of `plan` and `fly`: the stores are served in the setup's order.
pub(crate) const IN_ORDER: &str = "--in-order";

/// The flag of `chart`: the chart says what each window is worth.
pub(crate) const WORTH: &str = "--worth";

/// The flag of `run`: where a link halts the run, the script that plans the rest comes before the report.
pub(crate) const REST: &str = "--rest";

/// The flag of `plan` before the file of a plan and the last of its steps that is kept.
pub(crate) const KEEP: &str = "--keep";

/// The flag of `mission`: the setup is printed.
pub(crate) const SETUP: &str = "--setup";

/// The flag of `mission`: the forecast is printed.
pub(crate) const FORECAST: &str = "--forecast";

/// The flag of `mission`: the plan text is printed.
pub(crate) const PLAN: &str = "--plan";

/// The flag of `mission`: the timeline is printed.
pub(crate) const TIMELINE: &str = "--timeline";

/// What the next word of a line may be.
#[derive(Clone, Copy)]
pub(crate) enum Next {
    /// The command, and no option.
    Command,
    /// The name of a file, an option, or `--`.
    Any,
    /// The name of an output.
    Output,
    /// The file of the plan whose first steps are kept.
    KeptPlan,
    /// The last of these steps.
    KeptStep,
    /// The name of a file, which may be spelled like an option.
    File,
}

/// The words of a line by what they are.
#[derive(Drop)]
pub(crate) struct Line<'a> {
    /// The command and the names of its files, with the first `--`.
    pub(crate) command: Vec<&'a str>,
    /// Its flags, and the words that follow one of them.
    pub(crate) flags: Vec<&'a str>,
    /// The names of its outputs.
    pub(crate) outputs: Vec<&'a str>,
    pub(crate) next: Next,
}

/// Whether a word is no flag.
pub(crate) fn is_file_name(word: &str) -> bool
    ensures is { IsTrue result ↔ IsFileName word.now }
{
    !word.starts_with('-') || word == "-"
}

fn is_part_flag(word: &str) -> bool
    ensures { result ≡ is_part_flag word.now }
{
    word == SETUP || word == FORECAST || word == PLAN || word == TIMELINE
}

fn is_task_flag(word: &str) -> bool
    ensures { result ≡ is_task_flag word.now }
{
    word == IN_ORDER || word == WORTH || word == REST || is_part_flag(word)
}

// The name in a word `--output=NAME`.
fn joined_name(word: &str) -> Option<&str>
    ensures { option_map (λ name. name.now) result ≡ joined_name word.now }
{
    word.strip_prefix(OUTPUT_IS)
}

impl<'a> Line<'a> {
    // The line before its first word.
    fn new(alloc: Global) -> Line<'a>
        ensures { parts_in result ≡ no_parts }
    {
        Line {
            command: Vec::new(alloc),
            flags: Vec::new(alloc),
            outputs: Vec::new(alloc),
            next: Next::Command,
        }
    }

    // Reads a word that may be an option.
    fn read_option(&mut self, word: &'a str) -> Result<(), AllocError>
        ensures read { IfOk result (λ _. parts_in self.new ≡ with_option (parts_in self.old) word.entry.now) }
    {
        if is_task_flag(word) {
            self.flags.push(word)?;
        } else if word == KEEP {
            self.next = Next::KeptPlan;
            self.flags.push(word)?;
        } else if word == OUTPUT {
            self.next = Next::Output;
        } else if let Some(name) = joined_name(word) {
            self.outputs.push(name)?;
        } else {
            self.command.push(word)?;
        }
        Ok(())
    }

    // Reads the next word.
    fn read(&mut self, word: &'a str) -> Result<(), AllocError>
        ensures read { IfOk result (λ _. parts_in self.new ≡ read_word (parts_in self.old) word.entry.now) }
    {
        match self.next {
            Next::Output => {
                self.next = Next::Any;
                self.outputs.push(word)?;
            }
            Next::KeptPlan => {
                self.next = Next::KeptStep;
                self.flags.push(word)?;
            }
            Next::KeptStep => {
                self.next = Next::Any;
                self.flags.push(word)?;
            }
            Next::File => self.command.push(word)?,
            _ if word == "--" => {
                self.next = Next::File;
                self.command.push(word)?;
            }
            Next::Command => {
                self.next = Next::Any;
                self.command.push(word)?;
            }
            Next::Any => self.read_option(word)?,
        }
        Ok(())
    }
}

/// Tells the words of a line apart.
pub(crate) fn read_line<'a, S: AsStr>(alloc: Global, words: &'a [S]) -> Result<Line<'a>, AllocError>
    ensures parts { IfOk result (λ line. parts_in line ≡ parts_of (map S.text words.entry.now)) }
{
    let mut line = Line::new(alloc);
    for word in words {
        line.read(word.as_str())?;
    }
    Ok(line)
}

/// The output of these names; none where there are two, or the name is spelled like a flag.
pub(crate) fn output_in<'a>(names: &[&'a str]) -> Option<Option<&'a str>>
    ensures given { IfSome result (IsOutput (map (λ name. name.now) names.now)) }
    ensures none { IfNone result ((output : Option (Bor (List ℕ)))
        → IsOutput (map (λ name. name.now) names.now) output → ⊥) }
{
    match *names {
        [] => Some(None),
        [name] if is_file_name(name) => Some(Some(name)),
        _ => None,
    }
}

/// Whether this flag is given; none where another one is, or it is given twice.
pub(crate) fn is_given(flags: &[&str], flag: &str) -> Option<bool>
    ensures given { IfSome result (λ is. map (λ flag. flag.now) flags.now ≡ flags_if is flag.now) }
    ensures none { IfNone result ((is : Bool) → map (λ flag. flag.now) flags.now ≡ flags_if is flag.now → ⊥) }
{
    match *flags {
        [] => Some(false),
        [given] if given == flag => Some(true),
        _ => None,
    }
}

/// The plan and the step of these flags; none where they are others, or a word after the flag is spelled like one.
pub(crate) fn kept_in<'a>(flags: &[&'a str]) -> Option<(&'a str, &'a str)>
    ensures given { IfSome result (λ kept. map (λ flag. flag.now) flags.now ≡ keep_words kept.0.now kept.1.now) }
    ensures names { IfSome result (λ kept. IsFileName kept.0.now × IsFileName kept.1.now) }
    ensures none { IfNone result ((plan last : List ℕ) → map (λ flag. flag.now) flags.now ≡ keep_words plan last
        → IsFileName plan → IsFileName last → ⊥) }
{
    match *flags {
        [flag, plan, last] if flag == KEEP && is_file_name(plan) && is_file_name(last) => {
            Some((plan, last))
        }
        _ => None,
    }
}

// The part of a planned mission with this flag.
fn part_of(flag: &str) -> Option<MissionPart>
    ensures given { IfSome result (λ part. part_flags part ≡ flag.now ∷ []) }
    ensures none { IfNone result ((part : MissionPart) → part_flags part ≡ flag.now ∷ [] → ⊥) }
{
    match flag {
        SETUP => Some(MissionPart::Setup),
        FORECAST => Some(MissionPart::Forecast),
        PLAN => Some(MissionPart::Plan),
        TIMELINE => Some(MissionPart::Timeline),
        _ => None,
    }
}

/// The part of a planned mission that these flags ask for; none where they are others, or two are given.
pub(crate) fn part_in(flags: &[&str]) -> Option<MissionPart>
    ensures given { IfSome result (λ part. map (λ flag. flag.now) flags.now ≡ part_flags part) }
    ensures none { IfNone result ((part : MissionPart) → map (λ flag. flag.now) flags.now ≡ part_flags part → ⊥) }
{
    match *flags {
        [] => Some(MissionPart::Sheet),
        [flag] => part_of(flag),
        _ => None,
    }
}
