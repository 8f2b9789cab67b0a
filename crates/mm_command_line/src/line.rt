//! The words of a command line, read as a task.
ghost use Rattle.std.specs.Prelude.{◌≡◌, ◌⊎◌, IfErr, IfOk, IfNone, IfSome, Some};
ghost use Rattle.std.specs.Prelude.{map, option_map};
ghost use Rattle.std.specs.List.{All};
ghost use Rattle.clap.specs.Words.{found_of, kind_of, rows_of, subcommand_rows_of};
ghost use Rattle.clap.specs.declared.error.kind.ErrorKind.TheVariants.{OutOfMemory};
ghost use Rattle.mm_command_line.specs.Commands.{entry_of, line_found, row_found, words_found};
ghost use Rattle.mm_command_line.specs.Lines.{ArePlain, HasOptions, IsCommandLine, IsFileName, IsTaskLine, Spells};
ghost use Rattle.mm_command_line.specs.Lines.{command_words, parts_in};

use crate::command::{Form, form_of, tool_command};
use crate::commands::COMMANDS;
use crate::options::{Line, Next, is_file_name, read_line};
use crate::task::{FlightFiles, FlightPlan, KeptSteps, MissionPart, PlanFiles, Task};
use clap::error::ErrorKind;
use clap::{ArgMatches, Command, Error};
use std::alloc::{AllocError, Global};
use std::convert::AsStr;

// The task of these words: for each command the words of a line, and what they ask for.
macro_rules! task_by {
    ($words:expr; $($line:pat => $task:expr;)+) => {
        match $words {
            $($line => Some($task),)+
            _ => None,
        }
    };
}

// The task that the words of a command ask for, without its flag and its output.
fn task_of<'a>(words: &[&'a str]) -> Option<Task<'a>>
    ensures spelled { IfSome result (λ task. command_words task ≡ map (λ word. word.now) words.now) }
    ensures none { IfNone result ((task : Task) → command_words task ≡ map (λ word. word.now) words.now → ⊥) }
{
    task_by! {
        *words;
        ["plan", setup, forecast] => Task::Plan { setup, forecast, in_order: false, output: None };
        ["check", setup, forecast, plan] => Task::Check(PlanFiles { setup, forecast, plan });
        ["chart", setup, forecast, plan] =>
            Task::Chart { files: PlanFiles { setup, forecast, plan }, worth: false, output: None };
        ["table", setup, forecast, plan] => Task::Table { files: PlanFiles { setup, forecast, plan }, output: None };
        ["rest", setup, forecast, plan, last] =>
            Task::Rest { kept: KeptSteps { files: PlanFiles { setup, forecast, plan }, last }, output: None };
        ["sensitivity", setup, forecast] => Task::Sensitivity { setup, forecast, output: None };
        ["run", setup, forecast, plan, sources, links] =>
            Task::Fly(FlightFiles { setup, forecast, plan: FlightPlan::Given { name: plan, rest: false },
                sources, links });
        ["fly", setup, forecast, sources, links] =>
            Task::Fly(FlightFiles { setup, forecast, plan: FlightPlan::Made { in_order: false }, sources, links });
        ["ask", setup, requests] => Task::Ask { setup, requests };
        ["read", packets] => Task::Read { packets };
        ["mission", mission] => Task::Mission { mission, part: MissionPart::Sheet, output: None };
    }
}

// The words without the first `--`; none where a flag stands before that.
fn plain_words<'a>(alloc: Global, words: &[&'a str]) -> Result<Option<Vec<&'a str>>, AllocError>
    ensures plain { IfOk result (λ plain. IfSome plain (λ plain. ArePlain (map (λ word. word.now) words.now)
        (map (λ word. word.now) plain.items))) }
    ensures flagged { IfOk result (λ plain. IfNone plain (All IsFileName (map (λ word. word.now) words.now) → ⊥)) }
{
    let mut plain = Vec::new(alloc);
    let mut after_dashes = false;
    for word in words {
        let word = *word;
        if after_dashes {
            plain.push(word)?;
        } else if word == "--" {
            after_dashes = true;
        } else if is_file_name(word) {
            plain.push(word)?;
        } else {
            return Ok(None);
        }
    }
    Ok(Some(plain))
}

// The command that was found, and what was found for its files.
fn command_in<'m, 'a>(matches: &'m ArgMatches<'a>) -> Option<(&'static Form, &'m ArgMatches<'a>)>
    ensures row { option_map (λ row. (entry_of row.0.now, rows_of (found_of row.1.now))) result
        ≡ row_found (subcommand_rows_of matches.now) }
{
    let (word, files) = matches.subcommand()?;
    Some((form_of(&COMMANDS, word)?, files))
}

// The word of a command, and the names that were found for its files, in the order of its row.
fn words_in<'a>(
    alloc: Global,
    form: &Form,
    files: &ArgMatches<'a>,
) -> Result<Vec<&'a str>, AllocError>
    ensures words { IfOk result (λ words. map (λ word. word.now) words.items
        ≡ words_found (entry_of form.now) (rows_of (found_of files.now))) }
{
    let mut words = Vec::new(alloc);
    words.push(form.word)?;
    for file in form.files {
        if let Some(name) = files.get_str(file.name()) {
            words.push(name)?;
        }
    }
    Ok(words)
}

// The task that the matches ask for. They have to have the words that were given, but for the first `--`, and no flag
// stands before that.
fn read_matches<'a>(
    alloc: Global,
    words: &[&'a str],
    matches: &ArgMatches<'_>,
) -> Result<Option<Task<'a>>, AllocError>
    ensures spelled { IfOk result (λ task. IfSome task (λ task. ArePlain (map (λ word. word.now) words.now)
        (command_words task))) }
    ensures none { IfOk result (λ task. IfNone task (IsCommandLine (map (λ word. word.now) words.now)
        → line_found (subcommand_rows_of matches.now) ≡ Some (map (λ word. word.now) words.now) → ⊥)) }
{
    let Some((form, files)) = command_in(matches) else {
        return Ok(None);
    };
    let found = words_in(alloc, form, files)?;
    let Some(given) = plain_words(alloc, words)? else {
        return Ok(None);
    };
    if found == given {
        Ok(task_of(&given))
    } else {
        Ok(None)
    }
}

// The error of words that are no task of the command; it has the text for the user.
fn refusal(command: &mut Command<'_>, kind: ErrorKind, message: &str) -> Error
    ensures kind { (kind_of result ≡ kind) ⊎ (kind_of result ≡ OutOfMemory) }
{
    match command.error(kind, message) {
        Ok(error) => error,
        Err(refused) => Error::from(refused),
    }
}

// What words without options ask for: `clap` reads them. The error has the text for the user.
fn parse_command<'a>(alloc: Global, words: &[&'a str]) -> Result<Task<'a>, Error>
    // Words that spell a command give its task, unless memory runs out.
    ensures memory { IsCommandLine (map (λ word. word.now) words.now)
        → IfErr result (λ e. kind_of e ≡ OutOfMemory) }
    // Whatever the words, a task that is read is spelled by them, without the first `--`. No word before that is a
    // flag, as a call for help is.
    ensures spelled { IfOk result (λ task. ArePlain (map (λ word. word.now) words.now) (command_words task)) }
{
    let mut command = tool_command(alloc)?;
    let matches = command.try_get_matches_from_mut(words)?;
    match read_matches(alloc, words, &matches)? {
        Some(task) => Ok(task),
        None => Err(refusal(
            &mut command,
            ErrorKind::InvalidSubcommand,
            "no such command",
        )),
    }
}

// The task with the options of the line; none where they are not those of its command, or the name of an output is
// missing.
fn with_options<'a>(task: Task<'a>, line: &Line<'a>) -> Option<Task<'a>>
    ensures words { IfSome result (λ read. command_words read ≡ command_words task.entry) }
    ensures options { IfSome result (HasOptions (parts_in line.now)) }
    ensures none { IfNone result ((read : Task) → command_words read ≡ command_words task.entry
        → HasOptions (parts_in line.now) read → ⊥) }
{
    match line.next {
        Next::Output | Next::KeptPlan | Next::KeptStep => None,
        _ => task.with_options(&line.flags, &line.outputs),
    }
}

/// What the words ask for; the error has the text for the user.
pub fn parse<'a, S: AsStr>(alloc: Global, words: &'a [S]) -> Result<Task<'a>, Error>
    // A task that is read is the one that the words spell, whatever they are.
    ensures spelled { IfOk result (Spells (map S.text words.entry.now)) }
    // Words that spell a task give it, unless memory runs out.
    ensures memory { IsTaskLine (map S.text words.entry.now)
        → IfErr result (λ e. kind_of e ≡ OutOfMemory) }
{
    let line = read_line(alloc, words)?;
    let task = parse_command(alloc, &line.command)?;
    match with_options(task, &line) {
        Some(task) => Ok(task),
        None => Err(refusal(
            &mut tool_command(alloc)?,
            ErrorKind::UnknownArgument,
            "these options do not go with this command",
        )),
    }
}
