//! What `clap` is told of the commands.
ghost use Rattle.std.specs.Prelude.{◌≡◌, IfOk, false, find, fold, map, option_map};
ghost use Rattle.std.specs.Str.{bytes_eq};
ghost use Rattle.clap.specs.Words.{app_of, rule_of};
ghost use Rattle.mm_command_line.specs.Commands.{IsCommand, bare, file_rule, entry_of, tool, with_command};

use crate::commands::COMMANDS;
use crate::file::File;
use crate::version::VERSION;
use clap::{Arg, Command};
use std::alloc::{AllocError, Global};

/// A command: the word that names it, the words of a whole line, what help says of it, and the files whose names follow
/// the word.
pub(crate) struct Form {
    pub(crate) word: &'static str,
    /// A line of the command with each of its flags, as help shows it.
    pub(crate) usage: &'static str,
    pub(crate) about: &'static str,
    pub(crate) help: &'static str,
    pub(crate) files: &'static [File],
}

const ABOUT: &str =
    "Plans when a spacecraft's packet stores are dumped, checks, draws and carries out such plans, and answers and \
        reads requests of the storage service";

// It stands in the first line of the help.
const BEFORE_HELP: &str =
    "All help goes to standard error; to read it by pages: mm_tool --help 2>&1 | less";

const TOOL_HELP: &str = "\
Without words the program reads a script from standard input: a first line with the words, and then
each file under a line `=== NAME`. With words, a file named - is standard input, for one file at most,
and --output - is standard output. In a script - is a name like any other.

Options stand anywhere after the command, and --output FILE may be written --output=FILE. After the word --
each word is the name of a file, even if it begins with -.

Examples:
  mm_tool plan setup.toml forecast.csv --output plan.txt
  mm_tool plan --in-order setup.toml forecast.csv --output plan.txt
  mm_tool check setup.toml forecast.csv plan.txt
  mm_tool plan setup.toml forecast.csv | mm_tool check setup.toml forecast.csv -
  mm_tool chart setup.toml forecast.csv plan.txt --output chart.svg
  mm_tool chart --worth setup.toml forecast.csv plan.txt --output chart.svg
  mm_tool table setup.toml forecast.csv plan.txt --output table.csv
  mm_tool rest setup.toml forecast.csv plan.txt 2 --output later.txt
  mm_tool sensitivity setup.toml forecast.csv
  mm_tool run setup.toml forecast.csv plan.txt sources.hex links.txt
  mm_tool fly setup.toml forecast.csv sources.hex links.txt
  mm_tool ask setup.toml requests.hex
  mm_tool read packets.hex
  mm_tool mission mission.toml --output sheet.csv
  mm_tool --version           prints the version, and the kit that the program is proved with

Exit status: 0 if the task is done (check: the plan is least; ask and read: nothing is refused); 1 if something is
refused, a run is halted, check finds another verdict, or a write fails; 2 for help or an invalid command line.

Read next: docs/PLANNING.md, a day with two passes; docs/FORMATS.md has every file and printed line.";

// The name of a file, which has to be there.
fn argument<'a>(alloc: Global, name: &'a str, help: &'a str) -> Arg<'a>
    ensures rule { rule_of result ≡ file_rule name.entry.now }
    ensures local { result.global ≡ false }
{
    Arg::new(alloc, name).required(true).help(help)
}

// A command with its files.
fn command_of<'a>(alloc: Global, form: &Form) -> Result<Command<'a>, AllocError>
    ensures is { IfOk result (IsCommand (entry_of form.now)) }
{
    let mut command = Command::new(alloc, form.word)
        .override_usage(form.usage)
        .about(form.about)
        .after_help(form.help);
    for file in form.files {
        command = command.arg(argument(alloc, file.name(), file.help()))?;
    }
    Ok(command)
}

// The program with these commands after those that it has.
fn with_commands<'a>(
    alloc: Global,
    mut tool: Command<'a>,
    forms: &[Form],
) -> Result<Command<'a>, AllocError>
    ensures adds { IfOk result (λ c. app_of c ≡ fold with_command (app_of tool.entry) (map entry_of forms.now)) }
{
    for form in forms {
        tool = tool.subcommand(command_of(alloc, form)?)?;
    }
    Ok(tool)
}

// The program without its commands.
fn bare_command<'a>(alloc: Global) -> Result<Command<'a>, AllocError>
    ensures bare { IfOk result (λ c. app_of c ≡ bare) }
{
    let command = Command::new(alloc, "mm_tool")
        .bin_name("mm_tool")?
        .before_help(BEFORE_HELP)
        .about(ABOUT)
        .version(VERSION)
        .after_help(TOOL_HELP)
        .no_binary_name(true)
        .subcommand_required(true)
        .arg_required_else_help(true);
    Ok(command)
}

/// The program with its commands.
pub(crate) fn tool_command<'a>(alloc: Global) -> Result<Command<'a>, AllocError>
    ensures commands { IfOk result (λ c. app_of c ≡ tool) }
{
    with_commands(alloc, bare_command(alloc)?, &COMMANDS)
}

/// The command of this word.
pub(crate) fn form_of<'f>(forms: &'f [Form], word: &str) -> Option<&'f Form>
    ensures row { option_map (λ form. entry_of form.now) result
        ≡ find (λ entry. bytes_eq entry.0 word.now) (map entry_of forms.now) }
{
    forms.iter().find(|form| form.word == word)
}
