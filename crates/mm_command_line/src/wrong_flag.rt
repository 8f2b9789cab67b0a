//! What is wrong with a flag that is not read.

use crate::options::{
    FORECAST, IN_ORDER, KEEP, Next, OUTPUT, PLAN, REST, SETUP, TIMELINE, WORTH, is_file_name,
};
use std::convert::AsStr;
use std::{fmt, mem};

/// The most characters in which a word may differ from a flag that is told as near, after what both begin with and what
/// both end with. It is at most half of the flag's letters, too.
const NEAR: usize = 3;

// A flag, and what is said of it where it is meant.
type Flag = (&'static str, &'static str);

static FLAGS: [Flag; 11] = [
    (IN_ORDER, "goes with plan and fly"),
    (WORTH, "goes with chart"),
    (REST, "goes with run"),
    (
        OUTPUT,
        "goes with plan, chart, table, rest, sensitivity and mission, and has the name of a file after it",
    ),
    ("--help", "stands alone or after a command"),
    ("--version", "stands alone"),
    (
        KEEP,
        "goes with plan, and has the file of a plan and a step of it after it",
    ),
    (SETUP, "goes with mission"),
    (FORECAST, "goes with mission"),
    (PLAN, "goes with mission"),
    (TIMELINE, "goes with mission"),
];

/// What is wrong with a flag. It is shown in one line.
#[derive(Clone, Copy)]
pub enum FlagFault<'a> {
    /// The flag stands before the command.
    Early(&'static str),
    /// The flag stands after `--`, where each word is the name of a file.
    Late(&'static str),
    /// The flag goes with these commands, and with no other.
    OfOthers {
        flag: &'static str,
        commands: &'static str,
    },
    /// The flag has a value.
    HasValue(&'static str),
    /// The name of an output is missing, or is spelled like a flag.
    Nameless,
    /// The plan or the step of `--keep` is missing, or is spelled like a flag.
    KeepsNothing,
    /// The flag stands beside another one that it does not go with.
    Beside {
        flag: &'static str,
        other: &'static str,
    },
    /// The flag is there already.
    Twice(&'static str),
    /// The flag stands beside other words.
    NotAlone(&'static str),
    /// There is no such flag, but this one, of which this is said, is spelled alike.
    Unknown {
        word: &'a str,
        near: &'static str,
        place: &'static str,
    },
    /// There is no such flag.
    NoSuchFlag(&'a str),
}

impl fmt::Display for FlagFault<'_> {
    fn fmt<W: fmt::Write>(&self, f: &mut fmt::Formatter<W>) -> fmt::Result {
        match *self {
            FlagFault::Early(flag) => write!(f, "{flag} stands after the command"),
            FlagFault::Late(flag) =>
                write! { f, "{flag} stands before --, after which each word is the name of a file" },
            FlagFault::OfOthers { flag, commands } =>
                write! { f, "{flag} goes with {commands} alone" },
            FlagFault::HasValue(flag) => write!(f, "{flag} takes no value; give it alone"),
            FlagFault::Nameless => write! {
                f, "the name of a file is missing: write --output FILE, or --output=FILE; if the name begins with -, \
                    write ./ before it"
            },
            FlagFault::KeepsNothing => f.write_str(
                "a plan or a step is missing: write --keep PLAN STEP; if the name of the plan begins with -, write ./ \
                    before it",
            ),
            FlagFault::Beside { flag, other } =>
                write! { f, "{flag} does not go with {other}; give one of them" },
            FlagFault::Twice(flag) => write!(f, "{flag} is given twice; give it once"),
            FlagFault::NotAlone(flag) => write!(f, "{flag} stands alone"),
            FlagFault::Unknown { word, near, place } =>
                write! { f, "there is no flag '{word}'; did you mean {near}, which {place}?" },
            FlagFault::NoSuchFlag(word) => write! {
                f, "there is no flag '{word}', and none is spelled alike; there are --in-order of plan and fly, \
                    --keep PLAN STEP of plan, --worth of chart, --rest of run, --setup, --forecast, --plan and --timeline \
                    of mission, --output FILE of plan, chart, table, rest, sensitivity and mission, and --help"
            },
        }
    }
}

// How many characters two words both begin with.
fn same_front(one: &[u8], other: &[u8]) -> usize {
    one.iter()
        .zip(other.iter())
        .take_while(|(a, b)| a == b)
        .count()
}

// How many characters two words both end with.
fn same_end(one: &[u8], other: &[u8]) -> usize {
    one.iter()
        .rev()
        .zip(other.iter().rev())
        .take_while(|(a, b)| a == b)
        .count()
}

// In how many characters a word differs from a flag: those of the longer one without the beginning and the end that
// both share.
fn distance(word: &[u8], flag: &[u8]) -> usize {
    let (front, end) = (same_front(word, flag), same_end(word, flag));
    let longer = word.len().max(flag.len());
    longer.saturating_sub(front).saturating_sub(end)
}

// A word up to the first `=`, and the value after it.
fn parts_of(word: &str) -> (&str, Option<&str>) {
    match word.split_once('=') {
        Some((name, value)) => (name, Some(value)),
        None => (word, None),
    }
}

// An option of tasks: its flag, the commands that it goes with, and how these are told.
type TaskOption = (&'static str, &'static [&'static str], &'static str);

static OPTIONS: [TaskOption; 9] = [
    (IN_ORDER, &["plan", "fly"], "plan and fly"),
    (KEEP, &["plan"], "plan"),
    (WORTH, &["chart"], "chart"),
    (REST, &["run"], "run"),
    (SETUP, &["mission"], "mission"),
    (FORECAST, &["mission"], "mission"),
    (PLAN, &["mission"], "mission"),
    (TIMELINE, &["mission"], "mission"),
    (
        OUTPUT,
        &["plan", "chart", "table", "rest", "sensitivity", "mission"],
        "plan, chart, table, rest, sensitivity and mission",
    ),
];

// The option that a word is, and its value.
fn option_in(word: &str) -> Option<(TaskOption, Option<&str>)> {
    let (name, value) = parts_of(word);
    let option = OPTIONS.iter().find(|option| option.0 == name)?;
    Some((*option, value))
}

// Whether a word is a dash and the first letters of a flag.
fn is_short(word: &str, flag: &str) -> bool {
    match (word.strip_prefix('-'), flag.strip_prefix("--")) {
        (Some(letters), Some(name)) => !letters.is_empty() && name.starts_with(letters),
        _ => false,
    }
}

// What is said of a word that is spelled nearly as a flag, or is short for one: the first of those that are nearest.
fn nearest(word: &str) -> Option<FlagFault<'_>> {
    let (name, _) = parts_of(word);
    let is_output = word.starts_with("-o");
    let mut least = NEAR + 1;
    let mut fault = None;
    for (near, place) in FLAGS {
        let is_meant = is_short(name, near) || (is_output && near == OUTPUT);
        let distance = if is_meant {
            0
        } else {
            distance(name.as_bytes(), near.as_bytes())
        };
        if distance < least && distance <= near.len().saturating_sub(2) / 2 {
            least = distance;
            fault = Some(FlagFault::Unknown { word, near, place });
        }
    }
    fault
}

// What is wrong with a word that is no option of a task. Of one with a single dash that is near no flag `clap` says it.
fn no_option(word: &str) -> Option<FlagFault<'_>> {
    match word {
        "--help" | "-h" => None,
        "--version" | "-V" => Some(FlagFault::NotAlone("--version")),
        _ if is_file_name(word) => None,
        _ if word.starts_with("--") => nearest(word).or(Some(FlagFault::NoSuchFlag(word))),
        _ => nearest(word),
    }
}

// How far the words are read.
#[derive(Drop)]
struct Read<'a> {
    command: &'a str,
    // The flag of the command that is given, if one is, and whether an output is.
    flag: Option<&'static str>,
    has_output: bool,
    next: Next,
}

impl Read<'_> {
    // Notes an option of the command, and says what is wrong with it beside the earlier ones.
    fn note(&mut self, flag: &'static str) -> Option<FlagFault<'static>> {
        if flag == OUTPUT {
            return mem::replace(&mut self.has_output, true).then_some(FlagFault::Twice(flag));
        }
        match mem::replace(&mut self.flag, Some(flag)) {
            Some(other) if other == flag => Some(FlagFault::Twice(flag)),
            Some(other) => Some(FlagFault::Beside { flag, other }),
            None => None,
        }
    }

    // Takes a word that an option has after it, and says whether it is spelled like a flag.
    fn take(
        &mut self,
        word: &str,
        next: Next,
        fault: FlagFault<'static>,
    ) -> Option<FlagFault<'static>> {
        self.next = next;
        (!is_file_name(word)).then_some(fault)
    }

    // What is wrong with an option.
    fn option_fault(
        &mut self,
        (flag, commands, told): TaskOption,
        value: Option<&str>,
    ) -> Option<FlagFault<'static>> {
        if !commands.contains(&self.command) {
            let commands = told;
            return Some(FlagFault::OfOthers { flag, commands });
        }
        if let Some(fault) = self.note(flag) {
            return Some(fault);
        }
        match value {
            Some(_) if flag == KEEP => Some(FlagFault::KeepsNothing),
            Some(_) if flag != OUTPUT => Some(FlagFault::HasValue(flag)),
            Some(name) if !is_file_name(name) => Some(FlagFault::Nameless),
            None if flag == OUTPUT => {
                self.next = Next::Output;
                None
            }
            None if flag == KEEP => {
                self.next = Next::KeptPlan;
                None
            }
            _ => None,
        }
    }

    // What is wrong with the next word.
    fn fault<'w>(&mut self, word: &'w str) -> Option<FlagFault<'w>> {
        match self.next {
            Next::File => {
                let ((flag, ..), _) = option_in(word)?;
                Some(FlagFault::Late(flag))
            }
            Next::Output => self.take(word, Next::Any, FlagFault::Nameless),
            Next::KeptPlan => self.take(word, Next::KeptStep, FlagFault::KeepsNothing),
            Next::KeptStep => self.take(word, Next::Any, FlagFault::KeepsNothing),
            _ if word == "--" => {
                self.next = Next::File;
                None
            }
            _ => match option_in(word) {
                Some((option, value)) => self.option_fault(option, value),
                None => no_option(word),
            },
        }
    }
}

/// What is wrong with the first flag among these words that is not read: it stands where none is read, is another
/// command's, is given twice, lacks its value or has one that it cannot have, or there is none that is spelled like it.
pub fn flag_fault<S: AsStr>(words: &[S]) -> Option<FlagFault<'_>> {
    let command = words.first()?.as_str();
    if let Some(((flag, ..), _)) = option_in(command) {
        return Some(FlagFault::Early(flag));
    }
    let mut read = Read {
        command,
        flag: None,
        has_output: false,
        next: Next::Any,
    };
    for word in words {
        if let Some(fault) = read.fault(word.as_str()) {
            return Some(fault);
        }
    }
    match read.next {
        Next::Output => Some(FlagFault::Nameless),
        Next::KeptPlan | Next::KeptStep => Some(FlagFault::KeepsNothing),
        _ => None,
    }
}
