//! The program of the mass memory: it gives the commands their words, and the files and writers of the system.
#![tactic(auto)]

mod progress_line;

use crate::progress_line::ProgressLine;
use mm_commands::{
    Device, SystemFiles, UntilClosed, read_to_end, refuse_input, refuse_words,
    run_script_with_progress, run_tool_with_progress,
};
use std::io::{self, IsTerminal, Write};
use std::process::ExitCode;

const WAITING: &str = "mm_tool: waiting for a script; `mm_tool --help` lists the commands";

// The words of the command line.
fn words_of(rt: &HostRuntime) -> io::Result<Vec<String>> {
    Ok(std::env::args(rt)?.skip(1).collect(rt.alloc())?)
}

/// Runs the program on its words, or where it has none on the script that standard input holds.
fn main(rt: HostRuntime) -> ExitCode {
    let alloc = rt.alloc();
    let (mut out, mut err) = (UntilClosed::new(rt.stdout()), rt.stderr());
    let words = match words_of(&rt) {
        Ok(words) => words,
        Err(error) => return ExitCode::from(refuse_words(&error, &mut err)),
    };
    let mut progress = ProgressLine::new(&rt, rt.stderr());
    let status = if words.is_empty() {
        let reader = rt.reader();
        if reader.is_terminal() {
            let _told = writeln!(err, "{WAITING}");
        }
        match read_to_end(alloc, &mut Device::new(reader)) {
            Ok(script) => run_script_with_progress(
                &rt,
                alloc,
                &script,
                &mut out,
                &mut err,
                &mut progress,
            ),
            Err(fault) => refuse_input(fault, &mut out, &mut err),
        }
    } else {
        let mut files = SystemFiles::new(alloc, &rt, Device::new(rt.reader()));
        run_tool_with_progress(
            &rt,
            alloc,
            &words,
            &mut files,
            &mut out,
            &mut err,
            &mut progress,
        )
    };
    ExitCode::from(status)
}
