//! The program `inspect`. Its words name what it runs; the lines of a script come on standard input, what they print goes
//! to standard output, and how the run ended is told on standard error and by the exit status.
#![tactic(auto)]

use front_mirror::Panel;
use inspect_replay::{Status, exit_code, inspect, status_line};
use panels::{CountsPanel, OutlinePanel, WatchPanel};
use pipe_frames::{MemLink, StdSink, StdSource};
use std::alloc::AllocError;
use std::process::ExitCode;
use std::{env, io};

/// The serial of the node that a panel watches.
const WATCHED: u64 = 2;

fn main(rt: HostRuntime) -> ExitCode {
    let status = run(&rt);
    if let Ok(line) = status_line(rt.alloc(), &status)
        && !line.is_empty()
    {
        let _told = eprintln!(rt; "{line}");
    }
    ExitCode::from(exit_code(&status))
}

/// Runs what the words name. Words that are not UTF-8 name nothing.
fn run(rt: &HostRuntime) -> Status {
    let words = match words_after_name(rt) {
        Ok(words) => words,
        Err(error) if error.kind() == io::ErrorKind::OutOfMemory => return Status::Memory,
        Err(_) => return Status::Usage,
    };
    match run_words(rt, &words) {
        Ok(status) => status,
        Err(AllocError) => Status::Memory,
    }
}

/// Runs what the words name, with three panels: the outline, the counts, and a watch on one node.
fn run_words(rt: &HostRuntime, words: &[String]) -> Result<Status, AllocError> {
    let alloc = rt.alloc();
    let mut panels: Vec<Box<dyn Panel>> = Vec::new(alloc);
    panels.push(Box::new(alloc, OutlinePanel::new(alloc))?)?;
    panels.push(Box::new(alloc, CountsPanel::new(alloc))?)?;
    panels.push(Box::new(alloc, WatchPanel::new(alloc, WATCHED))?)?;
    let mut source = StdSource::new(rt.reader());
    let mut sink = StdSink::new(io::writer(rt));
    let mut link = MemLink::new(alloc, Vec::new(alloc));
    Ok(inspect(alloc, words, &mut source, &mut sink, &mut link, panels))
}

/// The program's words after its name.
fn words_after_name(rt: &HostRuntime) -> io::Result<Vec<String>> {
    Ok(env::args(rt)?.skip(1).collect(rt.alloc())?)
}
