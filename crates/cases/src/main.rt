// Runs recorded cases over the library: `cases FILE` judges each case of a file, `cases show FILE` writes the file with what each step gives
// now. With no file it is standard input. A file is read as it comes and never held whole.
#![tactic(auto)]

mod runner;

use case_stream::output::Output;
use case_stream::source::Source;
use runner::Runner;
use std::env::FillError;
use std::io::Read;
use std::rt::Env;
use std::{fs, io, str};

// A word of the command line that is longer is not read; so long is the longest path.
const WORD: usize = 4096;

// Reads to the end of the input, a turn at a time, and reports every case. The report ends with the tally, unless the input cannot be read to its end.
fn run<R: Read + Drop>(rt: &HostRuntime, input: R, show: bool) -> io::Result<()> {
    let alloc = rt.alloc();
    let mut source = Source::new(alloc, input)?;
    let output = Output::new(alloc, rt.stdout(), rt.stderr(), show);
    let mut runner = Runner::new(alloc, output)?;
    // A loop that runs until its input ends has no measure, so it is a counted one.
    for _ in 0..u64::MAX {
        match source.next_turn() {
            Ok(Some(turn)) => runner.take_turn(turn)?,
            Ok(None) => break,
            Err(error) => {
                runner.give_up()?;
                return fail(rt, "the input cannot be read", error);
            }
        }
    }
    runner.finish()
}

// The system's words for an error, without its number.
fn reason(text: &str) -> &str {
    match text.split_once(" (os error ") {
        Some((reason, _)) => reason,
        None => text,
    }
}

// Writes a line to standard error: what failed, and why.
fn fail(rt: &HostRuntime, what: &str, error: io::Error) -> io::Result<()> {
    let text = format!(in rt.alloc(); "{error}")?;
    eprintln!(rt; "cases: {what}: {}", reason(text.as_str()))
}

// Runs the file of this name, which must be text.
fn run_named(rt: &HostRuntime, path: &[u8], show: bool) -> io::Result<()> {
    let Ok(name) = str::from_utf8(path) else {
        let error = io::Error::from(io::ErrorKind::InvalidFilename);
        return fail(rt, "the file's name", error);
    };
    match fs::open(rt, name) {
        Ok(file) => run(rt, file, show),
        Err(error) => fail(rt, name, error),
    }
}

// An argument is missing or too long: EINVAL and ENAMETOOLONG by their numbers, since the system's words for these errors are what is printed.
fn unread(error: FillError) -> io::Error {
    match error {
        FillError::NotPresent => io::Error::from_raw_os_error(22),
        FillError::TooLong => io::Error::from_raw_os_error(36),
    }
}

// Runs the file that argument i names. Its octets come into a buffer: where one argument is no text, `env::args` gives none at all.
fn run_file(rt: &HostRuntime, i: usize, show: bool) -> io::Result<()> {
    let mut word = [0u8; WORD];
    match rt.arg(i, &mut word) {
        Ok(length) => run_named(rt, &word[..length], show),
        Err(error) => fail(rt, "the file's name", unread(error)),
    }
}

// Whether the first argument is `show`, in a buffer of its length: a longer one does not fit.
fn is_show(rt: &impl Env) -> bool {
    let mut word = [0u8; 4];
    matches!(rt.arg(1, &mut word), Ok(4)) && word == *b"show"
}

// Whether there is an argument i.
fn has_argument(rt: &impl Env, i: usize) -> bool {
    !matches!(rt.arg(i, &mut []), Err(FillError::NotPresent))
}

fn main(rt: HostRuntime) -> io::Result<()> {
    let show = is_show(&rt);
    let file = if show { 2 } else { 1 };
    if !has_argument(&rt, file) {
        run(&rt, rt.reader(), show)
    } else if has_argument(&rt, file + 1) {
        eprintln!(rt; "usage: cases [show] [FILE]")
    } else {
        run_file(&rt, file, show)
    }
}
