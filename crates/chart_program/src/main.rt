// The chart program: a chart text from standard input or a file; the wheat chart's output, or the refusal's line, to
// standard output. Called with a file it also says on standard error why a text is refused. Where standard error can't
// be written, the exit status alone is left to say it.

#![tactic(auto)]

mod command_line;

use std::alloc::Global;
use std::env::{Env, FillError};
use std::io::Read;
use std::process::ExitCode;
use std::{env, fs, io};
use text_stream::{Charted, StreamError};

// As which the program is handed out.
pub(crate) const NAME: &str = "grain-chart";

pub(crate) const VERSION: &str = "0.9.1";

// What the exit status says where a file is named, besides 0, charted, and 2, the command line.
const REFUSED: u8 = 1;

const FAILED: u8 = 3;

// The one that it is where none is named: a filter tells a refused text by what it prints.
const FILTER_FAILED: u8 = 1;

// Charts what an input holds, by its name: what was charted, or nothing and why on standard error.
fn chart<R: Read>(rt: &HostRuntime, alloc: Global, input: &mut R, name: &str) -> Option<Charted> {
    match text_stream::chart(alloc, input, &mut rt.stdout()) {
        Ok(charted) => Some(charted),
        Err(StreamError::NotRead(error)) => {
            let _said = eprintln!(rt; "{NAME}: {name} could not be read: {error}");
            None
        }
        Err(StreamError::NotWritten(error)) => {
            let _said = eprintln!(rt; "{NAME}: the output could not be written: {error}");
            None
        }
    }
}

fn filter(rt: &HostRuntime, alloc: Global) -> u8 {
    match chart(rt, alloc, &mut rt.stdin(), "standard input") {
        Some(_) => 0,
        None => FILTER_FAILED,
    }
}

// Says why a text is refused: the status.
fn tell(rt: &HostRuntime, alloc: Global, name: &str, charted: &Charted) -> io::Result<u8> {
    let Some(refused) = charted.refused else {
        return Ok(0);
    };
    let sentence = text_fault::sentence(alloc, &charted.text, refused)?;
    let _said = eprintln!(rt; "{NAME}: {name}: {sentence}");
    Ok(REFUSED)
}

fn chart_named<R: Read>(
    rt: &HostRuntime,
    alloc: Global,
    input: &mut R,
    name: &str,
) -> io::Result<u8> {
    match chart(rt, alloc, input, name) {
        Some(charted) => tell(rt, alloc, name, &charted),
        None => Ok(FAILED),
    }
}

fn chart_file(rt: &HostRuntime, alloc: Global, file: &str) -> io::Result<u8> {
    if file == "-" {
        return chart_named(rt, alloc, &mut rt.stdin(), "standard input");
    }
    match fs::open(rt, file) {
        Ok(mut input) => chart_named(rt, alloc, &mut input, file),
        Err(error) => {
            let _said = eprintln!(rt; "{NAME}: {file} could not be opened: {error}");
            Ok(FAILED)
        }
    }
}

// Whether the program was called without arguments; its own name is not looked at.
fn is_filter(rt: &HostRuntime) -> bool {
    matches!(rt.arg(1, &mut []), Err(FillError::NotPresent))
}

fn run(rt: &HostRuntime) -> io::Result<u8> {
    let alloc = rt.alloc();
    // a filter charts whatever it is called, also by a name that is not UTF-8
    if is_filter(rt) {
        return Ok(filter(rt, alloc));
    }
    let words: Vec<String> = env::args(rt)?.collect(alloc)?;
    let command = command_line::grain_chart(alloc)?;
    match command.try_get_matches_from(words.as_slice()) {
        Ok(matches) => match matches.get_str("file") {
            Some(file) => chart_file(rt, alloc, file),
            None => Ok(filter(rt, alloc)),
        },
        Err(error) => {
            error.print(rt)?;
            Ok(error.exit_code() as u8)
        }
    }
}

fn main(rt: HostRuntime) -> ExitCode {
    ExitCode::from(match run(&rt) {
        Ok(status) => status,
        Err(error) => {
            let _said = eprintln!(rt; "{NAME}: {error}");
            FAILED
        }
    })
}
