//! The program `xfz`: FlatZinc models of XCSP3-core instances.
//!
//! It stands on all other crates. `run` of `xf_top` does all that the program does, over whatever is read from and
//! written to, and its contract says what it answers and why; `main` hands it the files and streams of the machine.
#![tactic(auto)]

mod host;

use crate::host::{HostShelf, HostSink};
use std::env;
use std::io::{self, Stderr, Stdout};
use std::process::ExitCode;
use xf_text::write_whole;
use xf_top::run;

/// The status where the words could not be taken.
const NO_WORDS: u8 = 8;

/// The status of a failed write.
const NOT_WRITTEN: u8 = 4;

fn main(rt: HostRuntime) -> ExitCode {
    match take_words(&rt) {
        Ok(words) => ExitCode::from(answer(&rt, &words)),
        Err(_) => ExitCode::from(NO_WORDS),
    }
}

// The words behind the program's name.
fn take_words(rt: &HostRuntime) -> io::Result<Vec<String>> {
    let mut words = env::args(rt)?;
    let _ = words.next();
    let rest = words.collect(rt.alloc())?;
    Ok(rest)
}

// Does what the words say, and answers the status.
fn answer(rt: &HostRuntime, words: &[String]) -> u8 {
    let alloc = rt.alloc();
    let mut files = HostShelf::new(rt);
    let out = HostSink::new(alloc, rt.stdout());
    let mut err = HostSink::new(alloc, rt.stderr());
    let (status, out) = run(alloc, words, &mut files, out, &mut err);
    let status = end_output(status, out, &mut err);
    let _ = err.flush();
    status
}

// Whether the status is that of a run that wrote the text that was due.
fn is_for_text(status: u8) -> bool {
    matches!(status, 0 | 1 | 7)
}

// Writes what is left of the output. Where that fails, a status that was due for a text gives way to that of a
// failed write.
fn end_output(status: u8, mut out: HostSink<Stdout>, err: &mut HostSink<Stderr>) -> u8 {
    if out.flush().is_err() && is_for_text(status) {
        let _ = write_whole(err, b"write fault\n");
        return NOT_WRITTEN;
    }
    status
}
