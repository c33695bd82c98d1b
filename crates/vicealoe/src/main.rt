//! The linker as a program: it hands the words of its command line, the files of the system, standard output
//! and the means to start threads to the library, and ends with the status that this answers. Where the words
//! cannot be had, it ends with status 7, or with 3 where that is for want of memory. It writes nothing to standard
//! error.
#![tactic(auto)]

use link_files::{HostFiles, HostSink, OpenGate};
use linker_program::run;
use std::process::ExitCode;
use std::rt::Env;
use std::{env, io};

/// The status for want of memory.
const OUT_OF_MEMORY: u8 = 3;

/// The status for words that cannot be had, as one that is no UTF-8.
const NO_WORDS: u8 = 7;

fn main(rt: HostRuntime) -> ExitCode {
    let status = match words_of(&rt) {
        Ok(words) => {
            let mut files = HostFiles::new(&rt);
            let mut out = HostSink::new(io::writer(&rt));
            run(&rt, rt.alloc(), &mut files, &mut out, &OpenGate, &words)
        }
        Err(error) => status_without_words(&error),
    };
    ExitCode::from(status)
}

/// The words behind the program's own name.
fn words_of<R: Env + AllocGlobal>(rt: &R) -> io::Result<Vec<String>> {
    let mut words = Vec::new(rt.alloc());
    for word in env::args(rt)?.skip(1) {
        words.push(word)?;
    }
    Ok(words)
}

fn status_without_words(error: &io::Error) -> u8 {
    match error.kind() {
        io::ErrorKind::OutOfMemory => OUT_OF_MEMORY,
        _ => NO_WORDS,
    }
}
