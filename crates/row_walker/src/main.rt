//! Worked examples of the whole linker. The program reads rows from standard input: files, arguments, and what is
//! expected of the runs. It takes each row to `linker_program::run` over files in memory, and prints a line for each: its
//! title and `ok`, or the line of the input that was not met, with what was expected and what came. Its contracts promise
//! that it ends, and that most of what a row can expect passes only where it came (`Meets`). It serves no other crate;
//! `stdin` begins with the form of a row.
#![tactic(auto)]

mod checks;
mod error;
mod line;
mod row;
mod rows;
mod run_row;
mod stage;

use row::Row;
use std::alloc::AllocError;
use std::io;
use std::process::ExitCode;
use std::thread::Threads;

/// The status where a row is not right, or the input could not be read.
const FAILED: u8 = 1;

/// The status for want of memory.
const OUT_OF_MEMORY: u8 = 3;

fn main(rt: HostRuntime) -> ExitCode {
    match walk_input(&rt) {
        Ok(true) => ExitCode::SUCCESS,
        Ok(false) => ExitCode::from(FAILED),
        Err(error) => ExitCode::from(status_of(&rt, &error)),
    }
}

/// Says why the rows were not walked, and gives the status.
fn status_of(rt: &impl Print, error: &io::Error) -> u8 {
    if error.kind() == io::ErrorKind::OutOfMemory {
        let _ = println!(rt; "out of memory");
        return OUT_OF_MEMORY;
    }
    let _ = println!(rt; "the rows could not be read or printed");
    FAILED
}

/// Walks the rows of standard input, and says whether all are right.
fn walk_input<R: Input + Print + AllocGlobal + Threads + Sync>(rt: &R) -> io::Result<bool> {
    let text = io::read_to_string(rt.alloc(), rt.reader())?;
    let rows = match rows::rows_of(rt.alloc(), text.as_str()) {
        Ok(rows) => rows,
        Err(AllocError) => return Err(io::Error::from(AllocError)),
    };
    let count = rows.len();
    let mut all_right = true;
    for row in rows {
        all_right = walk_row(rt, row)? && all_right;
    }
    println!(rt; "{count} rows")?;
    Ok(all_right)
}

/// Runs a row, prints its line, and says whether it is right.
fn walk_row<R: Print + AllocGlobal + Threads + Sync>(rt: &R, row: Row) -> io::Result<bool> {
    let title = row.title.clone()?;
    let (is_right, text) = match run_row::run_row(rt, rt.alloc(), row) {
        Ok(()) => (true, String::from_str(rt.alloc(), "ok")?),
        Err(failed) => (false, failed.text(rt.alloc())?),
    };
    println!(rt; "{title}: {text}")?;
    Ok(is_right)
}
