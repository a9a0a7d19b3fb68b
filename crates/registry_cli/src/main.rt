//! The program `registry`.
//!
//! `registry_program::run_words` is what the words of a command line come to, over any opener of registries
//! and with any ends for standard input, output and error; `stored::run_in_files` is that over databases in
//! files. `databases::Databases` opens these: `specs/Databases.antt` says in which states it finds them, as
//! far as the files return what was written. `main` gives them the ends of the process.
#![tactic(auto)]

mod beginning;
mod contents_file;
mod databases;
mod files;
mod looking;
mod progress;
mod refusal;
mod stored;
mod supposed;

use registry_orders::Failure;
use registry_orders::failure::say;
use sqlite::Unknown;
use std::env;
use std::process::ExitCode;

/// The words behind the program's name; none for want of memory.
fn words(rt: &HostRuntime) -> Option<Vec<String>> {
    env::args(rt).ok()?.skip(1).collect(rt.alloc()).ok()
}

fn main(rt: HostRuntime) -> ExitCode {
    let status = match words(&rt) {
        Some(words) => files::run::<Unknown, Unknown, _, _, _, _>(
            &rt,
            words.as_slice(),
            &mut rt.stdin(),
            &mut rt.stdout(),
            &mut rt.stderr(),
        ),
        None => say(&mut rt.stderr(), Failure::OutOfMemory),
    };
    ExitCode::from(status)
}
