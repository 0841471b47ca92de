//! Runs a script over the files of a service, and prints what its turns gave. The first argument says how many files there
//! are, at most 10,000, and the second one how often the ten steps stand in the body of the script's loop; without it the
//! service is read and no script is run.
#![tactic(auto)]

mod hosts;
mod script;
mod service;
mod totals;

use hosts::{host_of, totals_of};
use std::{env, io};

/// The most files: a list has no more items.
const MOST_FILES: u32 = 10_000;

/// The most rounds: more would use up the fuel of a script over the most files.
const MOST_ROUNDS: u32 = 9;

fn main(rt: HostRuntime) -> io::Result<()> {
    let mut words = env::args(&rt)?;
    words.next();
    match (
        number(words.next(), MOST_FILES),
        number(words.next(), MOST_ROUNDS),
    ) {
        (Some(files), None) => read(&rt, files),
        (Some(files), Some(rounds)) => run(&rt, files, rounds),
        _ => eprintln!(rt; "usage: bench_run FILES [ROUNDS]"),
    }
}

/// The number that a word is, or the greatest where it is above that.
fn number(word: Option<String>, most: u32) -> Option<u32> {
    match word?.as_str().parse::<u32>() {
        Ok(number) => Some(number.min(most)),
        Err(_) => None,
    }
}

/// Reads the service of so many files, and prints how many objects it has.
fn read<R: AllocGlobal + Print>(rt: &R, files: u32) -> io::Result<()> {
    match host_of(rt.alloc(), files) {
        Ok(host) => {
            let objects = host.table().len();
            println!(rt; "{objects} objects")
        }
        Err(trouble) => println!(rt; "{trouble}"),
    }
}

/// Runs the script of so many rounds over so many files, and prints what it gave.
fn run<R: AllocGlobal + Print>(rt: &R, files: u32, rounds: u32) -> io::Result<()> {
    match totals_of(rt.alloc(), files, rounds) {
        Ok(totals) => println!(rt; "{totals}"),
        Err(trouble) => println!(rt; "{trouble}"),
    }
}
