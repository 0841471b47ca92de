//! Plays the requests of many sessions by hubs, and prints how much came out. The arguments say how many hubs there are, how many
//! sessions each of them has, of which 64 are open at most, how many requests each session has, how many bytes the payload of a
//! request has, at most 16,777,216, and how many bytes of a stream come at once.
#![tactic(auto)]

mod loads;

use loads::{Load, played};
use std::{env, io};

fn main(rt: HostRuntime) -> io::Result<()> {
    let mut words = env::args(&rt)?;
    words.next();
    match (
        number(words.next()),
        number(words.next()),
        number(words.next()),
        number(words.next()),
        number(words.next()),
    ) {
        (Some(hubs), Some(sessions), Some(requests), Some(length), Some(size)) => {
            let load = Load {
                hubs,
                sessions,
                requests,
                length,
                size,
            };
            play(&rt, load)
        }
        _ => eprintln!(rt; "usage: bench_hub HUBS SESSIONS REQUESTS LENGTH SIZE"),
    }
}

/// The number that a word is.
fn number(word: Option<String>) -> Option<u32> {
    match word?.as_str().parse::<u32>() {
        Ok(number) => Some(number),
        Err(_) => None,
    }
}

/// Plays a load, and prints what came out.
fn play<R: AllocGlobal + Print>(rt: &R, load: Load) -> io::Result<()> {
    match played(rt.alloc(), load) {
        Ok(totals) => println!(rt; "{totals}"),
        Err(trouble) => println!(rt; "{trouble}"),
    }
}
