//! The program of `bench/imap`. `imap_bench WHAT SIZE COUNT` does it COUNT times:
//! - a shape of a command line, as `fetch` or `search`: reads a line of SIZE bytes;
//! - `literal`: takes a unit with a literal of SIZE bytes; `copy` copies as many;
//! - `set`: prints a set of SIZE UIDs.
#![tactic(auto)]

mod lines;
mod units;

use crate::lines::read_lines;
use crate::units::{copy, print_sets, take_units};
use std::alloc::{AllocGlobal, Global};
use std::env::{self, Env};
use std::io::Print;
use std::process::ExitCode;

/// The size of what was done and what it gave. None for an unknown word, and where memory runs out.
fn measured(alloc: Global, what: &str, size: u32, count: u64) -> Option<(u64, u64)> {
    match what {
        "literal" => take_units(alloc, u64::from(size), count),
        "copy" => copy(alloc, u64::from(size), count),
        "set" => print_sets(alloc, size, count),
        _ => read_lines(alloc, what, u64::from(size), count),
    }
}

/// The exit status.
fn run<R: Env + AllocGlobal + Print>(rt: &R) -> u8 {
    let Ok(mut words) = env::args(rt) else {
        return 2;
    };
    let _program = words.next();
    let (Some(what), Some(size), Some(count)) = (words.next(), words.next(), words.next()) else {
        return 2;
    };
    let (Ok(size), Ok(count)) = (size.as_str().parse::<u32>(), count.as_str().parse::<u64>()) else {
        return 2;
    };
    match measured(rt.alloc(), what.as_str(), size, count) {
        Some((size, gave)) => {
            let _ = println!(rt; "{size} {gave}");
            0
        }
        None => 3,
    }
}

fn main(rt: HostRuntime) -> ExitCode {
    ExitCode::from(run(&rt))
}
