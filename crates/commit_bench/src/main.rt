//! The program of `bench/commits`: `commit_bench COUNT` puts so many messages into an empty store over disks in memory, each by a
//! commit of its own.
#![tactic(auto)]

ghost use Rattle.std.specs.Prelude.{◌≡◌, false, [], OnOk};

use disk_model::MemoryDisk;
use mime_reader::read_or_wrap;
use row_store::{RowStore, StoreFault, empty_store};
use shredder::{law_mails_fit, rows_of};
use std::alloc::{AllocGlobal, Global};
use std::env::{self, Env};
use std::io::Print;
use std::process::ExitCode;

/// How many bytes a message may have.
const MOST_BYTES: usize = 33_554_432;

/// Puts a message of its own number into the store.
fn put(alloc: Global, store: &mut RowStore<MemoryDisk>, number: u64) -> Result<(), StoreFault>
    requires usable { store.old.spent ≡ false }
    requires fresh { store.old.placed ≡ [] }
    ensures { OnOk result ((store.new.spent ≡ false) × (store.new.placed ≡ [])) }
{
    law_mails_fit();
    let text = format!(in alloc;
        "From: Person {number} <person{number}@example.org>\nSubject: Subject {number}\n\
        Date: Tue, 1 Jul 2003 10:52:37 +0200\n\nBody {number}\n"
    )?;
    let text = text.as_bytes();
    if text.len() > MOST_BYTES {
        return Err(StoreFault::NoMemory);
    }
    let mail = read_or_wrap(alloc, text, 0)?;
    let (_id, changes) = rows_of(alloc, &mail, store)?;
    store.commit(changes)
}

/// Puts so many messages into an empty store.
fn fill(alloc: Global, count: u64) -> Result<(), StoreFault> {
    let mut store = empty_store(alloc)?;
    for number in 0..count {
        put(alloc, &mut store, number)?;
    }
    Ok(())
}

/// The number of messages, and what became of them: the exit status.
fn run<R: Env + AllocGlobal + Print>(rt: &R) -> u8 {
    let Ok(mut words) = env::args(rt) else {
        return 2;
    };
    let _program = words.next();
    let Some(word) = words.next() else {
        return 2;
    };
    let Ok(count) = word.as_str().parse::<u64>() else {
        return 2;
    };
    match fill(rt.alloc(), count) {
        Ok(()) => {
            let _ = println!(rt; "{count} messages");
            0
        }
        Err(_fault) => 3,
    }
}

fn main(rt: HostRuntime) -> ExitCode {
    ExitCode::from(run(&rt))
}
