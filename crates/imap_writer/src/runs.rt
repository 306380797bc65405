//! Sets of numbers.
ghost use Rattle.std.specs.Prelude.{◌≡◌, ◌++◌, ◌+◌, ◌==◌, ◌∷◌, ℕ, List, IfOk, OnOk};
ghost use Rattle.imap_writer.specs.Sets.{run_text, runs_text, runs_behind, set_text};

use crate::texts::push_number;
use std::alloc::{AllocError, Global};

/// Ascending numbers as a set, runs of them as `n:m`: `1:3,7`. No numbers give an empty text.
pub fn uid_set(alloc: Global, numbers: &[u32]) -> Result<Vec<u8>, AllocError>
    ensures { IfOk result (λ text. text.items ≡ set_text numbers.now) }
{
    let mut out = Vec::new(alloc);
    push_set(&mut out, numbers)?;
    Ok(out)
}

/// Writes ascending numbers as a set behind what is there.
#[tactic(auto, unfolding(crate::specs::Sets::set_text))]
pub fn push_set(out: &mut Vec<u8>, numbers: &[u32]) -> Result<(), AllocError>
    ensures { OnOk result (out.new.items ≡ out.old.items ++ set_text numbers.now) }
{
    let Some((first, others)) = numbers.split_first() else {
        return Ok(());
    };
    push_runs(out, *first, others)
}

/// The runs of numbers, the first of which begins with `first`.
fn push_runs(out: &mut Vec<u8>, first: u32, others: &[u32]) -> Result<(), AllocError>
    ensures { OnOk result (out.new.items ≡ out.old.items ++ runs_text (runs_behind (record { first = first; last = first }) others.now)) }
{
    let mut run = Run { first, last: first };
    for n in others {
        run = run_behind(out, run, *n)?;
    }
    push_run(out, run)
}

/// The run that goes on behind a further number. The one before is written where it ended.
fn run_behind(out: &mut Vec<u8>, run: Run, n: u32) -> Result<Run, AllocError>
    ensures { IfOk result (λ r. (ns : List ℕ) → out.new.items ++ runs_text (runs_behind r ns) ≡ out.old.items ++ runs_text (runs_behind run (n ∷ ns))) }
{
    if is_next(run.last, n) {
        return Ok(Run {
            first: run.first,
            last: n,
        });
    }
    push_run(out, run)?;
    out.extend_from_slice(b",")?;
    Ok(Run { first: n, last: n })
}

fn is_next(last: u32, n: u32) -> bool
    ensures { result ≡ (n == last + 1) }
{
    last < n && n - last == 1
}

/// Numbers that follow each other.
#[derive(Clone, Copy)]
pub(crate) struct Run {
    first: u32,
    last: u32,
}

fn push_run(out: &mut Vec<u8>, run: Run) -> Result<(), AllocError>
    ensures { OnOk result (out.new.items ≡ out.old.items ++ run_text run) }
{
    push_number(out, u64::from(run.first))?;
    if run.first == run.last {
        return Ok(());
    }
    out.extend_from_slice(b":")?;
    push_number(out, u64::from(run.last))
}
