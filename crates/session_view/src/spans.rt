// The places of a view that a set selects.
ghost use Rattle.std.specs.Prelude.{◌≡◌, ℕ, ◌+◌, ◌<◌, ◌≤◌, ◌^◌, length, slice_index, IfOk};
ghost use Rattle.std.specs.List.{list_any};
ghost use Rattle.std.specs.List.Sorted.{IsNonDecreasingBy};
ghost use Rattle.session_view.specs.Order.{Ascend};
ghost use Rattle.session_view.specs.Resolving.{numbered, lies_between, greatest};
ghost use Rattle.session_view.specs.Spans.{covers, holds_at, last_of};

use std::alloc::{AllocError, Global};

/// Places that follow each other: from the first on, up to the second, which isn't among them.
#[derive(Clone, Copy, Debug)]
pub(crate) struct Span {
    pub(crate) start: usize,
    pub(crate) end: usize,
}

/// How many UIDs are below a bound.
fn count_below(uids: &[u32], bound: u64) -> usize
    requires { Ascend uids.now }
    ensures within { result ≤ length uids.now }
    ensures below { (k : ℕ) → k < result → slice_index uids.now k < bound }
    ensures from { (k : ℕ) → result ≤ k → k < length uids.now → bound ≤ slice_index uids.now k }
{
    uids.partition_point(|uid| u64::from(*uid) < bound)
}

/// What `*` stands for.
fn last(uids: &[u32], by_uid: bool) -> u32
    requires ascend { Ascend uids.now }
    requires few { length uids.now < 2 ^ 32 }
    ensures { result ≡ last_of uids.now by_uid }
{
    let len = uids.len();
    if !by_uid {
        return len as u32;
    }
    if len == 0 {
        return 0;
    }
    uids[len - 1]
}

/// The places of the UIDs between two, whichever is the lower.
fn uid_span(uids: &[u32], one: u32, other: u32) -> Span
    requires { Ascend uids.now }
    ensures { (place : ℕ) → place < length uids.now → covers place result ≡ lies_between one other (slice_index uids.now place) }
{
    let low = one.min(other);
    let high = one.max(other);
    Span {
        start: count_below(uids, u64::from(low)),
        end: count_below(uids, u64::from(high) + 1),
    }
}

/// The places of the messages whose numbers lie between two.
fn number_span(one: u32, other: u32) -> Span
    ensures { (place : ℕ) → covers place result ≡ lies_between one other (place + 1) }
{
    let low = one.min(other);
    let high = one.max(other);
    Span {
        start: (low as usize).saturating_sub(1),
        end: high as usize,
    }
}

/// The places that a range selects.
fn range_span(uids: &[u32], range: (Option<u32>, Option<u32>), by_uid: bool) -> Span
    requires ascend { Ascend uids.now }
    requires few { length uids.now < 2 ^ 32 }
    ensures { (place : ℕ) → place < length uids.now → covers place result ≡ holds_at uids.now by_uid place range }
{
    let last = last(uids, by_uid);
    let one = range.0.unwrap_or(last);
    let other = range.1.unwrap_or(last);
    if by_uid {
        uid_span(uids, one, other)
    } else {
        number_span(one, other)
    }
}

/// The places that each range selects.
pub(crate) fn selected_spans(
    alloc: Global,
    uids: &[u32],
    ranges: &[(Option<u32>, Option<u32>)],
    by_uid: bool,
) -> Result<Vec<Span>, AllocError>
    requires ascend { Ascend uids.now }
    requires few { length uids.now < 2 ^ 32 }
    ensures { IfOk result (λ spans. (place : ℕ) → place < length uids.now → list_any (covers place) spans.items ≡ list_any (holds_at uids.now by_uid place) ranges.now) }
{
    let mut spans = Vec::with_capacity(alloc, ranges.len())?;
    for range in ranges {
        spans.push(range_span(uids, *range, by_uid))?;
    }
    Ok(spans)
}

/// The UIDs at the places that some span has. The spans are in the order of their starts.
pub(crate) fn covered(alloc: Global, uids: &[u32], spans: &[Span]) -> Result<Vec<u32>, AllocError>
    requires { IsNonDecreasingBy (λ span. span.start) spans.now }
    ensures { IfOk result (λ found. found.items ≡ numbered (λ place. list_any (covers place) spans.now) 0 uids.now) }
{
    let mut found = Vec::new(alloc);
    let mut done = 0;
    for span in spans {
        let from = span.start.max(done);
        let end = span.end.min(uids.len());
        if from < end {
            found.extend_from_slice(&uids[from..end])?;
            done = end;
        }
    }
    Ok(found)
}
