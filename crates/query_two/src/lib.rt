// Out by one pattern, home by another (document 02, Five): past the checks of two queries, the lowest vertex that the first pattern leads to and from
// which the second leads home.
#![tactic(auto)]

ghost use Rattle.std.specs.Prelude.{◌≡◌, true, false, List, ℕ};
ghost use Rattle.model.specs.Replies.{two_answered_of};
ghost use Rattle.calls.specs.Call.{lent, Meets};
ghost use Rattle.calls.specs.QueryTwo.{two_refusal, both_once?, query_two_call};
ghost use Rattle.query_two.specs.Call.{FullTwo};

use answer::Side;
use model::{LEAST_WORK, MOST_LABEL, Refusal, Size};

// By patterns that are both written once: check 12, then the index replies for every vertex. Edge and work memory play no part.
fn ask(
    size: Size,
    start: u32,
    destination: u32,
    first: &[u8],
    second: &[u8],
    index: &[u64],
) -> Result<Option<u32>, Refusal>
    requires passed { two_refusal size start destination first.now second.now ≡ 0 }
    requires both_once { both_once? first.now second.now ≡ true }
    ensures { (edges work : List ℕ) → FullTwo size start destination first.now second.now (lent edges index.now work)
        (two_answered_of result) (lent edges index.now work) }
{
    let Some(n) = scan::scan(size, index) else {
        return Err(Refusal::IndexMemory);
    };
    let out = answer_tables::answers(&index[..n], Side::Out, start, first);
    let home = answer_tables::answers(&index[..n], Side::In, destination, second);
    Ok(middles::lowest(size.vertices, &out, &home))
}

// By patterns of which one repeats itself: checks 12, 3 and 4, and then what each tells.
fn search(
    size: Size,
    start: u32,
    destination: u32,
    first: &[u8],
    second: &[u8],
    edges: &[u32],
    index: &[u64],
    work: &mut [u64],
) -> Result<Option<u32>, Refusal>
    requires passed { two_refusal size start destination first.now second.now ≡ 0 }
    requires one_repeats { both_once? first.now second.now ≡ false }
    ensures { FullTwo size start destination first.now second.now (lent edges.now index.now work.old)
        (two_answered_of result) (lent edges.now index.now work.new) }
{
    let Some(e) = scan::scan(size, index) else {
        return Err(Refusal::IndexMemory);
    };
    let Some(n) = edges::scan(size.vertices, edges) else {
        return Err(Refusal::EdgeMemory);
    };
    if work.len() < LEAST_WORK {
        return Err(Refusal::WorkMemory);
    }
    Ok(middles::meet(
        size.vertices,
        start,
        destination,
        first,
        second,
        &edges[..n],
        &index[..e],
        work,
    ))
}

// The query by two patterns, for all inputs.
pub fn query_two(
    size: Size,
    totals: [u32; MOST_LABEL],
    start: u32,
    destination: u32,
    first: &[u8],
    second: &[u8],
    edges: &[u32],
    index: &[u64],
    work: &mut [u64],
) -> Result<Option<u32>, Refusal>
    ensures { Meets (query_two_call (record { size = size; totals = totals }) start destination first.now second.now
        (lent edges.now index.now work.old)) (two_answered_of result) (lent edges.now index.now work.new) }
{
    query_checks::check_two(size, start, destination, first, second)?;
    if query_checks::is_either_lacking(totals, first, second) {
        return Ok(None);
    }
    if query_checks::are_once(first, second) {
        return ask(size, start, destination, first, second, index);
    }
    search(size, start, destination, first, second, edges, index, work)
}
