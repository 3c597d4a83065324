// The query's call: past its checks and the rule of totals, the question put to the entries that stand, or for a pattern that repeats itself a
// search.
#![tactic(auto)]

ghost use Rattle.std.specs.Prelude.{◌≡◌, List, ℕ};
ghost use Rattle.model.specs.Replies.{answered_of};
ghost use Rattle.calls.specs.Call.{lent, Meets};
ghost use Rattle.calls.specs.Query.{ask_refusal, query_call};
ghost use Rattle.query.specs.Call.{asked_call, searched_call};

use model::{LEAST_WORK, MOST_LABEL, Refusal, Size};

// Past the earlier checks, the query by a pattern that is written once: check 12, then the index replies. Edge and work memory play no part.
fn ask(
    size: Size,
    start: u32,
    destination: u32,
    pattern: &[u8],
    index: &[u64],
) -> Result<bool, Refusal>
    requires { ask_refusal size start destination pattern.now ≡ 0 }
    ensures { (edges work : List ℕ) → Meets (asked_call size start destination pattern.now (lent edges index.now work))
        (answered_of result) (lent edges index.now work) }
{
    let Some(n) = scan::scan(size, index) else {
        return Err(Refusal::IndexMemory);
    };
    Ok(answer::answer(&index[..n], start, destination, pattern))
}

// The same by a pattern that repeats itself: checks 12, 3 and 4, then a search by the pattern as keyed.
fn search(
    size: Size,
    start: u32,
    destination: u32,
    pattern: &[u8],
    edges: &[u32],
    index: &[u64],
    work: &mut [u64],
) -> Result<bool, Refusal>
    requires { ask_refusal size start destination pattern.now ≡ 0 }
    ensures { Meets (searched_call size start destination pattern.now (lent edges.now index.now work.old))
        (answered_of result) (lent edges.now index.now work.new) }
{
    let Some(_) = scan::scan(size, index) else {
        return Err(Refusal::IndexMemory);
    };
    let Some(n) = edges::scan(size.vertices, edges) else {
        return Err(Refusal::EdgeMemory);
    };
    if work.len() < LEAST_WORK {
        return Err(Refusal::WorkMemory);
    }
    Ok(level_search::is_run(
        size.vertices,
        &edges[..n],
        pattern,
        start,
        destination,
        work,
    ))
}

// The query for all inputs. Check 12 is called in either part: called once, it would be compiled into the whole, and its loop be slower.
#[tactic(auto, using(crate::proofs::Call::searched_whole))]
pub fn query(
    size: Size,
    totals: [u32; MOST_LABEL],
    start: u32,
    destination: u32,
    pattern: &[u8],
    edges: &[u32],
    index: &[u64],
    work: &mut [u64],
) -> Result<bool, Refusal>
    ensures { Meets (query_call (record { size = size; totals = totals }) start destination pattern.now (lent edges.now index.now work.old))
        (answered_of result) (lent edges.now index.now work.new) }
{
    query_checks::check(size, start, destination, pattern)?;
    if query_checks::is_lacking(totals, pattern) {
        return Ok(false);
    }
    if patterns::minimum_repeat(pattern).times != 1 {
        return search(size, start, destination, pattern, edges, index, work);
    }
    ask(size, start, destination, pattern, index)
}
