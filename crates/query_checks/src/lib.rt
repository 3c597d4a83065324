// The checks of calls that name two vertices and a pattern, or two patterns: those before all memory (1 2 10 11), those of the plain check and the
// route (1 2 3 4 10 11), and the rule of totals.
#![tactic(auto)]

ghost use Rattle.std.specs.Prelude.{◌≡◌, []};
ghost use Rattle.model.specs.Limits.{most_longest};
ghost use Rattle.model.specs.Patterns.{Keyed};
ghost use Rattle.model.specs.Replies.{answer_of};
ghost use Rattle.calls.specs.Call.{lent};
ghost use Rattle.calls.specs.Query.{ask_refusal, lacking?};
ghost use Rattle.calls.specs.QueryTwo.{two_refusal, either_lacks?, both_once?};
ghost use Rattle.query_checks.specs.SearchChecks.{named_refusal, SearchChecks};

use model::{LEAST_WORK, MOST_LABEL, Refusal, Size};

// Checks 10 and 11.
fn check_named(size: Size, start: u32, destination: u32, pattern: &[u8]) -> Result<(), Refusal>
    ensures { answer_of result ≡ named_refusal size start destination pattern.now }
{
    if !checks::are_vertices(size.vertices, start, destination) {
        return Err(Refusal::QueryEnd);
    }
    if !patterns::is_keyed(size.longest, pattern) {
        return Err(Refusal::QueryPattern);
    }
    Ok(())
}

// The checks of a query that come before all memory, in their order: 1, 2, 10 and 11.
#[tactic(auto, using(crate::proofs::Named::ask_pattern))]
pub fn check(size: Size, start: u32, destination: u32, pattern: &[u8]) -> Result<(), Refusal>
    ensures { answer_of result ≡ ask_refusal size start destination pattern.now }
{
    checks::check_size(size)?;
    check_named(size, start, destination, pattern)
}

// The checks of the plain check and the route, in their order: 1 2 3 4 10 11. Tells how many edges stand.
#[tactic(auto, using(crate::proofs::Named::search_ends))]
pub fn check_search(
    size: Size,
    start: u32,
    destination: u32,
    pattern: &[u8],
    edges: &[u32],
    work: &[u64],
) -> Result<usize, Refusal>
    ensures { SearchChecks size start destination pattern.now (lent edges.now [] work.now) result }
{
    let n = checks::check_layout(size, edges)?;
    if work.len() < LEAST_WORK {
        return Err(Refusal::WorkMemory);
    }
    check_named(size, start, destination, pattern)?;
    Ok(n)
}

// The checks of a query by two patterns that come before all memory: 1, 2, 10, 11 of the first pattern, and 11 of the second.
pub fn check_two(
    size: Size,
    start: u32,
    destination: u32,
    first: &[u8],
    second: &[u8],
) -> Result<(), Refusal>
    ensures { answer_of result ≡ two_refusal size start destination first.now second.now }
{
    check(size, start, destination, first)?;
    if patterns::is_keyed(size.longest, second) {
        return Ok(());
    }
    Err(Refusal::QueryPattern)
}

// Whether a label of the pattern has total 0 in the record (document 02, Four).
#[tactic(auto, using(crate::proofs::Lacking::lacking_steps))]
pub fn is_lacking(totals: [u32; MOST_LABEL], pattern: &[u8]) -> bool
    requires { Keyed most_longest pattern.now }
    ensures { result ≡ lacking? totals pattern.now }
{
    for &label in pattern {
        if totals[label as usize - 1] == 0 {
            return true;
        }
    }
    false
}

// Whether a label of either pattern has total 0 in the record (document 02, Four).
pub fn is_either_lacking(totals: [u32; MOST_LABEL], first: &[u8], second: &[u8]) -> bool
    requires { Keyed most_longest first.now × Keyed most_longest second.now }
    ensures { result ≡ either_lacks? totals first.now second.now }
{
    is_lacking(totals, first) || is_lacking(totals, second)
}

// Whether both patterns are written once.
pub fn are_once(first: &[u8], second: &[u8]) -> bool
    requires { Keyed most_longest first.now × Keyed most_longest second.now }
    ensures { result ≡ both_once? first.now second.now }
{
    patterns::minimum_repeat(first).times == 1 && patterns::minimum_repeat(second).times == 1
}
