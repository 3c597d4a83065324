// The level search (plain check): level after level, the levels counted, and the call with its checks.
#![tactic(auto)]

ghost use Rattle.std.specs.Prelude.{◌≡◌, Ok, [], ◌≤◌, length};
ghost use Rattle.model.specs.Limits.{least_work};
ghost use Rattle.model.specs.Replies.{reply_of};
ghost use Rattle.calls.specs.Call.{lent, Meets};
ghost use Rattle.calls.specs.Search.{search_call};
ghost use Rattle.frontier.specs.Work.{Unmarked};
ghost use Rattle.frontier.specs.Search.{Searchable};
ghost use Rattle.level_search.specs.Run.{found_by, Searches, Tells};

use frontier::StateSearch;
use model::{MOST_VERTICES, Refusal, SearchReply, Size};

// The model's number, in the width of a level limit.
const ENOUGH_LEVELS: u32 = model::ENOUGH_LEVELS as u32;

// The levels, over work memory in which no state is marked.
fn levels(search: &StateSearch, limit: u32, work: &mut [u64]) -> SearchReply
    requires searchable { Searchable search.now.vertices search.now.edges.now search.now.pattern.now search.now.start search.now.destination }
    requires unmarked { Unmarked work.old }
    ensures { reply_of (Ok result) ≡ found_by search.now.vertices search.now.edges.now search.now.pattern.now search.now.start search.now.destination limit }
{
    work[frontier::QUEUE] = u64::from(search.start);
    let mut level = 0..1;
    for c in 1..=limit {
        level = frontier::next_level(search, work, level);
        if work[search.destination as usize] == 1 {
            return SearchReply::Yes(c);
        }
        if level.is_empty() {
            return SearchReply::No(c);
        }
    }
    SearchReply::Spent(limit)
}

// The level search with work memory of any content, which it leaves zero.
pub fn run(search: &StateSearch, limit: u32, work: &mut [u64]) -> SearchReply
    requires { Searchable search.now.vertices search.now.edges.now search.now.pattern.now search.now.start search.now.destination × (least_work ≤ length work.old) }
    ensures { Searches search.now.vertices search.now.edges.now search.now.pattern.now search.now.start search.now.destination limit work.old result work.new }
{
    work[..frontier::QUEUE].fill(0);
    let reply = levels(search, limit, work);
    work.fill(0);
    reply
}

// Whether a walk from s to t runs the pattern: the search with as many levels as always suffice. It leaves work memory zero. (Its slots stand on
// the stack only while it runs: a query that does not search takes none of them.)
#[inline(never)]
pub fn is_run(
    vertices: u32,
    edges: &[u32],
    pattern: &[u8],
    s: u32,
    t: u32,
    work: &mut [u64],
) -> bool
    requires { Searchable vertices edges.now pattern.now s t × (least_work ≤ length work.old) }
    ensures { Tells vertices edges.now pattern.now s t work.old result work.new }
{
    let mut slots = [0usize; MOST_VERTICES];
    edges::fill_slots(vertices, edges, &mut slots);
    let search = StateSearch::new(vertices, edges, &slots, pattern, s, t);
    let reply = run(&search, ENOUGH_LEVELS, work);
    matches!(reply, SearchReply::Yes(_))
}

// The plain check for all inputs, by the pattern as keyed.
pub fn search(
    size: Size,
    start: u32,
    destination: u32,
    pattern: &[u8],
    level_limit: u32,
    edges: &[u32],
    work: &mut [u64],
) -> Result<SearchReply, Refusal>
    ensures { Meets (search_call size start destination pattern.now level_limit (lent edges.now [] work.old)) (reply_of result) (lent edges.now [] work.new) }
{
    let n = query_checks::check_search(size, start, destination, pattern, edges, work)?;
    let standing = &edges[..n];
    let mut slots = [0usize; MOST_VERTICES];
    edges::fill_slots(size.vertices, standing, &mut slots);
    let search = StateSearch::new(size.vertices, standing, &slots, pattern, start, destination);
    Ok(run(&search, level_limit, work))
}
