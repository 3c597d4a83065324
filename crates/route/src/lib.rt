// The route to light (document 02, Three): the search and the walk that it gives, and the call with its checks.
#![tactic(auto)]

ghost use Rattle.std.specs.Prelude.{◌≤◌, length};
ghost use Rattle.model.specs.Limits.{least_work};
ghost use Rattle.model.specs.Replies.{routed_of};
ghost use Rattle.model.specs.Computed.Edges.{bare};
ghost use Rattle.calls.specs.Call.{lent_out, Meets};
ghost use Rattle.frontier.specs.Search.{Searchable};
ghost use Rattle.calls.specs.Route.{route_call};
ghost use Rattle.route.specs.Run.{Shows};

use frontier::StateSearch;
use model::{LEAST_WORK, MOST_VERTICES, Refusal, Size};

// Lights the route that a search finds, with work memory of any content, which it leaves zero.
fn run(search: &StateSearch, walk: &mut [u32], work: &mut [u64]) -> Result<Option<u32>, Refusal>
    requires { Searchable search.now.vertices search.now.edges.now search.now.pattern.now search.now.start search.now.destination × (least_work ≤ length work.old) }
    ensures { Shows (bare search.now.vertices search.now.edges.now) search.now.pattern.now search.now.start search.now.destination walk.old work.old
        result walk.new work.new }
{
    let front = &mut work[..LEAST_WORK];
    front.fill(0);
    let place = route_search::find(search, front);
    let reply = route_walk::light(front, place, walk);
    work.fill(0);
    reply
}

// The call for all inputs: the plain check's checks, and then the route of the pattern as keyed.
pub fn route(
    size: Size,
    start: u32,
    destination: u32,
    pattern: &[u8],
    edges: &[u32],
    walk: &mut [u32],
    work: &mut [u64],
) -> Result<Option<u32>, Refusal>
    ensures { Meets (route_call size start destination pattern.now (lent_out edges.now work.old walk.old))
        (routed_of result) (lent_out edges.now work.new walk.new) }
{
    let n = query_checks::check_search(size, start, destination, pattern, edges, work)?;
    let standing = &edges[..n];
    let mut slots = [0usize; MOST_VERTICES];
    edges::fill_slots(size.vertices, standing, &mut slots);
    let search = StateSearch::new(size.vertices, standing, &slots, pattern, start, destination);
    run(&search, walk, work)
}
