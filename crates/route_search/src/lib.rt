// The search for the route to light (document 02, Three): over the level search's states, keeping for each state the first walk to it. Nodes (a
// state and how it was reached) are taken in the order in which they were queued, and the edges of a node in rising order, so a state is first
// reached by the walk that comes first.
//
// Work memory: for each state its place in the queue, or 0; then the queue, as in a level search. The start stands at place 0, and counts as
// reached only once an edge leads back to it.
#![tactic(auto)]

ghost use Rattle.std.specs.Prelude.{◌≡◌, ◌+◌, ◌≤◌, ◌<◌, length, get_or};
ghost use Rattle.model.specs.Limits.{least_work};
ghost use Rattle.model.specs.Lists.{zeroed};
ghost use Rattle.model.specs.Computed.Edges.{bare};
ghost use Rattle.model.specs.Computed.Levels.{most_states};
ghost use Rattle.frontier.specs.Search.{Searchable};
ghost use Rattle.route_search.specs.Work.{Paused, Enqueues};
ghost use Rattle.route_search.specs.Traced.{Traced};

mod queued;

pub use frontier::QUEUE;
use frontier::StateSearch;
pub use queued::{BEFORE_UNIT, Queued, STATE_UNIT};

// Queues the state y, reached from node k by an edge, if it is not queued yet.
fn reach(work: &mut [u64], y: usize, k: usize, edge: u32, tail: usize) -> usize
    requires { (least_work ≤ length work.old) × ((y < most_states) × ((k ≤ most_states) × (get_or work.old y 0 ≡ 0 → tail ≤ most_states))) }
    ensures { Enqueues work.old y k edge tail work.new result }
{
    if work[y] != 0 {
        return tail;
    }
    work[y] = tail as u64;
    let queued = Queued {
        before: k,
        state: y,
        edge,
    };
    work[QUEUE + tail] = queued.number();
    tail + 1
}

// Takes node k: reaches every state that an edge of the next label leads to from its state.
fn expand(search: &StateSearch, k: usize, work: &mut [u64], tail: usize) -> usize
    requires searchable { Searchable search.now.vertices search.now.edges.now search.now.pattern.now search.now.start search.now.destination }
    requires paused { Paused (bare search.now.vertices search.now.edges.now) search.now.pattern.now search.now.start work.old tail k × (k < tail) }
    ensures { Paused (bare search.now.vertices search.now.edges.now) search.now.pattern.now search.now.start work.new result (k + 1) }
{
    let node = Queued::from(work[QUEUE + k]);
    let branch = search.branch(node.state);
    let mut n = tail;
    for &edge in &search.edges[branch.from..] {
        if branch.end() <= edge {
            break;
        }
        n = reach(work, branch.state(edge), k, edge, n);
    }
    n
}

// The place of the route's last state in the queue, if there is a route, over work memory that is zero.
pub fn find(search: &StateSearch, work: &mut [u64]) -> Option<usize>
    requires searchable { Searchable search.now.vertices search.now.edges.now search.now.pattern.now search.now.start search.now.destination }
    requires zeros { (least_work ≤ length work.old) × (work.old ≡ zeroed work.old) }
    ensures { Traced (bare search.now.vertices search.now.edges.now) search.now.pattern.now search.now.start search.now.destination work.new result }
{
    let start = Queued {
        before: 0,
        state: search.start as usize,
        edge: 0,
    };
    work[QUEUE] = start.number();
    let mut n = 1;
    let mut k = 0;
    while k < n {
        n = expand(search, k, work, n);
        k += 1;
        let place = work[search.destination as usize] as usize;
        if place != 0 {
            return Some(place);
        }
    }
    None
}
