// The walk that the search for a route has found: from its last state back to the start, counted, and written to walk memory.
#![tactic(auto)]

ghost use Rattle.std.specs.Prelude.{◌≤◌, IfSome, length};
ghost use Rattle.route_walk.specs.Walk.{Linked, CountsLinks, WritesWalk, LightsAt};

use frontier::QUEUE;
use model::Refusal;
use route_search::Queued;

// The number of edges from a place back to the start.
fn edge_count(work: &[u64], place: usize) -> usize
    requires { Linked work.now place }
    ensures { CountsLinks work.now place result }
{
    let mut at = place;
    let mut n = 0;
    while at != 0 {
        at = Queued::from(work[QUEUE + at]).before;
        n += 1;
    }
    n
}

// Writes these n edges in running order.
fn write_walk(work: &[u64], place: usize, n: usize, walk: &mut [u32])
    requires { Linked work.now place × (CountsLinks work.now place n × (n ≤ length walk.old)) }
    ensures { WritesWalk work.now place walk.old walk.new }
{
    let mut at = place;
    for i in (0..n).rev() {
        let node = Queued::from(work[QUEUE + at]);
        walk[i] = node.edge;
        at = node.before;
    }
}

// Lights the walk back from a place, if there is one and walk memory is long enough. Tells how many edges it has.
#[tactic(auto, using(crate::proofs::Lighting::light_none, crate::proofs::Lighting::light_yes))]
pub fn light(work: &[u64], place: Option<usize>, walk: &mut [u32]) -> Result<Option<u32>, Refusal>
    requires { IfSome place (Linked work.now) }
    ensures { LightsAt work.now place walk.old walk.new result }
{
    let Some(place) = place else {
        return Ok(None);
    };
    let n = edge_count(work, place);
    if walk.len() < n {
        return Err(Refusal::WalkMemory);
    }
    write_walk(work, place, n, walk);
    Ok(Some(n as u32))
}
