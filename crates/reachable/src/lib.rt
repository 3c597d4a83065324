// To which vertices a walk from one vertex runs a pattern: all levels, and the marks that they leave.
#![tactic(auto)]

ghost use Rattle.std.specs.Prelude.{◌≤◌, length, get_or, eqb};
ghost use Rattle.model.specs.Limits.{most_vertices, least_work};
ghost use Rattle.model.specs.Tables.{Tabulates};
ghost use Rattle.frontier.specs.Work.{Unmarked};
ghost use Rattle.frontier.specs.Search.{Searchable};
ghost use Rattle.reachable.specs.Reached.{Flooded, TellsFrom};

use frontier::StateSearch;
use model::MOST_VERTICES;

// All levels, over work memory in which no state is marked: ends with a mark for every state that is met.
fn flood(search: &StateSearch, work: &mut [u64])
    requires searchable { Searchable search.now.vertices search.now.edges.now search.now.pattern.now search.now.start search.now.destination }
    requires unmarked { Unmarked work.old }
    ensures { Flooded search.now.vertices search.now.edges.now search.now.pattern.now search.now.start work.new }
{
    work[frontier::QUEUE] = u64::from(search.start);
    let mut level = 0..1;
    while !level.is_empty() {
        level = frontier::next_level(search, work, level);
    }
}

// The marks of the vertices with no label used: the states below 256.
fn marked(work: &[u64]) -> [bool; MOST_VERTICES]
    requires { least_work ≤ length work.now }
    ensures { Tabulates most_vertices result (λ v. eqb (get_or work.now v 0) 1) }
{
    let mut table = [false; MOST_VERTICES];
    for v in 0..MOST_VERTICES {
        table[v] = work[v] == 1;
    }
    table
}

// To which vertices a walk from s runs the pattern. Work memory may hold anything, and does so afterwards.
pub fn reached(
    vertices: u32,
    edges: &[u32],
    pattern: &[u8],
    s: u32,
    work: &mut [u64],
) -> [bool; MOST_VERTICES]
    requires { Searchable vertices edges.now pattern.now s s × (least_work ≤ length work.old) }
    ensures { TellsFrom vertices edges.now pattern.now s result }
{
    let mut slots = [0usize; MOST_VERTICES];
    edges::fill_slots(vertices, edges, &mut slots);
    let search = StateSearch::new(vertices, edges, &slots, pattern, s, s);
    work[..frontier::QUEUE].fill(0);
    flood(&search, work);
    marked(work)
}
