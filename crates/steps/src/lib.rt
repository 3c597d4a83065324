// From edges to rows: which edges of a list end in a row, and where they lead.
#![tactic(auto)]

ghost use Rattle.std.specs.Prelude.{◌≡◌, ◌+◌, ◌-◌, ◌≤◌, ◌<◌, length};
ghost use Rattle.model.specs.Limits.{most_vertices, most_label, least_work};
ghost use Rattle.edges.specs.Grouped.{section, Grouped};
ghost use Rattle.rows.specs.Region.{work_rows};
ghost use Rattle.rows.specs.Rows.{Has, Becomes};
ghost use Rattle.steps.specs.Filling.{Clears, IdentityFillable, FillsRows, Outgoing, Starting, LeadsTo, LeadsInto, Gatherable, Gathers, RowsFillable, EndsFillable, SourcesClearable};

use model::{Edge, MOST_VERTICES};

// Empties the n rows from `base` on.
pub fn clear_rows(w: &mut [u64], base: usize, n: usize)
    requires { (base + n ≤ work_rows) × (least_work ≤ length w.old) }
    ensures { Clears w.old w.new base n }
{
    for i in 0..n {
        rows::clear(w, base + i);
    }
}

// Makes row base + a, for every vertex a, a alone: the empty word leads from a vertex to itself. The rows were empty.
pub fn fill_identity(w: &mut [u64], base: usize)
    requires { IdentityFillable w.old base }
    ensures { FillsRows base (λ a t. t ≡ a) w.old w.new }
{
    for a in 0..MOST_VERTICES {
        rows::mark(w, base + a, a);
    }
}

// Puts the edges that end in row `starts` at the front of `live`, and returns how many they are. Each edge is written, and kept if it ends
// there: no branch depends on it.
pub fn gather(edges: &[u32], w: &[u64], starts: usize, live: &mut [u32]) -> usize
    requires { Gatherable edges.now w.now starts live.old }
    ensures { Gathers edges.now w.now starts live.new result }
{
    let mut n = 0;
    for &x in edges {
        live[n] = x;
        n += rows::bit(w, starts, Edge::from(x).to as usize) as usize;
    }
    n
}

// Makes row r the vertices where the edges of a list start.
pub fn sources(edges: &[u32], w: &mut [u64], r: usize)
    requires { Outgoing edges.now × Has w.old r }
    ensures { Becomes w.old w.new r (Starting edges.now) }
{
    rows::clear(w, r);
    for &x in edges {
        rows::mark(w, r, Edge::from(x).from as usize);
    }
}

// Puts into row to + a, for every edge of a list from a, the row of the vertex that it leads to, of those from `from` on. The rows from `to`
// on were empty.
pub fn fill(edges: &[u32], w: &mut [u64], from: usize, to: usize)
    requires { RowsFillable edges.now w.old from to }
    ensures { FillsRows to (LeadsInto edges.now w.old from) w.old w.new }
{
    for &x in edges {
        let edge = Edge::from(x);
        let r = to + edge.from as usize;
        rows::union(w, r, r, from + edge.to as usize);
    }
}

// The same, with the vertex that the edge leads to in place of its row.
pub fn fill_ends(edges: &[u32], w: &mut [u64], to: usize)
    requires { EndsFillable edges.now w.old to }
    ensures { FillsRows to (LeadsTo edges.now) w.old w.new }
{
    for &x in edges {
        let edge = Edge::from(x);
        rows::mark(w, to + edge.from as usize, edge.to as usize);
    }
}

// Empties the rows, of those from `base` on, of the vertices where the edges of a list start: no other row has a vertex.
pub fn clear_sources(edges: &[u32], w: &mut [u64], base: usize)
    requires { SourcesClearable edges.now w.old base }
    ensures { Clears w.old w.new base most_vertices }
{
    for &x in edges {
        rows::clear(w, base + Edge::from(x).from as usize);
    }
}

// The edges of label c.
pub fn labelled<'a>(edges: &'a [u32], slots: &[usize], c: usize) -> &'a [u32]
    requires { Grouped edges.now slots.now × ((1 ≤ c) × (c ≤ most_label)) }
    ensures { result.now ≡ section edges.now slots.now (c - 1) }
{
    &edges[slots[c - 1]..slots[c]]
}
