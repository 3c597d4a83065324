// The search backward (document 02, Five): which vertices have a walk to a destination that runs a pattern. It is a level search from the
// destination, over the edges turned round, by the pattern from its end.
#![tactic(auto)]

ghost use Rattle.std.specs.Prelude.{◌≡◌, map, reverse, ◌≤◌, ◌<◌, length, take};
ghost use Rattle.model.specs.Limits.{most_vertices, most_edges, least_work};
ghost use Rattle.model.specs.Edges.{from_of};
ghost use Rattle.model.specs.Turned.{turned, Labelled};
ghost use Rattle.sort.specs.Order.{Sorts};
ghost use Rattle.frontier.specs.Search.{Short, Searchable};
ghost use Rattle.backward.specs.Turning.{Turnable, TellsTo};

use model::{Edge, MOST_EDGES, MOST_LONGEST, MOST_VERTICES};

// An edge with its ends exchanged.
fn turned(x: u32) -> u32
    requires { from_of x < most_vertices }
    ensures { result ≡ turned x }
{
    let edge = Edge::from(x);
    let turned = Edge {
        from: edge.to,
        label: edge.label,
        to: edge.from,
    };
    turned.number()
}

// Writes each edge, turned, into `to`.
fn turn_each(edges: &[u32], to: &mut [u64])
    requires { Turnable edges.now × (length edges.now ≡ length to.old) }
    ensures { to.new ≡ map turned edges.now }
{
    for (i, &x) in edges.iter().enumerate() {
        to[i] = u64::from(turned(x));
    }
}

// Writes the edges, turned, into `to` in rising order. As they rose by where they started, they stand by where they end, which is lowest now.
fn sort_turned(edges: &[u32], to: &mut [u64])
    requires { Turnable edges.now × (length edges.now ≡ length to.old) }
    ensures { Sorts (map turned edges.now) to.new }
{
    turn_each(edges, to);
    let mut buffer = [0u64; MOST_EDGES];
    sort::sort_upper(to, &mut buffer[..edges.len()]);
}

// The edges turned round, in rising order, at the front of the result. The front of work memory holds anything afterwards.
fn turn_round(edges: &[u32], work: &mut [u64]) -> [u32; MOST_EDGES]
    requires { Turnable edges.now × (least_work ≤ length work.old) }
    ensures { Sorts (map turned edges.now) (take (length edges.now) result) }
{
    let n = edges.len();
    sort_turned(edges, &mut work[..n]);
    let mut result = [0u32; MOST_EDGES];
    memory::narrow(&mut result[..n], work);
    result
}

// The pattern from its end, at the front of the result.
fn reversed(pattern: &[u8]) -> [u8; MOST_LONGEST]
    requires { Short pattern.now }
    ensures { take (length pattern.now) result ≡ reverse pattern.now }
{
    let mut back = [0u8; MOST_LONGEST];
    back[..pattern.len()].copy_from_slice(pattern);
    back[..pattern.len()].reverse();
    back
}

// From which vertices a walk to t runs the pattern. Work memory may hold anything, and does so afterwards.
pub fn reaching(
    vertices: u32,
    edges: &[u32],
    pattern: &[u8],
    t: u32,
    work: &mut [u64],
) -> [bool; MOST_VERTICES]
    requires searchable { Searchable vertices edges.now pattern.now t t × ((length edges.now ≤ most_edges) × (least_work ≤ length work.old)) }
    requires labelled { Labelled pattern.now }
    ensures { TellsTo vertices edges.now pattern.now t result }
{
    let round = turn_round(edges, work);
    let back = reversed(pattern);
    reachable::reached(
        vertices,
        &round[..edges.len()],
        &back[..pattern.len()],
        t,
        work,
    )
}
