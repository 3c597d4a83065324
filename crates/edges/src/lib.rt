// Edge memory: the numbers of edges, check 3, lookup, the slot where a vertex's edges start, insertion and removal.
#![tactic(auto)]

ghost use Rattle.std.specs.Prelude.{◌≡◌, ◌-◌, ◌≤◌, ◌<◌, ◌++◌, length, get_or, take, drop};
ghost use Rattle.model.specs.Limits.{most_vertices};
ghost use Rattle.model.specs.Lists.{Rising, filled};
ghost use Rattle.model.specs.Edges.{standing};
ghost use Rattle.model.specs.Computed.Edges.{edge?, insert_edge, remove_edge};
ghost use Rattle.edges.specs.Memory.{scan_of, find_of, Insertable, Removable};
ghost use Rattle.edges.specs.Slots.{Under, Skipped, Starts};

use model::{Edge, FROM_UNIT, MOST_EDGES, MOST_VERTICES};

const MOST_LABEL: u32 = model::MOST_LABEL as u32;

pub fn is_edge(vertices: u32, x: u32) -> bool
    ensures { result ≡ edge? vertices x }
{
    let edge = Edge::from(x);
    edge.from < vertices && 1 <= edge.label && edge.label <= MOST_LABEL && edge.to < vertices
}

// Check 3, in one pass: how many edges stand, if this is edge memory of the graph.
#[tactic(auto, using(crate::proofs::Scanning::scan_long, crate::proofs::Scanning::scan_start))]
pub fn scan(vertices: u32, edges: &[u32]) -> Option<usize>
    ensures { result ≡ scan_of vertices edges.now }
{
    if MOST_EDGES < edges.len() {
        return None;
    }
    let mut prev = 0;
    for (i, &x) in edges.iter().enumerate() {
        if x <= prev {
            return memory::all_zero(&edges[i..]).then_some(i);
        }
        if !is_edge(vertices, x) {
            return None;
        }
        prev = x;
    }
    Some(edges.len())
}

// Where an edge stands among those that stand, or the slot before which it belongs.
pub fn find(edges: &[u32], edge: u32) -> Result<usize, usize>
    requires { Rising edges.now }
    ensures { result ≡ find_of edge edges.now }
{
    edges.binary_search(&edge)
}

// The first slot from `from` on whose edge is at least key. It is mostly near, so the slots are looked at in their order.
pub fn skip(edges: &[u32], from: usize, key: u32) -> usize
    requires { Under edges.now key from }
    ensures { Skipped edges.now key result }
{
    let mut i = from;
    while i < edges.len() && edges[i] < key {
        i += 1;
    }
    i
}

// For each vertex, the slot where its edges start, so that a search looks at a vertex's own edges only. The table is the caller's, so that it
// stands once on the stack.
#[tactic(auto, using(crate::proofs::Slots::under_up, crate::proofs::Slots::starts_set))]
pub fn fill_slots(vertices: u32, edges: &[u32], slots: &mut [usize; MOST_VERTICES])
    requires { vertices ≤ most_vertices }
    ensures { Starts edges.now slots.new }
{
    slots.fill(0);
    let mut first = 0;
    for v in 0..vertices {
        first = skip(edges, first, v * FROM_UNIT);
        slots[v as usize] = first;
    }
}

// The same table, made.
pub fn first_slots(vertices: u32, edges: &[u32]) -> [usize; MOST_VERTICES]
    requires { vertices ≤ most_vertices }
    ensures { Starts edges.now result }
{
    let mut slots = [0usize; MOST_VERTICES];
    fill_slots(vertices, edges, &mut slots);
    slots
}

// Brings the last number to the front. (std's rotations ask memmove of the program that the library is linked into; rlc.h has memset and memcpy.)
fn last_to_front(part: &mut [u32])
    requires { 0 < length part.old }
    ensures { part.new ≡ drop (length part.old - 1) part.old ++ take (length part.old - 1) part.old }
{
    let mut moved = part[part.len() - 1];
    for i in 0..part.len() {
        let next = part[i];
        part[i] = moved;
        moved = next;
    }
}

// Brings the first number to the back.
fn first_to_back(part: &mut [u32])
    requires { 0 < length part.old }
    ensures { part.new ≡ drop 1 part.old ++ take 1 part.old }
{
    let mut moved = part[0];
    for i in (0..part.len()).rev() {
        let next = part[i];
        part[i] = moved;
        moved = next;
    }
}

// The first free slot comes to `at`.
#[tactic(auto, using(crate::proofs::Shift::insert_bounds))]
pub fn insert(edges: &mut [u32], at: usize, edge: u32)
    requires { Insertable edges.old at edge }
    ensures { edges.new ≡ filled (length edges.old) (insert_edge edge (standing edges.old)) }
{
    let n = at + memory::standing(&edges[at..]);
    last_to_front(&mut edges[at..=n]);
    edges[at] = edge;
}

// The slot goes behind the others that stand, as a free one.
#[tactic(auto, using(crate::proofs::Shift::remove_bounds))]
pub fn remove(edges: &mut [u32], at: usize)
    requires { Removable edges.old at }
    ensures { edges.new ≡ filled (length edges.old) (remove_edge (get_or edges.old at 0) (standing edges.old)) }
{
    let n = at + memory::standing(&edges[at..]);
    edges[at] = 0;
    first_to_back(&mut edges[at..n]);
}
