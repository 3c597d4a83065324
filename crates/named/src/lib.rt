// The checks of an insertion (laying) and a removal (lifting): record, memory and the named edge, in document 01's order. They read only, and
// find the slot of the named edge.
#![tactic(auto)]

ghost use Rattle.calls.specs.Call.{lent};
ghost use Rattle.named.specs.Named.{Changes, LooksUp, Inserts, Removes};

use model::{Edge, Refusal, Size};

// How many edges stand, and the slot at which the named one stands, or before which it belongs.
#[derive(Clone, Copy)]
struct Lookup {
    standing: usize,
    found: Result<usize, usize>,
}

// How many edges stand, and the slot of the named one.
#[derive(Clone, Copy)]
pub struct Place {
    pub standing: usize,
    pub slot: usize,
}

// The checks with which insertion and removal begin: 1 2 3 4 5 6. Tells how many edges stand.
fn check_change(
    size: Size,
    edge: Edge,
    edges: &[u32],
    index: &[u64],
    work: &[u64],
) -> Result<usize, Refusal>
    ensures { Changes size edge (lent edges.now index.now work.now) result }
{
    let standing = checks::check_layout(size, edges)?;
    if !checks::has_room(index.len(), work.len()) {
        return Err(Refusal::WorkMemory);
    }
    if !checks::are_vertices(size.vertices, edge.from, edge.to) {
        return Err(Refusal::EdgeEnd);
    }
    if !checks::is_label(edge.label) {
        return Err(Refusal::EdgeLabel);
    }
    Ok(standing)
}

// The named edge looked up among those that stand, once the first checks have passed.
fn look_up(
    size: Size,
    edge: Edge,
    edges: &[u32],
    index: &[u64],
    work: &[u64],
) -> Result<Lookup, Refusal>
    ensures { LooksUp size edge (lent edges.now index.now work.now) result }
{
    let standing = check_change(size, edge, edges, index, work)?;
    let found = edges::find(&edges[..standing], edge.number());
    Ok(Lookup { standing, found })
}

// And then 7 9.
pub fn check_insert(
    size: Size,
    edge: Edge,
    edges: &[u32],
    index: &[u64],
    work: &[u64],
) -> Result<Place, Refusal>
    ensures { Inserts size edge (lent edges.now index.now work.now) result }
{
    let Lookup { standing, found } = look_up(size, edge, edges, index, work)?;
    let Err(slot) = found else {
        return Err(Refusal::EdgePresent);
    };
    if edges.len() <= standing {
        return Err(Refusal::EdgeSlots);
    }
    Ok(Place { standing, slot })
}

// And then 8.
pub fn check_remove(
    size: Size,
    edge: Edge,
    edges: &[u32],
    index: &[u64],
    work: &[u64],
) -> Result<Place, Refusal>
    ensures { Removes size edge (lent edges.now index.now work.now) result }
{
    let Lookup { standing, found } = look_up(size, edge, edges, index, work)?;
    let Ok(slot) = found else {
        return Err(Refusal::EdgeAbsent);
    };
    Ok(Place { standing, slot })
}
