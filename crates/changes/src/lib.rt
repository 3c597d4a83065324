// The calls that change the layout, over a size and an edge: opening, insertion (laying), removal (lifting) and card reading. Checks first,
// which read only; then edge memory is saved, the wanted edges are written, and `settle` does the rest.
#![tactic(auto)]

ghost use Rattle.std.specs.Prelude.{◌≡◌, []};
ghost use Rattle.model.specs.Replies.{answer_of};
ghost use Rattle.model.specs.Lists.{zeroed};
ghost use Rattle.calls.specs.Call.{lent, Meets};
ghost use Rattle.calls.specs.Change.{open_change, insert_change, remove_change};
ghost use Rattle.changes.specs.Changes.{Readings, ReadsCard};

use card_reading::CardLayout;
use model::{Edge, MOST_EDGES, Refusal, Size};

// The checks of a card reading: 14 15 2 16 of the card, then 3 9 4.
fn check_read(
    card: &[u8],
    edges: &[u32],
    index: &[u64],
    work: &[u64],
) -> Result<CardLayout, Refusal>
    ensures { Readings card.now (lent edges.now index.now work.now) result }
{
    let layout = card_reading::check(card)?;
    if MOST_EDGES < edges.len() {
        return Err(Refusal::EdgeMemory);
    }
    if edges.len() < layout.edges {
        return Err(Refusal::EdgeSlots);
    }
    if !checks::has_room(index.len(), work.len()) {
        return Err(Refusal::WorkMemory);
    }
    Ok(layout)
}

// Zeroes edge and index memory.
fn clear(edges: &mut [u32], index: &mut [u64])
    ensures edges { edges.new ≡ zeroed edges.old }
    ensures index { index.new ≡ zeroed index.old }
{
    edges.fill(0);
    index.fill(0);
}

// Opening.
pub fn open(size: Size, edges: &mut [u32], index: &mut [u64]) -> Result<(), Refusal>
    ensures { Meets (open_change size (lent edges.old index.old []))
        (answer_of result) (lent edges.new index.new []) }
{
    checks::check_size(size)?;
    if MOST_EDGES < edges.len() {
        return Err(Refusal::EdgeMemory);
    }
    clear(edges, index);
    Ok(())
}

// Insertion (laying).
pub fn insert(
    size: Size,
    edge: Edge,
    edges: &mut [u32],
    index: &mut [u64],
    work: &mut [u64],
) -> Result<(), Refusal>
    ensures { Meets (insert_change size edge.from edge.label edge.to (lent edges.old index.old work.old))
        (answer_of result) (lent edges.new index.new work.new) }
{
    let place = named::check_insert(size, edge, edges, index, work)?;
    settle::save(edges, work);
    edges::insert(edges, place.slot, edge.number());
    settle::settle(size, place.standing + 1, edges, index, work)
}

// Removal (lifting).
pub fn remove(
    size: Size,
    edge: Edge,
    edges: &mut [u32],
    index: &mut [u64],
    work: &mut [u64],
) -> Result<(), Refusal>
    ensures { Meets (remove_change size edge.from edge.label edge.to (lent edges.old index.old work.old))
        (answer_of result) (lent edges.new index.new work.new) }
{
    let place = named::check_remove(size, edge, edges, index, work)?;
    settle::save(edges, work);
    edges::remove(edges, place.slot);
    settle::settle(size, place.standing - 1, edges, index, work)
}

// Card reading: tells the card's size.
pub fn read(
    card: &[u8],
    edges: &mut [u32],
    index: &mut [u64],
    work: &mut [u64],
) -> Result<Size, Refusal>
    ensures { ReadsCard card.now (lent edges.old index.old work.old)
        result (lent edges.new index.new work.new) }
{
    let layout = check_read(card, edges, index, work)?;
    settle::save(edges, work);
    card_reading::fill(card, layout.edges, edges);
    settle::settle(layout.size, layout.edges, edges, index, work)?;
    Ok(layout.size)
}
