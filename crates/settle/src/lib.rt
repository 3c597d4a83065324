// What insertion, removal and card reading have in common: edge memory is saved; once the wanted edges are written, their index is built, or
// memory restored if the entries do not fit (13). Work memory ends zero.
#![tactic(auto)]

ghost use Rattle.std.specs.Prelude.{◌+◌, ◌≤◌, length};
ghost use Rattle.calls.specs.Call.{graph_of};
ghost use Rattle.rows.specs.Region.{saved_numbers};
ghost use Rattle.settle.specs.Indexing.{Indexable, Indexes};
ghost use Rattle.settle.specs.Settle.{Saves, Settleable, Settles};

use model::{MOST_VERTICES, Refusal, Size};
use rows::SAVED;

// Saves edge memory in work memory, before a change is tried.
pub fn save(edges: &[u32], work: &mut [u64])
    requires { saved_numbers + length edges.now ≤ length work.old }
    ensures { Saves edges.now work.old work.new }
{
    memory::widen(edges, &mut work[SAVED..]);
}

// Builds the index that the edges determine, in the access order counted: how many entries it has, if they fit. Work memory holds anything
// afterwards, except that the numbers in which edge memory is saved are kept.
fn index_edges(size: Size, edges: &[u32], index: &mut [u64], work: &mut [u64]) -> Option<usize>
    requires { Indexable size.vertices size.longest edges.now index.old work.old }
    ensures { Indexes (graph_of size edges.now) index.old work.old index.new work.new result }
{
    let mut order = [0u8; MOST_VERTICES];
    order::counted(size.vertices, edges, &mut work[..order::ROOM], &mut order);
    build::build(size, edges, &order, index, work)
}

// Settles a change that is tried: edge memory holds the n wanted edges, and work memory from SAVED on what edge memory held before.
pub fn settle(
    size: Size,
    n: usize,
    edges: &mut [u32],
    index: &mut [u64],
    work: &mut [u64],
) -> Result<(), Refusal>
    requires { Settleable size n edges.old index.old work.old }
    ensures { Settles size n edges.old index.old work.old result edges.new index.new work.new }
{
    let built = index_edges(size, &edges[..n], index, work);
    if built.is_none() {
        memory::narrow(edges, &work[SAVED..]);
    }
    work.fill(0);
    match built {
        Some(_) => Ok(()),
        None => Err(Refusal::IndexSlots),
    }
}
