// Building the index of a graph. The vertices are numbered anew by their rank in an access order, so that earlier is lower; the entries
// are staged in work memory, put back to vertices, and written to index memory in rising order.
#![tactic(auto)]

ghost use Rattle.std.specs.Prelude.{length};
ghost use Rattle.staging.specs.Stage.{room_of};
ghost use Rattle.build.specs.Build.{Buildable, Builds};
ghost use Rattle.build.specs.Staging.{GraphStages};

use model::{LEAST_WORK, MOST_EDGES, MOST_VERTICES, Size};
use suffixes::{Search, Word};

// How many rows there are of both kinds, the step rows and the parent's behind them.
const BOTH: usize = MOST_VERTICES + MOST_VERTICES;

// Stages the entries of the renumbered graph in the slots behind the rows of work memory. Returns how many, or None if there are more than slots.
fn stage(size: Size, edges: &[u32], order: &[u8], w: &mut [u64]) -> Option<usize>
    requires { Buildable size.vertices size.longest edges.now order.now (room_of w.old) w.old }
    ensures { GraphStages size.vertices size.longest edges.now order.now w.old w.new result }
{
    let m = edges.len();
    let mut renumbered = [0u32; MOST_EDGES];
    let slots = renumber::renumber(size.vertices, edges, order, &mut renumbered);
    let mut live = [0u32; MOST_EDGES];
    steps::clear_rows(w, rows::STEPS, BOTH);
    rows::fill(w, rows::ROOT);
    let search = Search {
        edges: &renumbered[..m],
        slots: &slots,
        longest: size.longest as usize,
    };
    suffixes::node(search, &Word::empty(), w, rows::ROOT, &mut live, 0)
}

// Fills index memory with the entries that the graph determines with the order, and returns how many they are; None if they do not fit, and
// index memory is as it was. Work memory holds anything afterwards, except that the numbers in which edge memory is saved are kept.
pub fn build(
    size: Size,
    edges: &[u32],
    order: &[u8],
    index: &mut [u64],
    w: &mut [u64],
) -> Option<usize>
    requires { Buildable size.vertices size.longest edges.now order.now (length index.old) w.old }
    ensures { Builds (record { vertices = size.vertices; longest = size.longest; edges = edges.now })
        order.now index.old w.old index.new w.new result }
{
    let lent = LEAST_WORK + index.len();
    let count = stage(size, edges, order, &mut w[..lent])?;
    let n = size.vertices as usize;
    output::write(&order[..n], &mut w[LEAST_WORK..LEAST_WORK + count], index);
    Some(count)
}
