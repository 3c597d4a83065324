// Where a word leads from each vertex, label by label from its end.
#![tactic(auto)]

ghost use Rattle.std.specs.Prelude.{◌≡◌};
ghost use Rattle.model.specs.Limits.{most_vertices};
ghost use Rattle.rows.specs.Region.{parent_rows};
ghost use Rattle.steps.specs.Filling.{Clears, Prependable, Prepends};
ghost use Rattle.parent_rows.specs.Steps.{half_of, ParentFillable, FillsParent, ParentClearable};

use model::{MOST_LABEL, MOST_VERTICES};

// One label more in front of a word. The word's rows are those from `from` on, the step rows or the parent's; the other half, which
// begins at rows::PARENT - from since the step rows begin at 0, becomes the rows of an edge of `first` and then the word, and the word's own
// are emptied. Of these a row has vertices only if its vertex is in row `starts` and an edge of `behind` starts there.
fn prepend(
    first: &[u32],
    behind: &[u32],
    w: &mut [u64],
    from: usize,
    starts: usize,
    live: &mut [u32],
)
    requires { Prependable first.now behind.now w.old from starts live.old }
    ensures { Prepends first.now w.old w.new from }
{
    let to = rows::PARENT - from;
    let n = steps::gather(first, w, starts, live);
    steps::fill(&live[..n], w, from, to);
    steps::clear_sources(behind, w, from);
}

// The half that the labels from number i on fill: the parent's rows at even numbers, and the step rows, which begin at 0, at odd ones.
fn half(i: usize) -> usize
    ensures { result ≡ half_of i }
{
    rows::PARENT - i % 2 * MOST_VERTICES
}

// Makes row a of the parent's rows, for every vertex a, the vertices to which the word leads from a, label by label from its end: the step
// rows and the parent's take turns, so that the first label fills the parent's. Of each label only the edges count that end where the labels
// behind it can be spelled; every suffix of the word has its child row. The step rows are empty afterwards.
pub fn fill_parent(edges: &[u32], slots: &[usize], word: &[u8], w: &mut [u64], live: &mut [u32])
    requires { ParentFillable edges.now slots.now word.now w.old live.old }
    ensures { FillsParent edges.now word.now w.old w.new }
{
    if word.is_empty() {
        steps::fill_identity(w, rows::PARENT);
        return;
    }
    let last = word.len() - 1;
    let ends = steps::labelled(edges, slots, word[last] as usize);
    steps::fill_ends(ends, w, half(last));
    for i in (0..last).rev() {
        let c = word[i + 1] as usize;
        let starts = rows::CHILDREN + MOST_LABEL * (last - 1 - i) + c - 1;
        let first = steps::labelled(edges, slots, word[i] as usize);
        let behind = steps::labelled(edges, slots, c);
        prepend(first, behind, w, half(i + 1), starts, live);
    }
}

// Empties the parent's rows, which the word has filled.
pub fn clear_parent(edges: &[u32], slots: &[usize], word: &[u8], w: &mut [u64])
    requires { ParentClearable edges.now slots.now word.now w.old }
    ensures { Clears w.old w.new parent_rows most_vertices }
{
    let Some(&c) = word.first() else {
        steps::clear_rows(w, rows::PARENT, MOST_VERTICES);
        return;
    };
    steps::clear_sources(steps::labelled(edges, slots, c as usize), w, rows::PARENT);
}
