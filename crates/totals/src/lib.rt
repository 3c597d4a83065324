// The totals of the record: how many of the standing edges have each label (document 02, Four).
#![tactic(auto)]

ghost use Rattle.std.specs.Prelude.{◌≡◌, ◌≤◌, length};
ghost use Rattle.model.specs.Limits.{most_edges};
ghost use Rattle.model.specs.Edges.{label_of, standing, totals_of};
ghost use Rattle.totals.specs.Counts.{LabelCounts};

use model::{Edge, LABELS, MOST_LABEL};

// How many counts a table of labels has.
const LABEL_FIELD: usize = LABELS as usize;

fn label_of(x: u32) -> usize
    ensures { result ≡ label_of x }
{
    Edge::from(x).label as usize
}

// Counts the labels of the standing edges in two tables: those of even slots, and behind them those of odd slots, so that equal labels in a row
// need not wait for each other.
#[tactic(auto, using(crate::proofs::Totalling::totalled_none, crate::proofs::Totalling::totalled_zero))]
fn count_labels(edges: &[u32]) -> [u32; 2 * LABEL_FIELD]
    requires { length edges.now ≤ most_edges }
    ensures { LabelCounts edges.now result }
{
    let mut counts = [0u32; 2 * LABEL_FIELD];
    let (pairs, last) = edges.as_chunks::<2>();
    for &[x, y] in pairs {
        if x == 0 {
            return counts;
        }
        counts[label_of(x)] += 1;
        if y == 0 {
            return counts;
        }
        counts[LABEL_FIELD + label_of(y)] += 1;
    }
    if let Some(&x) = last.first() {
        if x != 0 {
            counts[label_of(x)] += 1;
        }
    }
    counts
}

// How many of the standing edges have each label 1 to 8.
#[tactic(auto, using(crate::proofs::Totalling::counts_small, crate::proofs::Totalling::summed_more, crate::proofs::Totalling::each_total))]
pub fn totals(edges: &[u32]) -> [u32; MOST_LABEL]
    requires { length edges.now ≤ most_edges }
    ensures { result ≡ totals_of (standing edges.now) }
{
    let counts = count_labels(edges);
    let mut totals = [0u32; MOST_LABEL];
    for i in 0..MOST_LABEL {
        let label = i + 1;
        totals[i] = counts[label] + counts[LABEL_FIELD + label];
    }
    totals
}
