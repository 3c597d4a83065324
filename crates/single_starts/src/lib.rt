// The entries of the starts whose walks are one step: a pattern's steps as they are, if no second step follows them.
#![tactic(auto)]

ghost use Rattle.std.specs.Prelude.{◌<◌};
ghost use Rattle.model.specs.Build.Hubs.{Direct};
ghost use Rattle.rows.specs.Region.{row_numbers};
ghost use Rattle.rows.specs.Rows.{StepsTo};
ghost use Rattle.staging.specs.Stage.{AllRows, Stages};
ghost use Rattle.single_starts.specs.Single.{StepsWithin, StepsStageable, SinglesStageable, StagesSingles};

use model::Edge;
use rows::{BITS, REST, ROW};
use staging::Code;

// Stages, behind the first cnt, the entries for the steps from s to the vertices in number i of its row. Returns how many are staged then, or
// None if there are more than slots.
fn stage_number(w: &mut [u64], s: usize, i: usize, code: Code, cnt: usize) -> Option<usize>
    requires { StepsStageable w.old s cnt × (i < row_numbers) }
    ensures { Stages w.old AllRows (Direct (StepsWithin w.old i) code.number s) cnt w.new result }
{
    let mut n = cnt;
    let mut x = w[s * ROW + i];
    while x != 0 {
        let z = x.trailing_zeros() as usize;
        n = staging::put(w, n, staging::joined(s, i * BITS + z, code))?;
        x &= x - 1;
    }
    Some(n)
}

// Stages, behind the first cnt, the entries for the steps from s; returns as stage_number does.
fn stage_steps(w: &mut [u64], s: usize, code: Code, cnt: usize) -> Option<usize>
    requires { StepsStageable w.old s cnt }
    ensures { Stages w.old AllRows (Direct (StepsTo w.old) code.number s) cnt w.new result }
{
    let mut n = cnt;
    for i in 0..ROW {
        n = stage_number(w, s, i, code, n)?;
    }
    Some(n)
}

// Stages, behind the first cnt, the entries of the starts whose walks are one step, and leaves the other starts in row REST. Every vertex that
// steps anywhere is in row `domain`, and an edge of the list starts at each vertex of it; returns as stage_steps does.
pub fn stage_singles(
    edges: &[u32],
    w: &mut [u64],
    domain: usize,
    code: Code,
    cnt: usize,
) -> Option<usize>
    requires { SinglesStageable edges.now w.old domain cnt }
    ensures { StagesSingles w.old domain code.number cnt w.new result }
{
    rows::copy(w, REST, domain);
    let mut n = cnt;
    for &x in edges {
        let s = Edge::from(x).from as usize;
        if rows::bit(w, REST, s) == 1 && rows::common(w, s, domain).is_none() {
            n = stage_steps(w, s, code, n)?;
            rows::unmark(w, REST, s);
        }
    }
    Some(n)
}
