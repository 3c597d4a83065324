// The entries of the other starts, from the closed step rows.
#![tactic(auto)]

ghost use Rattle.model.specs.Build.Hubs.{Joined};
ghost use Rattle.rows.specs.Rows.{StepsTo};
ghost use Rattle.staging.specs.Stage.{Stages, Unpicked, Stageable, VertexStageable, RestEntry};

use rows::{PICKED, REST};
use staging::Code;

// Stages, behind the first cnt, the entries of start s: the vertices of its closed row, less the rows of those taken before that are earlier
// than s. As the rows are closed, what a vertex that was struck out leads to is struck out as well. Returns how many are staged then, or None if
// there are more than slots.
fn stage_vertex(w: &mut [u64], s: usize, code: Code, cnt: usize) -> Option<usize>
    requires { VertexStageable w.old s cnt }
    ensures { Stages w.old Unpicked (Joined (StepsTo w.old) code.number s) cnt w.new result }
{
    rows::copy(w, PICKED, s);
    let mut n = cnt;
    let mut next_end = 0;
    while let Some(u) = rows::next(w, PICKED, next_end) {
        n = staging::put(w, n, staging::joined(s, u, code))?;
        if u < s {
            rows::subtract(w, PICKED, PICKED, u);
        }
        next_end = u + 1;
    }
    Some(n)
}

// Stages, behind the first cnt, the entries of the starts in row REST. Returns as stage_vertex does.
pub fn stage(w: &mut [u64], code: Code, cnt: usize) -> Option<usize>
    requires { Stageable w.old cnt }
    ensures { Stages w.old Unpicked (RestEntry w.old code.number) cnt w.new result }
{
    let mut n = cnt;
    let mut next_start = 0;
    while let Some(s) = rows::next(w, REST, next_start) {
        n = stage_vertex(w, s, code, n)?;
        next_start = s + 1;
    }
    Some(n)
}
