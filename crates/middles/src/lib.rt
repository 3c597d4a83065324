// The vertex between two patterns (document 02, Five): a table of the vertices that the first pattern leads to and one of those from which the second
// leads home, and the lowest vertex that stands in both.
#![tactic(auto)]

ghost use Rattle.std.specs.Prelude.{◌≡◌, Ok, false, ◌&&◌, ◌≤◌, length, get_or};
ghost use Rattle.model.specs.Limits.{most_vertices, least_work};
ghost use Rattle.model.specs.Lists.{keep, up_to};
ghost use Rattle.model.specs.Tables.{Tabulates};
ghost use Rattle.model.specs.Replies.{two_answered_of};
ghost use Rattle.calls.specs.QueryTwo.{lowest};
ghost use Rattle.middles.specs.Meeting.{led?, Puttable, Meeting};

use answer::Side;
use model::MOST_VERTICES;

// The lowest vertex that is marked in both tables.
pub fn lowest(
    vertices: u32,
    out: &[bool; MOST_VERTICES],
    home: &[bool; MOST_VERTICES],
) -> Option<u32>
    requires { vertices ≤ most_vertices }
    ensures { two_answered_of (Ok result)
        ≡ lowest (keep (λ v. get_or out.now v false && get_or home.now v false) (up_to vertices)) }
{
    for v in 0..vertices {
        if out[v as usize] && home[v as usize] {
            return Some(v);
        }
    }
    None
}

// The vertices to which the pattern leads from the vertex, on the out side, or from which it leads there, on the in side.
fn led(
    vertices: u32,
    side: Side,
    vertex: u32,
    pattern: &[u8],
    edges: &[u32],
    index: &[u64],
    work: &mut [u64],
) -> [bool; MOST_VERTICES]
    requires { Puttable vertices edges.now index.now pattern.now vertex × (least_work ≤ length work.old) }
    ensures { Tabulates vertices result (λ v. led? side vertices edges.now index.now pattern.now vertex v) }
{
    if patterns::minimum_repeat(pattern).times == 1 {
        return answer_tables::answers(index, side, vertex, pattern);
    }
    match side {
        Side::Out => reachable::reached(vertices, edges, pattern, vertex, work),
        Side::In => backward::reaching(vertices, edges, pattern, vertex, work),
    }
}

// Past all checks, by patterns of which one repeats itself. It leaves work memory zero.
pub fn meet(
    vertices: u32,
    start: u32,
    destination: u32,
    first: &[u8],
    second: &[u8],
    edges: &[u32],
    index: &[u64],
    work: &mut [u64],
) -> Option<u32>
    requires puttable { Puttable vertices edges.now index.now first.now start × Puttable vertices edges.now index.now second.now destination }
    requires least_work_in_bounds { least_work ≤ length work.old }
    ensures { Meeting vertices edges.now index.now first.now second.now start destination
        work.old (two_answered_of (Ok result)) work.new }
{
    let out = led(vertices, Side::Out, start, first, edges, index, work);
    let home = led(vertices, Side::In, destination, second, edges, index, work);
    work.fill(0);
    lowest(vertices, &out, &home)
}
