// The answers from one vertex, or to it, for all vertices at once: a table of marks, from the vertex's own list and the entries of the other side.
#![tactic(auto)]

ghost use Rattle.std.specs.Prelude.{◌<◌};
ghost use Rattle.model.specs.Limits.{most_vertices};
ghost use Rattle.model.specs.Tables.{Tabulates};
ghost use Rattle.model.specs.Computed.Query.{owner_of, hub_of};
ghost use Rattle.answer.specs.Saying.{Answerable};
ghost use Rattle.answer_tables.specs.Marking.{coded?, joined?, linked?, Marked};
ghost use Rattle.answer_tables.specs.Saying.{SaysOf};

use answer::Side;
use model::{Entry, MOST_VERTICES};

// Marks the hub of each entry that has the code.
fn mark_hubs(list: &[u64], code: u64, marks: &mut [bool; MOST_VERTICES])
    ensures { Marked (coded? code) hub_of list.now marks.old marks.new }
{
    for &x in list {
        let entry = Entry::from(x);
        if entry.code == code {
            marks[entry.hub] = true;
        }
    }
}

// Marks the owner of each entry that has the code and a marked hub.
fn mark_owners(
    entries: &[u64],
    code: u64,
    hubs: &[bool; MOST_VERTICES],
    marks: &mut [bool; MOST_VERTICES],
)
    ensures { Marked (joined? code hubs.now) owner_of entries.now marks.old marks.new }
{
    for &x in entries {
        let entry = Entry::from(x);
        if entry.code == code && hubs[entry.hub] {
            marks[entry.owner] = true;
        }
    }
}

// Every vertex that the vertex's own list and the entries of the other side join with it by the code.
#[tactic(auto, using(crate::proofs::Linking::all_marked))]
fn mark_all(own: &[u64], others: &[u64], vertex: u32, code: u64) -> [bool; MOST_VERTICES]
    requires { vertex < most_vertices }
    ensures { Tabulates most_vertices result (linked? own.now others.now vertex code) }
{
    let mut marks = [false; MOST_VERTICES];
    mark_hubs(own, code, &mut marks);
    let mut hubs = marks;
    // an entry of the other side may have the vertex itself as its hub
    hubs[vertex as usize] = true;
    mark_owners(others, code, &hubs, &mut marks);
    marks
}

// The vertices to which the query from the vertex is a yes, by its out list, or from which the query to it is one, by its in list: what follows
// check 12, as in `answer::answer`, for every other end at once.
#[tactic(auto, using(crate::proofs::Linking::says_of))]
pub fn answers(index: &[u64], side: Side, vertex: u32, pattern: &[u8]) -> [bool; MOST_VERTICES]
    requires { Answerable index.now pattern.now vertex vertex }
    ensures { SaysOf side index.now pattern.now vertex result }
{
    mark_all(
        answer::list(index, side, vertex),
        answer::of_side(index, side.other()),
        vertex,
        patterns::code(pattern),
    )
}
