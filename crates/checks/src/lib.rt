// The checks that calls share: the record (1 and 2), then edge memory (3), room to build (4), ends (5 and 10), and a label (6).
#![tactic(auto)]

ghost use Rattle.std.specs.Prelude.{◌≡◌, ◌+◌, leb};
ghost use Rattle.model.specs.Limits.{least_work};
ghost use Rattle.model.specs.Replies.{answer_of};
ghost use Rattle.model.specs.Computed.Edges.{label?};
ghost use Rattle.calls.specs.Checks.{header_refusal, vertices?, longest?, ends?};
ghost use Rattle.checks.specs.LayoutChecks.{Layouts};

use model::{LEAST_WORK, Refusal, Size};

// The model's numbers, in the width of what is checked.
const MOST_VERTICES: u32 = model::MOST_VERTICES as u32;

const MOST_LONGEST: u32 = model::MOST_LONGEST as u32;

const MOST_LABEL: u32 = model::MOST_LABEL as u32;

// Check 1 alone.
fn is_vertex_count(vertices: u32) -> bool
    ensures { result ≡ vertices? vertices }
{
    (1..=MOST_VERTICES).contains(&vertices)
}

// Checks 1 and 2: vertices 1 to 256, longest pattern 1 to 4.
pub fn check_size(size: Size) -> Result<(), Refusal>
    ensures { answer_of result ≡ header_refusal size.vertices size.longest }
{
    if !is_vertex_count(size.vertices) {
        return Err(Refusal::Vertices);
    }
    if !is_longest(size.longest) {
        return Err(Refusal::Longest);
    }
    Ok(())
}

// Checks 1, 2 and 3, with which calls on edges begin: how many edges stand.
pub fn check_layout(size: Size, edges: &[u32]) -> Result<usize, Refusal>
    ensures { Layouts size edges.now result }
{
    check_size(size)?;
    edges::scan(size.vertices, edges).ok_or(Refusal::EdgeMemory)
}

// Check 2 alone, for a card, whose vertices are 1 to 256 in any case.
pub fn is_longest(longest: u32) -> bool
    ensures { result ≡ longest? longest }
{
    (1..=MOST_LONGEST).contains(&longest)
}

// Check 4, if an index is built: at least 4,096 numbers, and one more for each index slot.
pub fn has_room(slots: usize, numbers: usize) -> bool
    ensures { result ≡ leb (least_work + slots) numbers }
{
    LEAST_WORK <= numbers && slots <= numbers - LEAST_WORK
}

// Check 6: a label is 1 to 8.
pub fn is_label(label: u32) -> bool
    ensures { result ≡ label? label }
{
    (1..=MOST_LABEL).contains(&label)
}

// Checks 5 and 10: both ends, of an edge or of a query, are vertices.
pub fn are_vertices(vertices: u32, start: u32, destination: u32) -> bool
    ensures { result ≡ ends? vertices start destination }
{
    start < vertices && destination < vertices
}
