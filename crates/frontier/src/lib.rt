// One level of states from the one before, over work memory; a state is labels used * 256 + vertex.
#![tactic(auto)]

ghost use Rattle.std.specs.Prelude.{◌≡◌, ◌+◌, ◌*◌, ◌≤◌, ◌<◌, ◌^◌, length};
ghost use Rattle.model.specs.Limits.{most_vertices};
ghost use Rattle.model.specs.States.{Leads};
ghost use Rattle.model.specs.Computed.Levels.{most_states};
ghost use Rattle.frontier.specs.Work.{Room, Grown, LedTo, Fit};

mod state_search;

use model::{MOST_LONGEST, MOST_VERTICES};
pub use state_search::{Branch, StateSearch};
use std::ops::Range;

// Work memory: a mark for each state, then the queue of states reached.
pub const QUEUE: usize = MOST_LONGEST * MOST_VERTICES;

// Marks the state y and queues it, if it is not marked yet.
#[tactic(auto, using(crate::proofs::Grow::room_left))]
fn reach(work: &mut [u64], y: usize, tail: usize) -> usize
    requires { Room work.old tail × (y < most_states) }
    ensures { Grown work.old tail work.new result (λ x. x ≡ y) }
{
    if work[y] == 1 {
        return tail;
    }
    work[y] = 1;
    work[QUEUE + tail] = y as u64;
    tail + 1
}

// Reaches every state that an edge of the next label leads to from state x.
fn expand(search: &StateSearch, x: usize, work: &mut [u64], tail: usize) -> usize
    requires { Room work.old tail × (x < length search.now.pattern.now * most_vertices) }
    ensures { Grown work.old tail work.new result (Leads search.now.edges.now search.now.pattern.now x) }
{
    let branch = search.branch(x);
    let mut n = tail;
    for &edge in &search.edges[branch.from..] {
        if branch.end() <= edge {
            break;
        }
        n = reach(work, branch.state(edge), n);
    }
    n
}

// Builds the next level from the level before: both are parts of the queue, the one behind the other.
#[tactic(auto, using(crate::proofs::Grow::room_top))]
pub fn next_level(search: &StateSearch, work: &mut [u64], level: Range<usize>) -> Range<usize>
    requires { Room work.old level.end × (Fit search.now.pattern.now work.old level.start level.end × (level.start ≤ level.end)) }
    ensures start { result.start ≡ level.end }
    ensures grown { Grown work.old level.end work.new result.end (LedTo search.now.edges.now search.now.pattern.now work.old level.start level.end) }
{
    let mut end = level.end;
    for k in level.start..level.end {
        let x = work[QUEUE + k] as usize;
        end = expand(search, x, work, end);
    }
    level.end..end
}
