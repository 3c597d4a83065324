// A search over the states of a graph, and the edges that lead on from a state. A state is labels used * 256 + vertex.
ghost use Rattle.std.specs.Prelude.{◌≡◌, ◌+◌, ◌*◌, ◌%◌, ◌≤◌, ◌<◌, ◌^◌, length, get_or};
ghost use Rattle.model.specs.Limits.{most_vertices, label_unit};
ghost use Rattle.model.specs.Lists.{Rising};
ghost use Rattle.model.specs.Computed.Levels.{most_states};
ghost use Rattle.edges.specs.Slots.{Starts, Skipped};
ghost use Rattle.frontier.specs.Search.{Short, rising_prop, short_prop, key_of, base_of};

use model::{FROM_UNIT, LABEL_UNIT, MOST_VERTICES};

// A search from a vertex for another, by a pattern, over rising edges; and lent with them, for each vertex, the slot where its edges start.
#[derive(Drop)]
pub struct StateSearch<'a> {
    pub vertices: u32,
    pub edges: &'a [u32],
    pub pattern: &'a [u8],
    pub start: u32,
    pub destination: u32,
    pub slots: &'a [usize],
    pub ghost rises: { Rising edges.now } by { rising_prop edges.now },
    pub ghost short: { Short pattern.now } by { short_prop pattern.now },
    pub ghost starts: { Starts edges.now slots.now },
}

// The edges of one label from a vertex: those from slot `from` on that are below `end`. Edge key + to, to from 0 to 255, leads to the state
// base + to.
#[derive(Clone, Copy)]
pub struct Branch {
    pub from: usize,
    pub key: u32,
    pub base: usize,
    pub ghost end_fits: { key + label_unit < 2 ^ 32 },
    pub ghost states_fit: { base + most_vertices ≤ most_states },
}

// The place that comes after one of n places, and after the last the first: (place + 1) % n, without a division, which would take longer than the
// rest of a step.
#[tactic(auto, using(crate::proofs::Leads::after_last))]
fn place_after(place: usize, n: usize) -> usize
    requires { place < n }
    ensures { result ≡ (place + 1) % n }
{
    if place + 1 < n {
        return place + 1;
    }
    0
}

impl<'a> StateSearch<'a> {
    pub fn new(
        vertices: u32,
        edges: &'a [u32],
        slots: &'a [usize],
        pattern: &'a [u8],
        start: u32,
        destination: u32,
    ) -> StateSearch<'a>
        requires { Rising edges.now × (Starts edges.now slots.now × Short pattern.now) }
        ensures vertices { result.vertices ≡ vertices }
        ensures edges { result.edges.now ≡ edges.now }
        ensures slots { result.slots.now ≡ slots.now }
        ensures pattern { result.pattern.now ≡ pattern.now }
        ensures start { result.start ≡ start }
        ensures destination { result.destination ≡ destination }
    {
        StateSearch {
            vertices,
            edges,
            pattern,
            start,
            destination,
            slots,
        }
    }

    // The edges of the next label from state x.
    pub fn branch(&self, x: usize) -> Branch
        requires { x < length self.now.pattern.now * most_vertices }
        ensures key { result.key ≡ key_of self.now.pattern.now x }
        ensures base { result.base ≡ base_of self.now.pattern.now x }
        ensures from { Skipped self.now.edges.now result.key result.from }
    {
        let used = x / MOST_VERTICES;
        let vertex = x % MOST_VERTICES;
        let label = u32::from(self.pattern[used]);
        let key = vertex as u32 * FROM_UNIT + label * LABEL_UNIT;
        Branch {
            from: edges::skip(self.edges, self.slots[vertex], key),
            key,
            base: place_after(used, self.pattern.len()) * MOST_VERTICES,
        }
    }
}

impl Branch {
    // The first number that is too high for an edge of the branch.
    pub fn end(self) -> u32
        ensures { result ≡ self.key + label_unit }
    {
        self.key + LABEL_UNIT
    }

    // The state that an edge of the branch leads to.
    pub fn state(self, edge: u32) -> usize
        requires { (self.key ≤ edge) × (edge < self.key + label_unit) }
        ensures { result + self.key ≡ self.base + edge }
    {
        self.base + (edge - self.key) as usize
    }
}
