// The edges that a card's bytes name, three bytes each: from, label, to.
#![tactic(auto)]

ghost use Rattle.std.specs.Prelude.{◌≡◌, ◌&&◌, ◌+◌, ◌%◌, ◌<◌, length, get_or};
ghost use Rattle.model.specs.Limits.{triple_bytes};
ghost use Rattle.model.specs.Computed.Edges.{label?};
ghost use Rattle.calls.specs.Checks.{ends?};
ghost use Rattle.calls.specs.Card.{edge_at, rising_triples?};

use model::{Edge, FROM_UNIT, LABEL_UNIT, TRIPLE_BYTES};

// The three bytes from `at` on as the fields of an edge, whether it is one or not.
fn fields_at(bytes: &[u8], at: usize) -> Edge
    requires { at + 2 < length bytes.now }
    ensures { result ≡ record { from = get_or bytes.now at 0; label = get_or bytes.now (at + 1) 0; to = get_or bytes.now (at + 2) 0 } }
{
    Edge {
        from: u32::from(bytes[at]),
        label: u32::from(bytes[at + 1]),
        to: u32::from(bytes[at + 2]),
    }
}

// Whether they are an edge of a layout with so many vertices. Ends and label are compared as they stand.
fn is_edge(vertices: u32, edge: Edge) -> bool
    ensures { result ≡ (ends? vertices edge.from edge.to && label? edge.label) }
{
    checks::are_vertices(vertices, edge.from, edge.to) && checks::is_label(edge.label)
}

// The number of the edge that the three bytes name. (`Edge::number` is for the labels of edges alone.)
pub fn edge_at(bytes: &[u8], at: usize) -> u32
    requires { at + 2 < length bytes.now }
    ensures { result ≡ edge_at bytes.now at }
{
    let edge = fields_at(bytes, at);
    edge.from * FROM_UNIT + edge.label * LABEL_UNIT + edge.to
}

// Whether the edges named by the bytes are rising edges of a layout with so many vertices.
pub fn are_rising(vertices: u32, body: &[u8]) -> bool
    requires { length body.now % triple_bytes ≡ 0 }
    ensures { result ≡ rising_triples? vertices 0 body.now }
{
    let mut prev = 0;
    for i in 0..body.len() / TRIPLE_BYTES {
        let edge = fields_at(body, TRIPLE_BYTES * i);
        if !is_edge(vertices, edge) {
            return false;
        }
        let x = edge.number();
        if x <= prev {
            return false;
        }
        prev = x;
    }
    true
}
