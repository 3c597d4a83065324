// The layout card written: its checks (1 2 3 17), and its bytes.
#![tactic(auto)]

ghost use Rattle.std.specs.Prelude.{◌≡◌, [], ◌++◌, ◌+◌, ◌*◌, length, drop};
ghost use Rattle.model.specs.Limits.{head_bytes, triple_bytes};
ghost use Rattle.model.specs.Computed.Lists.{spread};
ghost use Rattle.calls.specs.Card.{edge_bytes, card_of};
ghost use Rattle.card_writing.specs.Card.{WriteChecks, Head, head_of, Body, Writable};

use model::{Edge, HEAD_BYTES, Refusal, Size, TRIPLE_BYTES};

// The mark first, then version, vertices less one, k and the edge count.
fn write_head(size: Size, n: usize, output: &mut [u8])
    requires { Head size.vertices size.longest n output.old }
    ensures { output.new ≡ head_of size.vertices size.longest n ++ drop head_bytes output.old }
{
    let (places, longest) = ((size.vertices - 1) as u8, size.longest as u8);
    let [high, low] = (n as u16).to_be_bytes();
    let head = [b'P', b'R', b'C', 0, 1, places, longest, high, low];
    output[..HEAD_BYTES].copy_from_slice(&head);
}

// From, label and to of each edge.
fn write_edges(edges: &[u32], output: &mut [u8])
    requires { Body edges.now output.old }
    ensures { output.new ≡ spread edge_bytes edges.now ++ drop (triple_bytes * length edges.now) output.old }
{
    for (i, &x) in edges.iter().enumerate() {
        let edge = Edge::from(x);
        let at = TRIPLE_BYTES * i;
        output[at] = edge.from as u8;
        output[at + 1] = edge.label as u8;
        output[at + 2] = edge.to as u8;
    }
}

// Writes the card of a layout's size and its edges to the front of the output, and nothing behind it.
#[tactic(auto, using(crate::proofs::Writing::body_lent, crate::proofs::Writing::card_written))]
pub fn write(size: Size, edges: &[u32], output: &mut [u8])
    requires { Writable size edges.now output.old }
    ensures { output.new ≡ card_of size edges.now ++ drop (head_bytes + triple_bytes * length edges.now) output.old }
{
    write_head(size, edges.len(), output);
    write_edges(edges, &mut output[HEAD_BYTES..]);
}

// The checks of a card that is written: 1 2 3 17.
pub fn check_write(size: Size, edges: &[u32], output: &[u8]) -> Result<usize, Refusal>
    ensures { WriteChecks size (record { edges = edges.now; index = []; work = []; output = output.now }) result }
{
    let n = checks::check_layout(size, edges)?;
    if output.len() < HEAD_BYTES + TRIPLE_BYTES * n {
        return Err(Refusal::CardOutput);
    }
    Ok(n)
}
