// The layout card read: the checks of its bytes (14 15 2 16), and its edges put into edge memory.
#![tactic(auto)]

ghost use Rattle.std.specs.Prelude.{◌≡◌, ◌+◌, ◌≤◌, ◌<◌, length, drop};
ghost use Rattle.model.specs.Limits.{head_bytes};
ghost use Rattle.model.specs.Lists.{filled};
ghost use Rattle.calls.specs.Card.{marked?, word_at, edges_of, card_edges?};
ghost use Rattle.card_reading.specs.Card.{LayoutOf, CardChecks, Fillable};

use model::{HEAD_BYTES, Refusal, Size, TRIPLE_BYTES};

const VERSION: u16 = 1;

// What a card says before its edges: the size of the layout, and how many edges it has.
#[derive(Clone, Copy)]
pub struct CardLayout {
    pub size: Size,
    pub edges: usize,
}

// Check 14.
fn is_marked(card: &[u8]) -> bool
    ensures { result ≡ marked? card.now }
{
    HEAD_BYTES <= card.len() && card.starts_with(b"PRC")
}

// A 16-bit number, high byte first.
fn word(card: &[u8], at: usize) -> u16
    requires { at + 1 < length card.now }
    ensures { result ≡ word_at card.now at }
{
    u16::from_be_bytes([card[at], card[at + 1]])
}

fn layout(card: &[u8]) -> CardLayout
    requires { head_bytes ≤ length card.now }
    ensures { LayoutOf card.now result }
{
    let size = Size {
        vertices: u32::from(card[5]) + 1,
        longest: u32::from(card[6]),
    };
    let edges = usize::from(word(card, 7));
    CardLayout { size, edges }
}

// Check 16.
fn has_edges(card: &[u8], layout: CardLayout) -> bool
    requires { LayoutOf card.now layout }
    ensures { result ≡ card_edges? card.now }
{
    card.len() == HEAD_BYTES + TRIPLE_BYTES * layout.edges
        && card_edges::are_rising(layout.size.vertices, &card[HEAD_BYTES..])
}

// The checks of the card alone, in their order: 14 15 2 16.
pub fn check(card: &[u8]) -> Result<CardLayout, Refusal>
    ensures { CardChecks card.now result }
{
    if !is_marked(card) {
        return Err(Refusal::CardMark);
    }
    if word(card, 3) != VERSION {
        return Err(Refusal::CardVersion);
    }
    let layout = layout(card);
    if !checks::is_longest(layout.size.longest) {
        return Err(Refusal::Longest);
    }
    if !has_edges(card, layout) {
        return Err(Refusal::CardEdges);
    }
    Ok(layout)
}

// Fills edge memory with the n edges of a card, and zeros behind them.
pub fn fill(card: &[u8], n: usize, edges: &mut [u32])
    requires { Fillable card.now n edges.old }
    ensures { edges.new ≡ filled (length edges.old) (edges_of (drop head_bytes card.now)) }
{
    for i in 0..n {
        edges[i] = card_edges::edge_at(card, HEAD_BYTES + TRIPLE_BYTES * i);
    }
    edges[n..].fill(0);
}
