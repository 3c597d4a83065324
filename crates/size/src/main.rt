// The program size: takes the first 4,096 bytes of standard input as a card, and prints how many entries the layout needs and the bytes of index
// and work memory for them, or the refusal.
#![tactic(auto)]

ghost use Rattle.std.specs.Prelude.{◌≡◌};
ghost use Rattle.size.specs.Sizing.{sized};

use model::{LEAST_WORK, MOST_EDGES};
use printing::Text;
use sizing::ROOM;
use std::io;

// Slots of index memory. It and work memory stand on the stack: 4.2 MB of the 8 MB that a program has. A layout that needs more is told so.
const SLOTS: usize = 1 << 18;

// The bytes of standard input that are taken as a card, at most.
const CARD_ROOM: usize = 4096;

// What is printed for the card.
fn measure(card: &[u8]) -> Text<ROOM>
    ensures { result ≡ sized card.now }
{
    let mut edges = [0u32; MOST_EDGES];
    let mut index = [0u64; SLOTS];
    let mut work = [0u64; LEAST_WORK + SLOTS];
    sizing::measure(card, &mut edges, &mut index, &mut work)
}

fn main(rt: HostRuntime) -> io::Result<()> {
    let mut card = [0u8; CARD_ROOM];
    let n = card_input::fill(&mut rt.stdin(), &mut card)?;
    rt.stdout().write_all(measure(&card[..n]).as_bytes())
}
