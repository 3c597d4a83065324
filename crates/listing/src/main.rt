// The listing program: takes the first 4,096 bytes of standard input as a card, and prints the layout's index, or the refusal.
#![tactic(auto)]

ghost use Rattle.std.specs.Prelude.{◌≡◌, []};
ghost use Rattle.listing.specs.Listing.{printed};

use model::{LEAST_WORK, MOST_EDGES};
use printing::Text;
use std::io;

// "index memory 1,024 slots"
const SLOTS: usize = 1024;

// The bytes of standard input that are taken as a card, at most.
const CARD_ROOM: usize = 4096;

// A header line and a line for each slot.
const ROOM: usize = 72 + 32 * SLOTS;

// Puts what is printed for the card into a text that is empty. (The text is lent, so that it stands once on the stack.)
#[tactic(auto, using(memory::proofs::Reading::standing_within))]
fn list(card: &[u8], text: &mut Text<ROOM>)
    requires { text.old ≡ [] }
    ensures { text.new ≡ printed card.now }
{
    let mut edges = [0u32; MOST_EDGES];
    let mut index = [0u64; SLOTS];
    let mut work = [0u64; LEAST_WORK + SLOTS];
    match store::read_card(card, &mut edges, &mut index, &mut work) {
        Err(refusal) => text.put_refused(u32::from(refusal)),
        Ok(header) => {
            let m = memory::standing(&edges[..]);
            let n = memory::standing(&index[..]);
            listing_lines::put_listing(text, header.size, m as u32, &index[..n]);
        }
    }
}

fn main(rt: HostRuntime) -> io::Result<()> {
    let mut card = [0u8; CARD_ROOM];
    let n = card_input::fill(&mut rt.stdin(), &mut card)?;
    let mut text = Text::new();
    list(&card[..n], &mut text);
    rt.stdout().write_all(text.as_bytes())
}
