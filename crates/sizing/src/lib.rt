// What a card's layout needs, as a line: how many entries, and the bytes of index and work memory for them, or the refusal; found by reading the card
// into lent memory.
#![tactic(auto)]

ghost use Rattle.std.specs.Prelude.{◌≡◌, []};
ghost use Rattle.model.specs.Replies.{number_of};
ghost use Rattle.calls.specs.Call.{lent};
ghost use Rattle.sizing.specs.Sizing.{Measurable, refusal_line, sized_in};

use model::Refusal;
use printing::{Counts, Text};

// The longest line.
pub const ROOM: usize = 117;

// The line of a card that is refused, or that needs more entries than so many slots.
fn put_refusal(text: &mut Text<ROOM>, slots: u32, refusal: Refusal)
    requires { text.old ≡ [] }
    ensures { text.new ≡ refusal_line slots (number_of refusal) }
{
    match refusal {
        Refusal::IndexSlots => size_lines::put_over(text, slots),
        _ => text.put_refused(u32::from(refusal)),
    }
}

// The line of the card.
pub fn measure(card: &[u8], edges: &mut [u32], index: &mut [u64], work: &mut [u64]) -> Text<ROOM>
    requires { Measurable edges.old index.old }
    ensures { result ≡ sized_in (lent edges.old index.old work.old) card.now }
{
    let mut text = Text::new();
    match store::read_card(card, edges, index, work) {
        Err(refusal) => put_refusal(&mut text, index.len() as u32, refusal),
        Ok(header) => {
            let layout = Counts {
                size: header.size,
                edges: memory::standing(edges) as u32,
                entries: memory::standing(index) as u32,
            };
            size_lines::put_sizes(&mut text, layout);
        }
    }
    text
}
