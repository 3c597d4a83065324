// The lines of the listing: its header, and one for each entry. Each function writes behind the text that stands there already.
#![tactic(auto)]

ghost use Rattle.std.specs.Prelude.{◌≡◌, ◌+◌, ◌*◌, ◌^◌, ◌≤◌, ◌<◌, ◌++◌, length};
ghost use Rattle.model.specs.Computed.Lists.{spread};
ghost use Rattle.printing.specs.Lines.{side_line, entry_line, header_line, listing};

use model::{Entry, MOST_LONGEST, Size};
use printing::{Counts, Text};

// The model's number, in the width of what is printed.
const DIGIT_UNIT: u32 = model::DIGIT_UNIT as u32;

// The line of an entry: side, owner, hub, labels.
#[tactic(auto, using(printing::proofs::Putting::line_lengths), unfolding(printing::specs::Lines::side_line, printing::specs::Lines::entry_line))]
pub fn put_entry<const ROOM: usize>(text: &mut Text<ROOM>, entry: u64)
    requires { length text.old + 32 ≤ ROOM }
    ensures { text.new ≡ text.old ++ entry_line entry }
{
    let entry = Entry::from(entry);
    let side: &[u8] = if entry.side == 0 { b"out " } else { b"in " };
    text.put_field(side, entry.owner as u32);
    text.put_field(b" ", entry.hub as u32);
    text.put(b' ');
    text.put_digits(entry.code as u32, DIGIT_UNIT, MOST_LONGEST);
    text.put(b'\n');
}

// One line for each entry.
#[tactic(auto, using(printing::proofs::Putting::entry_lines))]
pub fn put_entries<const ROOM: usize>(text: &mut Text<ROOM>, entries: &[u64])
    requires { length text.old + length entries.now * 32 ≤ ROOM }
    ensures { text.new ≡ text.old ++ spread entry_line entries.now }
{
    for &entry in entries {
        put_entry(text, entry);
    }
}

// The header line.
#[tactic(auto, using(printing::proofs::Putting::line_lengths), unfolding(printing::specs::Lines::header_line))]
pub fn put_header<const ROOM: usize>(text: &mut Text<ROOM>, layout: Counts)
    requires { length text.old + 72 ≤ ROOM }
    ensures { text.new ≡ text.old ++ header_line layout.size.vertices layout.size.longest layout.edges layout.entries }
{
    text.put_counts(layout);
    text.put(b'\n');
}

// The whole listing of a card: its header, and a line for each entry.
#[tactic(auto, using(printing::proofs::Putting::line_lengths), unfolding(printing::specs::Lines::listing))]
pub fn put_listing<const ROOM: usize>(
    text: &mut Text<ROOM>,
    size: Size,
    edges: u32,
    entries: &[u64],
)
    requires { (length entries.now < 2 ^ 32) × (length text.old + 72 + length entries.now * 32 ≤ ROOM) }
    ensures { text.new ≡ text.old ++ listing size.vertices size.longest edges entries.now }
{
    let layout = Counts {
        size,
        edges,
        entries: entries.len() as u32,
    };
    put_header(text, layout);
    put_entries(text, entries);
}
