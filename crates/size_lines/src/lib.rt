// The lines of the program size: what a layout needs, or that it needs more than the program has. Each function writes behind the text that stands
// there already.
#![tactic(auto)]

ghost use Rattle.std.specs.Prelude.{◌≡◌, ◌+◌, ◌^◌, ◌≤◌, ◌<◌, ◌++◌, length};
ghost use Rattle.model.specs.Limits.{least_work};
ghost use Rattle.printing.specs.Lines.{bytes_of, size_line, over_line};

use model::LEAST_WORK;
use printing::{Counts, Text};

// A slot of index memory and a number of work memory have 64 bits.
const SLOT_BYTES: u32 = 8;

// The line of a layout that needs so many entries: what the header line says, and the bytes of index and work memory.
#[tactic(auto, using(printing::proofs::Putting::line_lengths), unfolding(printing::specs::Lines::size_line))]
pub fn put_sizes<const ROOM: usize>(text: &mut Text<ROOM>, layout: Counts)
    requires { (bytes_of (least_work + layout.entries) < 2 ^ 32) × (length text.old + 117 ≤ ROOM) }
    ensures { text.new ≡ text.old ++ size_line layout.size.vertices layout.size.longest layout.edges layout.entries }
{
    text.put_counts(layout);
    text.put_field(b" index ", layout.entries * SLOT_BYTES);
    text.put_field(
        b" bytes work ",
        (LEAST_WORK as u32 + layout.entries) * SLOT_BYTES,
    );
    text.put_text(b" bytes\n");
}

// The line of a layout that needs more entries than so many.
#[tactic(auto, using(printing::proofs::Putting::line_lengths), unfolding(printing::specs::Lines::over_line))]
pub fn put_over<const ROOM: usize>(text: &mut Text<ROOM>, slots: u32)
    requires { length text.old + 24 ≤ ROOM }
    ensures { text.new ≡ text.old ++ over_line slots }
{
    text.put_field(b"over ", slots);
    text.put_text(b" entries\n");
}
