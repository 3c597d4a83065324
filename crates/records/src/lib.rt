// The record as ten numbers in memory, as the C interface hands it back.
#![tactic(auto)]

ghost use Rattle.std.specs.Prelude.{◌≡◌, ◌∷◌, length};
ghost use Rattle.records.specs.Record.{record_numbers};

use model::{MOST_LABEL, Size};

// Writes a record: its two numbers, and the totals behind them.
pub fn write_record(words: &mut [u32], size: Size, totals: [u32; MOST_LABEL])
    requires { length words.old ≡ record_numbers }
    ensures { words.new ≡ size.vertices ∷ size.longest ∷ totals }
{
    words[0] = size.vertices;
    words[1] = size.longest;
    words[2..].copy_from_slice(&totals);
}
