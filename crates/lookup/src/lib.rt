// The minimum repeat looked up in a constant table (document 02, One): for every slice of bytes what the recursion of `patterns` computes.
#![tactic(auto)]

mod constant;

ghost use Rattle.std.specs.Prelude.{◌≡◌, true, ◌-◌, ◌≤◌, ◌<◌, T, length, get_or};
ghost use Rattle.model.specs.Limits.{most_label, table_longest, table_size};
ghost use Rattle.model.specs.Patterns.{Keyed};
ghost use Rattle.model.specs.Computed.Patterns.{folded_length, times_written};
ghost use Rattle.model.specs.Computed.Table.{repeat_lengths, shorter, place};
ghost use Rattle.lookup.specs.Table.{starts_right?, tested?};

use constant::LENGTHS;
use model::{TABLE_LONGEST, TABLE_SIZE};
use patterns::Folded;

// The model's number, in the width of what is checked.
const LONGEST: u32 = TABLE_LONGEST as u32;

const LABELS: usize = model::MOST_LABEL;

// Where the patterns of 1, 2, 3 and 4 labels start: behind all shorter ones.
const STARTS: [usize; TABLE_LONGEST] = [0, 8, 72, 584];

// Where the patterns of so many labels start.
fn start_of(starts: &[usize; TABLE_LONGEST], labels: usize) -> usize
    requires { T (starts_right? starts.now) × ((1 ≤ labels) × (labels ≤ table_longest)) }
    ensures { result ≡ shorter labels }
{
    starts[labels - 1]
}

// A label of a pattern as a digit, 0 to 7.
fn digit(pattern: &[u8], i: usize) -> usize
    requires { Keyed table_longest pattern.now × (i < length pattern.now) }
    ensures { (result ≡ get_or pattern.now i 0 - 1) × (result < most_label) }
{
    pattern[i] as usize - 1
}

// The place of a pattern in the table: behind the shorter ones, its labels are digits, the first leftmost.
fn place(pattern: &[u8]) -> usize
    requires { Keyed table_longest pattern.now }
    ensures { result ≡ place pattern.now }
{
    let n = pattern.len();
    let start = start_of(&STARTS, n);
    let mut digits = 0;
    for i in 0..n {
        digits = digits * LABELS + digit(pattern, i);
    }
    start + digits
}

// The number at a place of the table. What is required of the table is the one test that ties it to the definition.
fn length_at(table: &[u8; TABLE_SIZE], place: usize) -> u8
    requires { T (tested? table.now) × (place < table_size) }
    ensures { result ≡ get_or repeat_lengths place 0 }
{
    table[place]
}

// The minimum repeat, looked up. Length and times are 0 unless the pattern has 1 to 4 labels 1 to 8.
pub fn minimum_repeat(pattern: &[u8]) -> Folded
    ensures { (result.length ≡ folded_length pattern.now) × (result.times ≡ times_written pattern.now) }
{
    if patterns::is_keyed(LONGEST, pattern) {
        let length = length_at(&LENGTHS, place(pattern)) as usize;
        Folded {
            length,
            times: pattern.len() / length,
        }
    } else {
        Folded {
            length: 0,
            times: 0,
        }
    }
}

// "The computed leaf stays, and the two agree on every pattern": true of every slice of bytes.
pub fn agree(pattern: &[u8]) -> bool
    ensures { result ≡ true }
{
    minimum_repeat(pattern) == patterns::minimum_repeat(pattern)
}
