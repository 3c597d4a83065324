// The table of document 02, One, printed from its definition: the length of the minimum repeat of each pattern of one to four labels, shorter
// patterns first and then by code, one number a line.
#![tactic(auto)]

ghost use Rattle.std.specs.Prelude.{◌≡◌, [], ◌+◌, ◌*◌, ◌^◌, ◌≤◌, ◌<◌, ◌++◌, length, get_or};
ghost use Rattle.model.specs.Limits.{most_label, table_longest};
ghost use Rattle.model.specs.Computed.Lists.{spread};
ghost use Rattle.model.specs.Computed.Patterns.{words};
ghost use Rattle.model.specs.Computed.Table.{repeat_lengths};
ghost use Rattle.printing.specs.Lines.{number_line};
ghost use Rattle.repeat_table.specs.Lengths.{lengths, LinesFit};

use model::TABLE_SIZE;
use printing::Text;
use std::io;

const LABELS: usize = model::MOST_LABEL;

// A line for each number, of eleven bytes at most.
const TABLE_ROOM: usize = 11 * TABLE_SIZE;

// Spells the word of as many labels as the slice has that stands at a number by rising code.
fn spell(word: &mut [u8], number: usize)
    requires { number < most_label ^ length word.old }
    ensures { word.new ≡ get_or (words (length word.old)) number [] }
{
    let mut rest = number;
    for i in (0..word.len()).rev() {
        word[i] = (rest % LABELS) as u8 + 1;
        rest /= LABELS;
    }
}

// The length of the minimum repeat of that word, of N labels.
fn length_at<const N: usize>(number: usize) -> u32
    requires { ((1 ≤ N) × (N ≤ table_longest)) × (number < most_label ^ N) }
    ensures { result ≡ get_or (lengths N) number 0 }
{
    let mut word = [0u8; N];
    spell(&mut word, number);
    patterns::minimum_repeat(&word).length as u32
}

// A line for each pattern of N labels: `count` of them.
#[tactic(auto, using(crate::proofs::Listed::length_lines))]
fn put_lengths<const N: usize, const ROOM: usize>(text: &mut Text<ROOM>, count: usize)
    requires { LinesFit N count (length text.old) ROOM }
    ensures { text.new ≡ text.old ++ spread number_line (lengths N) }
{
    for number in 0..count {
        text.put_number(length_at::<N>(number));
    }
}

// Puts the whole table into a text that is empty. (The text is lent, so that it stands once on the stack.)
#[tactic(auto, using(crate::proofs::Listed::part_lengths))]
fn table(text: &mut Text<TABLE_ROOM>)
    requires { text.old ≡ [] }
    ensures { text.new ≡ spread number_line repeat_lengths }
{
    put_lengths::<1, TABLE_ROOM>(text, 8);
    put_lengths::<2, TABLE_ROOM>(text, 64);
    put_lengths::<3, TABLE_ROOM>(text, 512);
    put_lengths::<4, TABLE_ROOM>(text, 4096);
}

fn main(rt: HostRuntime) -> io::Result<()> {
    let mut text = Text::new();
    table(&mut text);
    rt.stdout().write_all(text.as_bytes())
}
