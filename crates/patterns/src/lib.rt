// Patterns: check 11, the minimum repeat, and the code of a pattern.
#![tactic(auto)]

ghost use Rattle.std.specs.Prelude.{◌≡◌, ◌≤◌, length};
ghost use Rattle.model.specs.Limits.{most_longest};
ghost use Rattle.model.specs.Patterns.{code, Keyed};
ghost use Rattle.model.specs.Computed.Patterns.{keyed?, folded_length, times_written};
ghost use Rattle.patterns.specs.Repeats.{repeats?, length_from};

use model::DIGIT_UNIT;

// The model's numbers, in the width of what is checked.
const MOST_LONGEST: u32 = model::MOST_LONGEST as u32;

const MOST_LABEL: u8 = model::MOST_LABEL as u8;

// The minimum repeat of a pattern, which is its first `length` labels, and how many times it was written.
#[derive(Clone, Copy, PartialEq)]
pub struct Folded {
    pub length: usize,
    pub times: usize,
}

// Check 11: 1 to `longest` labels, each 1 to 8.
#[tactic(auto, using(crate::proofs::Keying::too_long))]
pub fn is_keyed(longest: u32, pattern: &[u8]) -> bool
    ensures { result ≡ keyed? longest pattern.now }
{
    if pattern.is_empty() {
        return false;
    }
    if (longest as usize) < pattern.len() {
        return false;
    }
    pattern.iter().all(|label| (1..=MOST_LABEL).contains(label))
}

// Whether the first d labels, written some whole number of times, give the pattern.
#[tactic(auto, using(crate::proofs::Lengths::repeats_part, crate::proofs::Lengths::repeats_all))]
fn repeats(pattern: &[u8], d: usize) -> bool
    requires { (1 ≤ d) × (d ≤ length pattern.now) }
    ensures { result ≡ repeats? pattern.now d }
{
    if pattern.len() % d != 0 {
        return false;
    }
    for i in d..pattern.len() {
        if pattern[i] != pattern[i - d] {
            return false;
        }
    }
    true
}

// Tries one length after another from d.
fn length_from(pattern: &[u8], d: usize) -> usize
    requires { (1 ≤ d) × (d ≤ length pattern.now) }
    ensures { result ≡ length_from pattern.now d }
{
    if pattern.len() <= d {
        return d;
    }
    if repeats(pattern, d) {
        return d;
    }
    length_from(pattern, d + 1)
}

// The minimum repeat, found by a recursion that tries one length after another from 1. Length and times are 0 unless the pattern has 1 to 4
// labels 1 to 8.
pub fn minimum_repeat(pattern: &[u8]) -> Folded
    ensures { (result.length ≡ folded_length pattern.now) × (result.times ≡ times_written pattern.now) }
{
    if is_keyed(MOST_LONGEST, pattern) {
        let length = length_from(pattern, 1);
        Folded {
            length,
            times: pattern.len() / length,
        }
    } else {
        Folded {
            length: 0,
            times: 0,
        }
    }
}

// The labels as hexadecimal digits, the first leftmost.
pub fn code(pattern: &[u8]) -> u64
    requires { Keyed most_longest pattern.now }
    ensures { result ≡ code pattern.now }
{
    let mut digits = 0;
    for &label in pattern {
        digits = digits * DIGIT_UNIT + u64::from(label);
    }
    digits
}
