// The test of a code: whether its digits are a pattern that is its own minimum repeat, for any number of digits.
#![tactic(auto)]

ghost use Rattle.std.specs.Prelude.{◌≡◌, not, ◌<◌};
ghost use Rattle.model.specs.Limits.{code_digits, hub_unit};
ghost use Rattle.model.specs.Computed.Patterns.{keyed?, own?};
ghost use Rattle.model.specs.Computed.Query.{digits, code?};
ghost use Rattle.codes.specs.Codes.{Detects, Repeats, Spelled, Repeatable};

use model::{CODE_DIGITS, DIGIT_UNIT, HUB_UNIT, MOST_LABEL};

// Whether the digits of a code are 1 to `longest` labels.
fn are_labels(longest: u32, code: u64) -> bool
    requires { code < hub_unit }
    ensures { result ≡ keyed? longest (digits code_digits code) }
{
    let mut rest = code;
    let mut length = 0;
    for _digit in 0..CODE_DIGITS {
        // 1 if digits are left, else 0, without a branch: codes of all lengths are mixed
        let some = (rest + (HUB_UNIT - 1)) / HUB_UNIT;
        if MOST_LABEL as u64 <= (rest - some) % DIGIT_UNIT {
            return false;
        }
        rest = rest / DIGIT_UNIT;
        length += some;
    }
    1 <= length && length <= u64::from(longest)
}

// Whether the last d digits of a code, written twice or more, give it. They count up to `unit`.
fn repeats_by(code: u64, d: usize, unit: u64) -> bool
    requires { Repeatable code d unit }
    ensures { Detects (Repeats (digits code_digits code) d) result }
{
    let last = code % unit;
    let mut word = last;
    for _again in 1..CODE_DIGITS / d {
        word = word * unit + last;
        if word == code {
            return true;
        }
    }
    false
}

// Whether the digits of a code are fewer digits, written twice or more.
fn repeats(code: u64) -> bool
    requires { Spelled code }
    ensures { result ≡ not (own? (digits code_digits code)) }
{
    let mut unit = DIGIT_UNIT;
    let mut d = 1;
    while d + d <= CODE_DIGITS {
        if repeats_by(code, d, unit) {
            return true;
        }
        d += 1;
        unit = unit * DIGIT_UNIT;
    }
    false
}

// Whether a code is that of a pattern of at most `longest` labels that is its own minimum repeat.
pub fn is_code(longest: u32, code: u64) -> bool
    requires { code < hub_unit }
    ensures { result ≡ code? longest code }
{
    are_labels(longest, code) && !repeats(code)
}
