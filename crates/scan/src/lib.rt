// Index memory: check 12, in one pass that also finds how many entries stand.
#![tactic(auto)]

ghost use Rattle.std.specs.Prelude.{◌≡◌, ◌≤◌, ◌<◌, length};
ghost use Rattle.model.specs.Limits.{hub_unit};
ghost use Rattle.scan.specs.Memory.{extent_of};
ghost use Rattle.scan.specs.Scan.{slot_of, Seen, Examines, FieldEnd, Skims};

use model::{Entry, HUB_UNIT, OWNER_UNIT, SIDE_UNIT, Size, VERTICES};

// A code as it is kept: CODE_DIGITS digits fit.
type Kept = u16;

// How many slots there are for codes that have passed. With this multiplier nearly all of the 4,600 codes of four digits have a slot of their own.
const SLOTS: usize = 8192;

const MULTIPLIER: u64 = 1040391;

// The slot of a code: multiplicative hashing.
fn slot(code: u64) -> usize
    requires { code < hub_unit }
    ensures { result ≡ slot_of code }
{
    (code * MULTIPLIER / SLOTS as u64 % SLOTS as u64) as usize
}

// Whether x is an entry of the graph. If it is, its code is kept in `seen`, which spares the next with that code the test.
#[tactic(auto, using(crate::proofs::Fields::no_side))]
fn is_entry(size: Size, x: u64, seen: &mut [Kept; SLOTS]) -> bool
    requires { Seen size.longest seen.old }
    ensures { Examines size.vertices size.longest x seen.new result }
{
    let entry = Entry::from(x);
    if 2 <= entry.side {
        return false;
    }
    if size.vertices as usize <= entry.owner {
        return false;
    }
    if size.vertices as usize <= entry.hub {
        return false;
    }
    if codes::is_code(size.longest, entry.code) {
        let at = slot(entry.code);
        seen[at] = entry.code as Kept;
        return true;
    }
    false
}

// How many of the numbers that a field holds are vertices.
fn field_end(vertices: u32) -> u64
    ensures { FieldEnd vertices result }
{
    VERTICES.min(vertices as u64)
}

// Why check 12 leaves its fast loop. As each way out leads elsewhere, the compiler keeps the tests apart, which is faster than one of all.
#[derive(Clone, Copy)]
enum Exit {
    // from this slot on nothing rises
    Rest(usize),
    // side, owner or code of the entry in this slot is not known to be right
    Untested(usize),
    // a hub is none of the graph
    Stray,
}

// Goes on over the entries that rise, are below `end`, are below `hubs` by hub and code, and have a code that was seen, as nearly all do.
fn skim(index: &[u64], from: usize, prev: u64, end: u64, hubs: u64, seen: &[Kept; SLOTS]) -> Exit
    requires { from ≤ length index.now }
    ensures { Skims index.now from prev end hubs seen.now result }
{
    let mut last = prev;
    for i in from..index.len() {
        let x = index[i];
        if x <= last {
            return Exit::Rest(i);
        }
        if end <= x {
            return Exit::Untested(i);
        }
        if hubs <= x % OWNER_UNIT {
            return Exit::Stray;
        }
        let code = x % HUB_UNIT;
        let at = slot(code);
        if seen[at] != code as Kept {
            return Exit::Untested(i);
        }
        last = x;
    }
    Exit::Rest(index.len())
}

// Check 12, in one pass: how many entries stand, if this is index memory of the graph. From the last entry to `end`, side and owner are right.
pub fn scan(size: Size, index: &[u64]) -> Option<usize>
    ensures { result ≡ extent_of size.vertices size.longest index.now }
{
    // no code is kept yet; as 0 is none, its slot, 0, holds another number
    let mut seen: [Kept; SLOTS] = [0; SLOTS];
    seen[0] = 1;
    let n = field_end(size.vertices);
    let mut i = 0;
    let mut prev: u64 = 0;
    let mut end: u64 = 0;
    loop {
        match skim(index, i, prev, end, n * HUB_UNIT, &seen) {
            Exit::Stray => return None,
            Exit::Rest(at) => return memory::all_zero(&index[at..]).then_some(at),
            Exit::Untested(at) => {
                prev = index[at];
                if !is_entry(size, prev, &mut seen) {
                    return None;
                }
                end = prev / SIDE_UNIT * SIDE_UNIT + n * OWNER_UNIT;
                i = at + 1;
            }
        }
    }
}
