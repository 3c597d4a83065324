// The answer to a query from the entries of an index: an owner's list as a part of the index, and the joining of two lists.
#![tactic(auto)]

ghost use Rattle.std.specs.Prelude.{◌≡◌, ◌≤◌, ◌<◌};
ghost use Rattle.model.specs.Limits.{most_vertices, hub_unit};
ghost use Rattle.model.specs.Lists.{Rising, mem?};
ghost use Rattle.model.specs.Entries.{entry_of};
ghost use Rattle.model.specs.Computed.Lists.{Bracket};
ghost use Rattle.answer.specs.Parts.{side_number, other_side, Part, SideOf, ListOf, Joinable, Joins};
ghost use Rattle.answer.specs.Saying.{Answerable, Says};

use model::{Entry, HUB_UNIT, OWNER_UNIT, SIDE_UNIT};

// Which of its owner's lists an entry stands in.
#[derive(Clone, Copy)]
pub enum Side {
    Out,
    In,
}

impl Side {
    pub fn other(self) -> Side
        ensures { result ≡ other_side self }
    {
        match self {
            Side::Out => Side::In,
            Side::In => Side::Out,
        }
    }
}

// "0 for out, 1 for in"
impl From<Side> for u64 {
    ghost from_gives = { λ side n. n ≡ side_number side };

    fn from(side: Side) -> u64 {
        match side {
            Side::Out => 0,
            Side::In => 1,
        }
    }
}

// The number of an entry.
fn number(side: Side, owner: u32, hub: u32, code: u64) -> u64
    requires { (owner < most_vertices) × ((hub < most_vertices) × (code < hub_unit)) }
    ensures { result ≡ entry_of (side_number side) owner hub code }
{
    let entry = Entry {
        side: u64::from(side),
        owner: owner as usize,
        hub: hub as usize,
        code,
    };
    entry.number()
}

// The first slot whose entry is not below key.
pub fn lower_bound(index: &[u64], key: u64) -> usize
    requires { Rising index.now }
    ensures { Bracket index.now key result result }
{
    index.partition_point(|&x| x < key)
}

// Whether an entry stands.
#[tactic(auto, using(crate::proofs::Finding::found_member))]
fn has(index: &[u64], entry: u64) -> bool
    requires { Rising index.now }
    ensures { result ≡ mem? «entry» index.now }
{
    index.binary_search(&entry).is_ok()
}

// The entries from low on, below high.
fn part(index: &[u64], low: u64, high: u64) -> &[u64]
    requires { Rising index.now × (low ≤ high) }
    ensures { Part index.now low high result.now }
{
    &index[lower_bound(index, low)..lower_bound(index, high)]
}

// The entries of a side.
pub fn of_side(index: &[u64], side: Side) -> &[u64]
    requires { Rising index.now }
    ensures { SideOf index.now side result.now }
{
    let low = u64::from(side) * SIDE_UNIT;
    part(index, low, low + SIDE_UNIT)
}

// An owner's list: its entries of a side.
pub fn list(index: &[u64], side: Side, owner: u32) -> &[u64]
    requires { Rising index.now × (owner < most_vertices) }
    ensures { ListOf index.now side owner result.now }
{
    let low = u64::from(side) * SIDE_UNIT + owner as u64 * OWNER_UNIT;
    part(index, low, low + OWNER_UNIT)
}

// Whether an out list and an in list share a hub with the code. Both rise by hub, so the in list goes on where it stood.
fn join(out: &[u64], into: &[u64], code: u64) -> bool
    requires { Joinable out.now into.now }
    ensures { Joins out.now into.now code result }
{
    let mut found = false;
    let mut j = 0;
    'join: for &entry in out {
        let x = entry % OWNER_UNIT;
        if x % HUB_UNIT == code {
            while j < into.len() {
                let z = into[j] % OWNER_UNIT;
                if x == z {
                    found = true;
                    break 'join;
                }
                if x < z {
                    break;
                }
                j += 1;
            }
        }
    }
    found
}

// What follows check 12: the query by a pattern that is its own minimum repeat, put to the entries alone (no zeros behind them).
pub fn answer(index: &[u64], start: u32, destination: u32, pattern: &[u8]) -> bool
    requires { Answerable index.now pattern.now start destination }
    ensures { Says index.now pattern.now start destination result }
{
    let code = patterns::code(pattern);
    has(index, number(Side::Out, start, destination, code))
        || has(index, number(Side::In, destination, start, code))
        || join(
            list(index, Side::Out, start),
            list(index, Side::In, destination),
            code,
        )
}
