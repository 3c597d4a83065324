// Staging: the entry for a walk, and entries put one behind another into the slots of work memory behind its rows (specs/).
#![tactic(auto)]

ghost use Rattle.std.specs.Prelude.{◌≡◌, ◌<◌};
ghost use Rattle.model.specs.Limits.{most_vertices, hub_unit};
ghost use Rattle.model.specs.Build.Hubs.{joining};
ghost use Rattle.staging.specs.Stage.{HasTaken, AllRows, Stages};

use model::{Entry, LEAST_WORK};

// The code of a pattern, for which an entry has room.
#[derive(Clone, Copy)]
pub struct Code {
    pub number: u64,
    ghost fits: { number < hub_unit },
}

// The entry for a walk from s to t: the later of the two owns it.
pub fn joined(s: usize, t: usize, code: Code) -> u64
    requires { (s < most_vertices) × (t < most_vertices) }
    ensures { result ≡ joining code.number s t }
{
    let (side, owner, hub) = if s < t { (1, t, s) } else { (0, s, t) };
    let entry = Entry {
        side,
        owner,
        hub,
        code: code.number,
    };
    entry.number()
}

// Puts an entry behind the first n. Returns how many there are then, or None if every slot is taken.
#[tactic(auto, using(crate::proofs::Adding::stages_put, crate::proofs::Adding::stages_full))]
pub fn put(w: &mut [u64], n: usize, entry: u64) -> Option<usize>
    requires { HasTaken w.old n }
    ensures { Stages w.old AllRows (λ e. e ≡ entry) n w.new result }
{
    let slot = LEAST_WORK + n;
    if slot == w.len() {
        return None;
    }
    w[slot] = entry;
    Some(n + 1)
}
