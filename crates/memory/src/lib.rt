// Lent memory as plain numbers: the test for zeros, how many numbers stand, and copies from one width to the other.
#![tactic(auto)]

ghost use Rattle.std.specs.Prelude.{◌≡◌, ◌==◌, ℕ, List, [], ◌∷◌, ◌++◌, ◌≤◌, length, take, drop, refl};
ghost use Rattle.model.specs.Edges.{standing};
ghost use Rattle.model.specs.Computed.Edges.{zeros?};
ghost use Rattle.memory.specs.Widths.{Narrow};

// A slot of either width: a number, and a list of slots the list of their numbers.
pub trait Number {
    ghost value: { Self → ℕ };

    ghost numbers: { List Self → List ℕ };

    fn is_zero(&self) -> bool
        ensures { result ≡ (value self.now == 0) };

    ghost of_none: { numbers [] ≡ [] };

    ghost of_more: { (x : Self) (xs : List Self) → numbers (x ∷ xs) ≡ value x ∷ numbers xs };
}

impl Number for u32 {
    ghost value = { λ x. x };

    ghost numbers = { λ xs. xs };

    ghost of_none = { refl };

    ghost of_more = { λ x xs. refl };

    fn is_zero(&self) -> bool {
        *self == 0
    }
}

impl Number for u64 {
    ghost value = { λ x. x };

    ghost numbers = { λ xs. xs };

    ghost of_none = { refl };

    ghost of_more = { λ x xs. refl };

    fn is_zero(&self) -> bool {
        *self == 0
    }
}

// Whether every slot is zero.
pub fn all_zero<T: Number>(slots: &[T]) -> bool
    ensures { result ≡ zeros? (T.numbers slots.now) }
{
    slots.iter().all(|slot| slot.is_zero())
}

// How many slots stand before the first zero.
pub fn standing<T: Number>(slots: &[T]) -> usize
    ensures { result ≡ length (standing (T.numbers slots.now)) }
{
    slots
        .iter()
        .position(|slot| slot.is_zero())
        .unwrap_or(slots.len())
}

// Copies numbers to the front of wider slots, and back.
pub fn widen(from: &[u32], to: &mut [u64])
    requires { length from.now ≤ length to.old }
    ensures { to.new ≡ from.now ++ drop (length from.now) to.old }
{
    for i in 0..from.len() {
        to[i] = u64::from(from[i]);
    }
}

pub fn narrow(to: &mut [u32], from: &[u64])
    requires { (length to.old ≤ length from.now) × Narrow (take (length to.old) from.now) }
    ensures { to.new ≡ take (length to.old) from.now }
{
    for i in 0..to.len() {
        to[i] = from[i] as u32;
    }
}
