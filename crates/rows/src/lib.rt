// Sets of vertices as rows of bits in work memory: row r is the ROW numbers from r * ROW on, and bit j of it says whether vertex j is in it.
#![tactic(auto)]

ghost use Rattle.std.specs.Prelude.{◌≡◌, ◌⊎◌, ◌≤◌, ◌<◌, ◌+◌, ◌*◌, ◌/◌, get_or};
ghost use Rattle.model.specs.Limits.{most_vertices};
ghost use Rattle.rows.specs.Region.{row_numbers, work_rows};
ghost use Rattle.rows.specs.Rows.{cell, On, Has, Becomes, NextVertex, FirstInBoth};
ghost use Rattle.rows.specs.Numbers.{number, Makes};

use model::{MOST_EDGES, MOST_LABEL, MOST_LONGEST, MOST_VERTICES};

// The bits of a number, and the numbers of a row.
pub const BITS: usize = 64;

pub const ROW: usize = MOST_VERTICES / BITS;

// The regions of work memory below LEAST_WORK, as row numbers (specs/Region.antt says what each is for).
pub const STEPS: usize = 0;

pub const PARENT: usize = STEPS + MOST_VERTICES;

const SAVED_ROWS: usize = PARENT + MOST_VERTICES;

pub const ROOT: usize = SAVED_ROWS + MOST_EDGES / ROW;

pub const CHILDREN: usize = ROOT + 1;

pub const OPEN: usize = CHILDREN + MOST_LONGEST * MOST_LABEL;

pub const REST: usize = OPEN + 1;

pub const PICKED: usize = REST + 1;

// The first of the numbers that edge memory is saved in.
pub const SAVED: usize = SAVED_ROWS * ROW;

// The number that bit j of row r is in: there it is bit j % BITS.
fn spot(r: usize, j: usize) -> usize
    requires { (r < work_rows) × (j < most_vertices) }
    ensures { result ≡ r * row_numbers + j / 64 }
{
    r * ROW + j / BITS
}

// Bit j of row r, 0 or 1.
pub fn bit(w: &[u64], r: usize, j: usize) -> u64
    requires { Has w.now r × (j < most_vertices) }
    ensures { result ≡ cell w.now r j }
{
    (w[spot(r, j)] >> (j % BITS)) % 2
}

// Puts j into row r, and takes it out.
pub fn mark(w: &mut [u64], r: usize, j: usize)
    requires { Has w.old r × (j < most_vertices) }
    ensures { Becomes w.old w.new r (λ k. On w.old r k ⊎ (k ≡ j)) }
{
    w[spot(r, j)] |= 1 << (j % BITS);
}

pub fn unmark(w: &mut [u64], r: usize, j: usize)
    requires { Has w.old r × (j < most_vertices) }
    ensures { Becomes w.old w.new r (λ k. On w.old r k × (k ≡ j → ⊥)) }
{
    w[spot(r, j)] &= !(1 << (j % BITS));
}

// Makes the numbers of row r those of `row`.
fn store(w: &mut [u64], r: usize, row: [u64; ROW])
    requires { Has w.old r }
    ensures { Makes w.old w.new r (λ i y. y ≡ get_or row i 0) }
{
    for i in 0..ROW {
        w[r * ROW + i] = row[i];
    }
}

// Makes each number of row x what `combined` makes of the two at its place in rows a and b. x may be a or b.
fn combine<F: Fn(u64, u64) -> u64>(w: &mut [u64], x: usize, a: usize, b: usize, combined: F)
    requires rows { Has w.old x × (Has w.old a × Has w.old b) }
    requires calls { F.IsAlwaysCallable combined }
    ensures { Makes w.old w.new x (λ i y. F.post combined (number w.old a i) (number w.old b i) y) }
{
    let mut row = [0; ROW];
    for i in 0..ROW {
        row[i] = combined(w[a * ROW + i], w[b * ROW + i]);
    }
    store(w, x, row);
}

// Makes row x the vertices in row a or row b; in row a and not in row b. x may be a or b.
pub fn union(w: &mut [u64], x: usize, a: usize, b: usize)
    requires { Has w.old x × (Has w.old a × Has w.old b) }
    ensures { Becomes w.old w.new x (λ k. On w.old a k ⊎ On w.old b k) }
{
    combine(w, x, a, b, |p, q| p | q);
}

pub fn subtract(w: &mut [u64], x: usize, a: usize, b: usize)
    requires { Has w.old x × (Has w.old a × Has w.old b) }
    ensures { Becomes w.old w.new x (λ k. On w.old a k × (On w.old b k → ⊥)) }
{
    combine(w, x, a, b, |p, q| p & !q);
}

// Makes row x the vertices of row a.
pub fn copy(w: &mut [u64], x: usize, a: usize)
    requires { Has w.old x × Has w.old a }
    ensures { Becomes w.old w.new x (On w.old a) }
{
    combine(w, x, a, a, |p, _| p);
}

// Makes row r all vertices, and none.
pub fn fill(w: &mut [u64], r: usize)
    requires { Has w.old r }
    ensures { Becomes w.old w.new r (λ k. k < most_vertices) }
{
    store(w, r, [u64::MAX; ROW]);
}

pub fn clear(w: &mut [u64], r: usize)
    requires { Has w.old r }
    ensures { Becomes w.old w.new r (λ k. ⊥) }
{
    store(w, r, [0; ROW]);
}

// The first vertex of row r from p on.
pub fn next(w: &[u64], r: usize, p: usize) -> Option<usize>
    requires { Has w.now r × (p ≤ most_vertices) }
    ensures { NextVertex w.now r p result }
{
    let mut q = p;
    for i in p / BITS..ROW {
        let x = w[r * ROW + i] >> (q % BITS);
        if x != 0 {
            return Some(q + x.trailing_zeros() as usize);
        }
        q = (i + 1) * BITS;
    }
    None
}

// The first vertex that is both in row a and in row b.
pub fn common(w: &[u64], a: usize, b: usize) -> Option<usize>
    requires { Has w.now a × Has w.now b }
    ensures { FirstInBoth w.now a b result }
{
    for i in 0..ROW {
        let x = w[a * ROW + i] & w[b * ROW + i];
        if x != 0 {
            return Some(i * BITS + x.trailing_zeros() as usize);
        }
    }
    None
}
