// All patterns, by their suffixes: a recursion that goes on only if some walk spells the labels chosen so far. At each word the parent's
// rows say where it leads, the entries with one label before it are staged, and then those with more.
#![tactic(auto)]

ghost use Rattle.std.specs.Prelude.{◌≡◌, List, [], ◌∷◌, ℕ, suc, ◌+◌, ◌-◌, ◌≤◌, ◌<◌, length, drop};
ghost use Rattle.model.specs.Limits.{most_label, most_longest};
ghost use Rattle.model.specs.Patterns.{Keyed};
ghost use Rattle.model.specs.Computed.Patterns.{own?};
ghost use Rattle.model.specs.Build.Suffixes.{Leaf, Some, Beyond};
ghost use Rattle.suffixes.specs.Suffixes.{PatternEntry, base_of, NodeStageable, NodeStages, LeafStageable, LeafStages, LeavesStage, LevelStages};

use model::{MOST_LABEL, MOST_LONGEST};
use staging::Code;
use std::marker::Model;

// Where patterns are looked for: the edges of a graph, grouped by label, the slots where those of each label begin, and how many labels the
// longest pattern has.
#[derive(Clone, Copy)]
pub struct Search<'a> {
    pub edges: &'a [u32],
    pub slots: &'a [usize],
    pub longest: usize,
}

// The labels chosen so far, the last of a pattern: the last `len` of the digits.
#[derive(Drop)]
pub struct Word {
    digits: [u8; MOST_LONGEST],
    len: usize,
}

impl Model for Word {
    ghost Value = { List ℕ };

    ghost view = { λ s. drop (most_longest - s.len) s.digits };

    ghost invariant = { λ s. s.len ≤ most_longest };
}

impl Word {
    pub fn empty() -> Word
        ensures { result ≡ [] }
    {
        Word {
            digits: [0; MOST_LONGEST],
            len: 0,
        }
    }

    fn len(&self) -> usize
        ensures { result ≡ length self.now }
    {
        self.len
    }

    fn as_slice(&self) -> &[u8]
        ensures { result.now ≡ self.now }
    {
        &self.digits[MOST_LONGEST - self.len..]
    }

    // The word with label c + 1 before it.
    pub fn with(&self, c: usize) -> Word
        requires { (length self.now < most_longest) × (c < most_label) }
        ensures { result ≡ suc c ∷ self.now }
    {
        let mut digits = self.digits;
        digits[MOST_LONGEST - 1 - self.len] = (c + 1) as u8;
        Word {
            digits,
            len: self.len + 1,
        }
    }

    // The row of label c + 1, of those for one label more.
    fn child_row(&self, c: usize) -> usize
        requires { (length self.now < most_longest) × (c < most_label) }
        ensures { result ≡ base_of self.now + c }
    {
        rows::CHILDREN + MOST_LABEL * self.len + c
    }
}

// Whether a pattern is its own minimum repeat.
fn is_own(pattern: &[u8]) -> bool
    requires { Keyed most_longest pattern.now }
    ensures { result ≡ own? pattern.now }
{
    patterns::minimum_repeat(pattern).length == pattern.len()
}

// Fills the row of label c + 1, of those for one label more, and stages, behind the first cnt, the entries whose pattern is that label and the
// word. Returns how many are staged then, or None if there are more than slots.
fn leaf(
    search: Search,
    word: &Word,
    c: usize,
    w: &mut [u64],
    starts: usize,
    live: &mut [u32],
    cnt: usize,
) -> Option<usize>
    requires { LeafStageable search.edges.now search.slots.now word.now w.old starts live.old search.longest cnt × (c < most_label) }
    ensures { LeafStages search.entry.edges.now word.now w.old c (Leaf search.entry.longest (PatternEntry search.entry.edges.now) word.now c) cnt w.new result }
{
    let row = word.child_row(c);
    let edges = steps::labelled(search.edges, search.slots, c + 1);
    let n = steps::gather(edges, w, starts, live);
    steps::sources(&live[..n], w, row);
    if n == 0 {
        return Some(cnt);
    }
    let next = word.with(c);
    let pattern = next.as_slice();
    if is_own(pattern) {
        let number = patterns::code(pattern);
        let code = Code { number };
        return pattern_entries::stage(&live[..n], w, row, code, cnt);
    }
    Some(cnt)
}

// The same for every label, one after another. Returns as leaf does.
fn leaves(
    search: Search,
    word: &Word,
    w: &mut [u64],
    starts: usize,
    live: &mut [u32],
    cnt: usize,
) -> Option<usize>
    requires { LeafStageable search.edges.now search.slots.now word.now w.old starts live.old search.longest cnt }
    ensures { LeavesStage search.entry.edges.now word.now w.old most_label
        (Some most_label (Leaf search.entry.longest (PatternEntry search.entry.edges.now) word.now)) cnt w.new result }
{
    let mut n = cnt;
    for c in 0..MOST_LABEL {
        n = leaf(search, word, c, w, starts, live, n)?;
    }
    Some(n)
}

// Fills the rows of the word and of one label more, stages the entries with one label before the word, and empties the rows of the word.
fn level(
    search: Search,
    word: &Word,
    w: &mut [u64],
    starts: usize,
    live: &mut [u32],
    cnt: usize,
) -> Option<usize>
    requires { NodeStageable search.edges.now search.slots.now word.now w.old starts live.old search.longest cnt }
    ensures { LevelStages search.entry.edges.now word.now w.old
        (Some most_label (Leaf search.entry.longest (PatternEntry search.entry.edges.now) word.now)) cnt w.new result }
{
    let labels = word.as_slice();
    parent_rows::fill_parent(search.edges, search.slots, labels, w, live);
    let n = leaves(search, word, w, starts, live, cnt);
    parent_rows::clear_parent(search.edges, search.slots, labels, w);
    n
}

// Stages the entries whose patterns have one label or more before the word. `live` is room for edges.
pub fn node(
    search: Search,
    word: &Word,
    w: &mut [u64],
    starts: usize,
    live: &mut [u32],
    cnt: usize,
) -> Option<usize>
    requires { NodeStageable search.edges.now search.slots.now word.now w.old starts live.old search.longest cnt }
    ensures { NodeStages w.old word.now (Beyond search.entry.longest (PatternEntry search.entry.edges.now) word.now) cnt w.new result }
{
    let mut n = level(search, word, w, starts, live, cnt)?;
    if search.longest <= word.len() + 1 {
        return Some(n);
    }
    for c in 0..MOST_LABEL {
        let row = word.child_row(c);
        if rows::next(w, row, 0).is_some() {
            n = node(search, &word.with(c), w, row, live, n)?;
        }
    }
    Some(n)
}
