// What the lines that programs print are made of, as text in fixed memory: words, numbers, counts; and the lines that several print. Each `put`
// writes behind what stands there already; `copy_to` takes the text into lent memory.
#![tactic(auto)]

ghost use Rattle.std.specs.Prelude.{◌≡◌, ℕ, ◌+◌, ◌≤◌, ◌<◌, List, [], ◌∷◌, ◌++◌, length, take};
ghost use Rattle.model.specs.Limits.{digit_unit};
ghost use Rattle.printing.specs.Puts.{Puts};
ghost use Rattle.printing.specs.Lines.{numeral, number, counts, number_line, refused_line};

use model::Size;
use std::marker::Model;

// Text of at most ROOM bytes.
#[derive(Drop)]
pub struct Text<const ROOM: usize> {
    bytes: [u8; ROOM],
    end: usize,
}

impl<const ROOM: usize> Model for Text<ROOM> {
    ghost Value = { List ℕ };

    ghost view = { λ text. take text.end text.bytes };

    ghost invariant = { λ text. text.end ≤ ROOM };
}

// What the header line says of a layout.
#[derive(Clone, Copy)]
pub struct Counts {
    pub size: Size,
    pub edges: u32,
    pub entries: u32,
}

impl<const ROOM: usize> Text<ROOM> {
    pub fn new() -> Self
        ensures { result ≡ [] }
    {
        Text {
            bytes: [0; ROOM],
            end: 0,
        }
    }

    pub fn as_bytes(&self) -> &[u8]
        ensures { result.now ≡ self.now }
    {
        &self.bytes[..self.end]
    }

    // Copies the text into lent memory from `at` on, leaves all other bytes as they were, and tells where it ends.
    pub fn copy_to(&self, out: &mut [u8], at: usize) -> usize
        requires { at + length self.now ≤ length out.old }
        ensures { Puts out.old at self.now out.new result }
    {
        let end = at + self.end;
        out[at..end].copy_from_slice(self.as_bytes());
        end
    }

    // One byte.
    pub fn put(&mut self, byte: u8)
        requires { length self.old < ROOM }
        ensures { self.new ≡ self.old ++ byte ∷ [] }
    {
        self.bytes[self.end] = byte;
        self.end += 1;
    }

    // A word.
    pub fn put_text(&mut self, word: &[u8])
        requires { length self.old + length word.now ≤ ROOM }
        ensures { self.new ≡ self.old ++ word.now }
    {
        let end = self.end + word.len();
        let bytes = &mut self.bytes[..];
        bytes[self.end..end].copy_from_slice(word);
        self.end = end;
    }

    // The digits of n, `most` of them at most.
    #[tactic(auto, using(crate::proofs::Putting::digits))]
    pub fn put_digits(&mut self, n: u32, base: u32, most: usize)
        requires { (1 ≤ base) × ((base ≤ digit_unit) × (length self.old + most ≤ ROOM)) }
        ensures { self.new ≡ self.old ++ numeral base most n }
    {
        if most == 0 {
            return;
        }
        if n < base {
            self.put(b'0' + n as u8);
            return;
        }
        self.put_digits(n / base, base, most - 1);
        self.put(b'0' + (n % base) as u8);
    }

    // A decimal number: 32 bits take 10 digits.
    fn put_decimal(&mut self, n: u32)
        requires { length self.old + 10 ≤ ROOM }
        ensures { self.new ≡ self.old ++ number n }
    {
        self.put_digits(n, 10, 10);
    }

    // A word and a decimal number.
    pub fn put_field(&mut self, word: &[u8], n: u32)
        requires { length self.old + length word.now + 10 ≤ ROOM }
        ensures { self.new ≡ self.old ++ (word.now ++ number n) }
    {
        self.put_text(word);
        self.put_decimal(n);
    }

    // What the header line says: places, longest pattern, legs, entries.
    #[tactic(auto, using(crate::proofs::Putting::lengths), unfolding(crate::specs::Lines::counts))]
    pub fn put_counts(&mut self, layout: Counts)
        requires { length self.old + 71 ≤ ROOM }
        ensures { self.new ≡ self.old ++ counts layout.size.vertices layout.size.longest layout.edges layout.entries }
    {
        self.put_field(b"places ", layout.size.vertices);
        self.put_field(b" longest ", layout.size.longest);
        self.put_field(b" legs ", layout.edges);
        self.put_field(b" entries ", layout.entries);
    }

    // A line with a number alone.
    #[tactic(auto, using(crate::proofs::Putting::lengths), unfolding(crate::specs::Lines::number_line))]
    pub fn put_number(&mut self, x: u32)
        requires { length self.old + 11 ≤ ROOM }
        ensures { self.new ≡ self.old ++ number_line x }
    {
        self.put_decimal(x);
        self.put(b'\n');
    }

    // The line of a refused card, with the refusal's number.
    #[tactic(auto, using(crate::proofs::Putting::lengths), unfolding(crate::specs::Lines::refused_line))]
    pub fn put_refused(&mut self, refusal: u32)
        requires { length self.old + 19 ≤ ROOM }
        ensures { self.new ≡ self.old ++ refused_line refusal }
    {
        self.put_text(b"refused ");
        self.put_number(refusal);
    }
}
