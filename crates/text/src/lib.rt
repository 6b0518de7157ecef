// The text of a sheet, in fixed memory: bytes, words, and figures in decimal, one after another.
#![tactic(auto)]

ghost use Rattle.std.specs.Prelude.{◌≡◌, [], ◌∷◌, ◌++◌, ◌+◌, ◌<◌, ◌≤◌, length};
ghost use Rattle.text.specs.Figures.{decimal, signed_decimal};

use arrayvec::ArrayVec;
use itoa::{Buffer, Integer};
use std::marker::Model;

/// Text of at most ROOM bytes. Clauses see the bytes.
#[derive(Drop)]
pub struct Text<const ROOM: usize> {
    bytes: ArrayVec<u8, ROOM>,
}

impl<const ROOM: usize> Model for Text<ROOM> {
    ghost use Rattle.std.specs.Prelude.{List, ℕ};

    ghost Value = { List ℕ };

    ghost view = { λ t. t.bytes.items };
}

impl<const ROOM: usize> Text<ROOM> {
    /// No text.
    pub fn new() -> Text<ROOM>
        ensures { result ≡ [] }
    {
        Text {
            bytes: ArrayVec::new(),
        }
    }

    /// The bytes so far.
    pub fn as_bytes(&self) -> &[u8]
        ensures bytes { result.now ≡ self.now }
        ensures room { length result.now ≤ ROOM }
    {
        self.bytes.as_slice()
    }

    /// One byte.
    pub fn push(&mut self, b: u8)
        requires { length self.old + 1 ≤ ROOM }
        ensures { self.new ≡ self.old ++ b ∷ [] }
    {
        self.bytes.push(b);
    }

    /// The bytes of a word. They have room, so nothing is handed back.
    pub fn push_word(&mut self, word: &[u8])
        requires { length self.old + length word.now ≤ ROOM }
        ensures { self.new ≡ self.old ++ word.now }
    {
        let _ = self.bytes.try_extend_from_slice(word);
    }

    // Two functions for figures, as two definitions are promised, `decimal` and `signed_decimal`: what they share is `push_spaced`.

    /// A space and a figure.
    #[tactic(auto, using(crate::proofs::Decimal::figures))]
    pub fn push_figure(&mut self, n: u32)
        requires { length self.old + 11 ≤ ROOM }
        ensures bytes { self.new ≡ self.old ++ (32 ∷ decimal n) }
        ensures room { length self.new ≤ length self.old + 11 }
    {
        self.push_spaced(n);
    }

    /// The same with a minus sign where it is negative.
    #[tactic(auto, using(crate::proofs::Decimal::figures))]
    pub fn push_signed(&mut self, z: i32)
        requires { length self.old + 12 ≤ ROOM }
        ensures bytes { self.new ≡ self.old ++ (32 ∷ signed_decimal z) }
        ensures room { length self.new ≤ length self.old + 12 }
    {
        self.push_spaced(z);
    }

    // A space and a number as the standard library writes it.
    fn push_spaced<I: Integer>(&mut self, n: I)
        requires { length self.old + (1 + I.MAX_STR_LEN) ≤ ROOM }
        ensures bytes { self.new ≡ self.old ++ (32 ∷ I.text n) }
        ensures room { length (I.text n) ≤ I.MAX_STR_LEN }
    {
        self.push(b' ');
        self.push_word(Buffer::new().format(n).as_bytes());
    }
}
