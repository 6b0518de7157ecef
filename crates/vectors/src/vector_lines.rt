// The lines of the input: a letter, then pairs of hex digits. What is no digit, as a space, does not count.
use crate::calls;
use crate::print::Output;
use arrayvec::ArrayVec;
use std::io;

/// A line as far as it came.
#[derive(Drop)]
pub struct Line {
    letter: Option<u8>,
    bytes: ArrayVec<u8, 8191>,
    // The first digit of a pair.
    half: Option<u8>,
    // The last digit at each byte's place, of this line or one before it.
    digits: [u8; 8191],
}

impl Line {
    pub fn new() -> Line {
        Line {
            letter: None,
            bytes: ArrayVec::new(),
            half: None,
            digits: [0; 8191],
        }
    }

    /// One more byte of the input. A comment is printed as it comes.
    pub fn take(&mut self, b: u8, to: &mut Output) -> io::Result<()> {
        match self.letter {
            _ if b == b'\n' => return self.end(to),
            Some(b'#') => to.byte(b),
            Some(_) => self.take_digit(b),
            None => self.begin(b, to),
        }
        Ok(())
    }

    // The first byte is the letter.
    fn begin(&mut self, b: u8, to: &mut Output) {
        self.letter = Some(b);
        if b == b'#' {
            to.byte(b);
        }
    }

    // The letter asks for a call of the bytes that follow it. A digit without another comes after the last digit that stood at its place.
    fn end(&mut self, to: &mut Output) -> io::Result<()> {
        if let Some(letter) = self.letter.take() {
            if let Some(low) = self.half.take() {
                let before = self.digits.get(self.bytes.len()).copied();
                self.push(before.unwrap_or(0), low);
            }
            calls::answer(to, letter, &self.bytes)?;
            self.bytes.clear();
        }
        to.byte(b'\n');
        Ok(())
    }

    // Capitals are no digits.
    fn take_digit(&mut self, b: u8) {
        if b.is_ascii_uppercase() {
            return;
        }
        let Some(digit) = char::from(b).to_digit(16) else {
            return;
        };
        // A digit of base 16 fits.
        let x = digit as u8;
        match self.half.take() {
            Some(high) => self.push(high, x),
            None => self.half = Some(x),
        }
    }

    // The byte of two digits. Digits past the room do not count.
    fn push(&mut self, high: u8, low: u8) {
        if let Some(digit) = self.digits.get_mut(self.bytes.len()) {
            *digit = low;
        }
        let _ = self.bytes.try_push(high % 16 * 16 + low % 16);
    }
}
