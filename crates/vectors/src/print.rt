// The output: bytes in hex, put together in a buffer and written from there.
ghost use Rattle.std.specs.Prelude.{◌≡◌, [], ◌<◌, length};

use answer::Refusal;
use arrayvec::ArrayVec;
use std::io;
use std::io::{Stdout, Write};

/// Standard output, and what is printed and not yet written to it. No `BufWriter`: it keeps what it could not write, and answers no line after that.
#[derive(Drop)]
pub struct Output {
    stdout: Stdout,
    held: ArrayVec<u8, 4096>,
}

impl Write for Output {
    fn write(&mut self, bytes: &[u8]) -> io::Result<usize> {
        for b in bytes {
            self.byte(*b);
        }
        Ok(bytes.len())
    }

    fn flush(&mut self) -> io::Result<()> {
        self.write_held();
        Ok(())
    }
}

impl Output {
    pub fn new(stdout: Stdout) -> Output {
        Output {
            stdout,
            held: ArrayVec::new(),
        }
    }

    // Writes what is held. What cannot be written is let go.
    fn write_held(&mut self)
        ensures { self.new.held.items ≡ [] }
    {
        let _ = self.stdout.write_all(&self.held);
        self.held.clear();
    }

    // Makes room for a byte.
    fn make_room(&mut self)
        ensures { length self.new.held.items < 4096 }
    {
        if self.held.is_full() {
            self.write_held();
        }
    }

    /// A byte as it is.
    pub fn byte(&mut self, b: u8) {
        self.make_room();
        self.held.push(b);
    }

    /// Two digits a byte. (By hand: `write!` takes several times as long.)
    pub fn hex(&mut self, bytes: &[u8]) -> io::Result<()> {
        for b in bytes {
            self.byte(digit(*b / 16));
            self.byte(digit(*b % 16));
        }
        Ok(())
    }

    /// What a call gives: its number, and the buffer that it was lent.
    pub fn given(&mut self, answer: Result<(), Refusal>, buffer: &[u8]) -> io::Result<()> {
        self.hex(&answer::number(answer).to_be_bytes())?;
        self.byte(b' ');
        self.hex(buffer)
    }
}

// The hex digit of a number below 16.
fn digit(n: u8) -> u8
    requires { n < 16 }
{
    if n < 10 { b'0' + n } else { b'a' + (n - 10) }
}
