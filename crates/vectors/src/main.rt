// Feeds the test vectors of standard input to the calls that read, write and copy a job, find α, its flows, its duty and its heat
// flows, pick its meter, rate it in one call and in two, make a sheet and choose sizes, and prints in bytes what they give. model/vectors.py says what
// stands in the lines.
#![tactic(auto)]

ghost use Rattle.std.specs.Prelude.{◌≤◌, length};

mod calls;
mod jobs;
mod print;
mod vector_lines;

use print::Output;
use std::io;
use std::io::{Read, Write};
use vector_lines::Line;

// Nothing says that the input ends, so the chunks are counted: at most 256 MiB are read.
fn main(rt: HostRuntime) {
    let mut to = Output::new(rt.stdout());
    let _ = answer_all(&mut rt.stdin(), &mut to);
}

// A chunk is full before its lines are answered, or its input has ended, so that who writes before it reads is not held up at once. What is held of the answers is written at the end.
fn answer_all(input: &mut impl Read, to: &mut Output) -> io::Result<()> {
    let mut line = Line::new();
    let mut chunk = [0u8; 65536];
    for _ in 0..4096 {
        let n = read_full(input, &mut chunk);
        if n == 0 {
            break;
        }
        for byte in &chunk[..n] {
            line.take(*byte, to)?;
        }
    }
    to.flush()
}

// Reads until the buffer is full, the input ends or a read fails; how many bytes came. The input may come in pieces.
fn read_full(input: &mut impl Read, buffer: &mut [u8]) -> usize
    ensures { result ≤ length buffer.new }
{
    let mut done = 0;
    for _ in 0..buffer.len() {
        let n = input.read(&mut buffer[done..]).unwrap_or(0);
        if n == 0 {
            break;
        }
        done += n;
    }
    done
}
