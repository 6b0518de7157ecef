// Prints the sheet of the job, catalogue and size list on standard input.
#![tactic(auto)]

ghost use Rattle.std.specs.Prelude.{◌≤◌, length};

use std::io::{Read, Write};

// The first 65,536 bytes are read. A text that cannot be written is let go.
fn main(rt: HostRuntime) {
    let mut input = [0u8; 65536];
    let n = read_full(&mut rt.stdin(), &mut input);
    let mut text = [0u8; 4096];
    let length = sheet_text::sheet(&input[..n], &mut text);
    let _ = rt.stdout().write_all(&text[..length]);
}

// Reads until the buffer is full, the input ends or a read fails; how many bytes came. The input may come in pieces. Fixed memory: std's
// `read_to_end` takes a Vec, and memory may run out.
fn read_full(input: &mut impl Read, buffer: &mut [u8]) -> usize
    ensures { result ≤ length buffer.new }
{
    let mut done = 0;
    for _ in 0..buffer.len() {
        let n = input.read(&mut buffer[done..]).unwrap_or(0);
        if n == 0 {
            break;
        }
        done += n;
    }
    done
}
