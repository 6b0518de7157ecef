// The calls. A line's bytes are the room of the result buffer (2), the byte that fills what is lent (1), a length (4), the lengths of
// the next two parts (2 each), and then the parts: in most calls a job, then a catalogue, a list of meters or losses, then a size list.
// Bytes that are not such give an empty line.
ghost use Rattle.std.specs.Prelude.{◌≤◌, length};

use crate::jobs;
use crate::print::Output;
use answer::Refusal;
use std::io;
use std::io::Write;
use wire::Field;

// What a line gives to its call.
#[derive(Clone, Copy)]
struct Input<'a> {
    fill: u8,
    length: usize,
    job: &'a [u8],
    second: &'a [u8],
    list: &'a [u8],
}

pub fn answer(to: &mut Output, letter: u8, data: &[u8]) -> io::Result<()> {
    if data.len() < 11 {
        return Ok(());
    }
    let room = usize::from(u16::at(data, 0));
    let fill = data[2];
    // A place has 64 bits, and std has no From for it from 32.
    let length = u32::at(data, 3) as usize;
    let first = usize::from(u16::at(data, 7));
    let next = usize::from(u16::at(data, 9));
    let Some((job, rest)) = data[11..].split_at_checked(first) else {
        return Ok(());
    };
    let Some((second, list)) = rest.split_at_checked(next) else {
        return Ok(());
    };
    if 8192 < room {
        return Ok(());
    }
    let input = Input {
        fill,
        length,
        job,
        second,
        list,
    };
    let mut buffer = [fill; 8192];
    call(to, letter, &input, &mut buffer[..room])
}

fn call(to: &mut Output, letter: u8, input: &Input<'_>, out: &mut [u8]) -> io::Result<()> {
    let record = input.job;
    let second = input.second;
    let list = input.list;
    // No table of calls: each takes other parts of the line.
    match letter {
        b'r' => jobs::read(to, record, out),
        b'w' => jobs::write(to, record, out),
        b'c' => to.given(job::copy(record, out), out),
        b'a' => alpha(to, record),
        b'f' => to.given(flow::flow(record, out), out),
        b'd' => to.given(flow::duty(record, out), out),
        b't' => heat(to, record, second, out),
        b'm' => to.given(metering::meter(record, second, out), out),
        b'p' => to.given(rating::rate(record, second, list, out), out),
        b'e' => to.given(rating::losses(record, second, list, out), out),
        b'h' => to.given(lent_losses::heads(record, second, out), out),
        b's' => sheet(to, record, input.length, out),
        b'l' => choose(to, input, out.len(), out),
        // Where several lists are equally cheap, only the cost is shown.
        b'k' => choose(to, input, out.len().min(4), out),
        _ => Ok(()),
    }
}

// The coefficient of an m of four bytes.
fn alpha(to: &mut Output, m: &[u8]) -> io::Result<()> {
    if m.len() != 4 {
        return Ok(());
    }
    let alpha = coefficient::alpha(u32::at(m, 0));
    write!(to, "{alpha:08x}")
}

// The temperature and the loss are four bytes each.
fn heat(to: &mut Output, record: &[u8], asked: &[u8], out: &mut [u8]) -> io::Result<()> {
    if asked.len() != 8 {
        return Ok(());
    }
    to.given(
        heating::heat(record, u32::at(asked, 0), u32::at(asked, 4), out),
        out,
    )
}

// The value of a call is not written out in the proofs of its callers, so the longest arrays have functions of their own. Arrays and no `Vec`,
// so that no line lacks memory.
fn blank() -> [u8; 131072] {
    [0u8; 131072]
}

// The text of the sheet of an input that ends in so many zero bytes.
fn sheet(to: &mut Output, front: &[u8], zeros: usize, out: &mut [u8]) -> io::Result<()> {
    let mut bytes = blank();
    let Some((start, rest)) = bytes.split_at_mut_checked(front.len()) else {
        return Ok(());
    };
    if rest.len() < zeros {
        return Ok(());
    }
    start.copy_from_slice(front);
    let n = sheet_text::sheet(&bytes[..front.len() + zeros], out);
    match out.get(..n) {
        Some(text) => to.hex(text),
        None => Ok(()),
    }
}

// The most bytes of workspace that any job needs.
fn workspace(fill: u8) -> [u8; 1792256] {
    [fill; 1792256]
}

// So many bytes of the result buffer are shown. After a result and after 16 the workspace is free.
fn choose(to: &mut Output, input: &Input<'_>, shown: usize, out: &mut [u8]) -> io::Result<()>
    requires { shown ≤ length out.old }
{
    // Before the workspace is filled, which takes longer than all else that a line asks for.
    if 1792256 < input.length {
        return Ok(());
    }
    let mut whole = workspace(input.fill);
    let work = &mut whole[..input.length];
    let answer = choosing::choose(input.job, input.second, work, out);
    to.given(answer, &out[..shown])?;
    match answer {
        Ok(()) | Err(Refusal::NoSuitableList) => Ok(()),
        Err(_) => kept(to, work, input.fill),
    }
}

// 01 where the workspace is as it was, else 00.
fn kept(to: &mut Output, work: &[u8], fill: u8) -> io::Result<()> {
    let kept = work.iter().all(|b| *b == fill);
    write!(to, " {:02x}", u8::from(kept))
}
