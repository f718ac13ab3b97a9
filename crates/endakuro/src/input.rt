// The input taken a step at a time: a step reads a chunk, or holds what the chunk has of the present line.
ghost use Rattle.std.specs.Prelude.{◌≡◌, ◌≤◌, List, ℕ, length};
ghost use Rattle.std.specs.Borrow.{Bor};

use memchr::memchr;
use std::io::{self, Read};

// How far the present line has come.
#[derive(Clone, Copy)]
enum Reach {
    Part,
    Whole,
    // whole, and the last: the input has ended
    Last,
}

// What of the chunk is still to take (from `from` up to `count`), and how many bytes of the present line
// are held: none where it is longer than its room.
#[derive(Clone, Copy)]
pub(crate) struct Held {
    from: usize,
    count: usize,
    length: Option<usize>,
    reach: Reach,
}

// The present line, as far as it can be answered.
pub(crate) enum Present<'a> {
    Part,
    TooLong,
    Whole(&'a [u8]),
}

pub(crate) fn hold_nothing() -> Held {
    Held {
        from: 0,
        count: 0,
        length: Some(0),
        reach: Reach::Part,
    }
}

// The bytes from a place up to another; none where there are no such bytes.
fn part<'a>(s: &'a [u8], from: usize, end: usize) -> &'a [u8]
    ensures { length result.now ≤ length s.now }
{
    match s.get(from..end) {
        Some(bytes) => bytes,
        None => &s[..0],
    }
}

// Holds a piece of the line behind what is held.
fn gather(piece: &[u8], line: &mut [u8], length: Option<usize>) -> Option<usize> {
    let at = length?;
    if line.len().checked_sub(at)? < piece.len() {
        return None;
    }
    octets::write_at(piece, line, at);
    Some(at + piece.len())
}

// A read that brings nothing ends the input, and with it the line that is held.
fn read_chunk(length: Option<usize>, reader: &mut impl Read, chunk: &mut [u8]) -> io::Result<Held> {
    let count = reader.read(chunk)?;
    let reach = if count == 0 { Reach::Last } else { Reach::Part };
    Ok(Held {
        from: 0,
        count,
        length,
        reach,
    })
}

// Up to the line's end, or all that is left of the chunk.
fn take_line(from: usize, length: Option<usize>, chunk: &[u8], line: &mut [u8]) -> Held {
    let rest = part(chunk, from, chunk.len());
    match memchr(b'\n', rest) {
        Some(end) => Held {
            from: from.saturating_add(end).saturating_add(1),
            count: chunk.len(),
            length: gather(&rest[..end], line, length),
            reach: Reach::Whole,
        },
        None => Held {
            from: chunk.len(),
            count: chunk.len(),
            length: gather(rest, line, length),
            reach: Reach::Part,
        },
    }
}

pub(crate) fn go_on(
    held: Held,
    reader: &mut impl Read,
    chunk: &mut [u8],
    line: &mut [u8],
) -> io::Result<Held> {
    let length = match held.reach {
        Reach::Part => held.length,
        Reach::Whole | Reach::Last => Some(0),
    };
    if held.count <= held.from {
        return read_chunk(length, reader, chunk);
    }
    Ok(take_line(held.from, length, part(chunk, 0, held.count), line))
}

pub(crate) fn is_last(held: Held) -> bool {
    match held.reach {
        Reach::Last => true,
        Reach::Part | Reach::Whole => false,
    }
}

// The held line without one CR at its end, once it is whole.
pub(crate) fn held_line<'a>(held: Held, line: &'a [u8]) -> Present<'a>
    ensures { (bytes : Bor (List ℕ)) → result ≡ Present.Whole bytes → length bytes.now ≤ length line.now }
{
    match held.reach {
        Reach::Part => Present::Part,
        Reach::Whole | Reach::Last => match held.length {
            Some(length) => Present::Whole(drop_return(part(line, 0, length))),
            None => Present::TooLong,
        },
    }
}

fn drop_return<'a>(line: &'a [u8]) -> &'a [u8]
    ensures { length result.now ≤ length line.now }
{
    match line {
        [before @ .., b'\r'] => before,
        _ => line,
    }
}

// An empty line and one that starts with `#` give no answer.
pub(crate) fn is_silent(line: &[u8]) -> bool {
    match line {
        [] | [b'#', ..] => true,
        _ => false,
    }
}
