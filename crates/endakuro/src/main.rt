// The line program: a line in, a line out, until the input ends. It holds one line, one answer and one
// book, whatever the length of the input.
#![tactic(auto)]

ghost use Rattle.std.specs.Prelude.{◌≡◌, length};

use book::Book;
use entries::Entry;
use input::{Held, Present};
use std::io::{self, Read, Write};

mod answers;
mod calls;
mod entries;
mod input;
mod keeping;
mod operands;

// Written at once, so that whoever sent the line has its answer before the next is read.
fn say(out: &[u8], count: usize, writer: &mut impl Write) -> io::Result<()> {
    if count <= out.len() {
        writer.write_all(&out[0..count])?;
        writer.write_all(b"\n")?;
    }
    Ok(())
}

// The line answered by the entry that it names; an empty line and one that starts with `#` give no answer.
// `first` and `second` are room for the bytes that its operands spell.
fn answer_line(
    line: &[u8],
    kept: Book,
    first: &mut [u8],
    second: &mut [u8],
    out: &mut [u8],
    writer: &mut impl Write,
) -> io::Result<Book> {
    if input::is_silent(line) {
        return Ok(kept);
    }
    match entries::find_entry(line) {
        Some(Entry::Kept(entry)) => {
            let answered = keeping::answer(entry, line, kept, out);
            let length = answers::or_refuse(answered.said, out);
            say(out, length, writer)?;
            Ok(answered.book)
        }
        Some(Entry::Called(call)) => {
            let said = calls::answer(call, line, first, second, out);
            let length = answers::or_refuse(said, out);
            say(out, length, writer)?;
            Ok(kept)
        }
        None => {
            writer.write_all(b"bad line\n")?;
            Ok(kept)
        }
    }
}

// Answers the line that is held, once it is whole.
fn answer(
    held: Held,
    line: &[u8],
    kept: Book,
    first: &mut [u8],
    second: &mut [u8],
    out: &mut [u8],
    writer: &mut impl Write,
) -> io::Result<Book> {
    match input::held_line(held, line) {
        Present::Part => Ok(kept),
        Present::TooLong => {
            writer.write_all(b"bad line\n")?;
            Ok(kept)
        }
        Present::Whole(line) => answer_line(line, kept, first, second, out, writer),
    }
}

// A proved loop has to end, and nothing says that the input does: so the steps are counted, up to a number
// that no run uses up.
// A read or a write that fails ends the program with its error.
fn serve(
    reader: &mut impl Read,
    writer: &mut impl Write,
    chunk: &mut [u8],
    line: &mut [u8],
    first: &mut [u8],
    second: &mut [u8],
    out: &mut [u8],
) -> io::Result<()> {
    let mut book = Book::empty();
    let mut held = input::hold_nothing();
    for _ in 0..u64::MAX {
        held = input::go_on(held, reader, chunk, line)?;
        book = answer(held, line, book, first, second, out, writer)?;
        if input::is_last(held) {
            return Ok(());
        }
    }
    Ok(())
}

// Room for what one read brings.
const CHUNK: usize = 65536;

// Room for the longest line.
const LINE: usize = 1048576;

// Room for the bytes that a line can spell.
const BYTES: usize = 524288;

// Room for the longest answer: a line's bytes again, behind other values.
const ANSWER: usize = 1049600;

fn room<const N: usize>() -> [u8; N]
    ensures { length result ≡ N }
{
    [0; N]
}

fn main(rt: HostRuntime) -> io::Result<()> {
    let mut chunk = room::<CHUNK>();
    let mut line = room::<LINE>();
    let mut first = room::<BYTES>();
    let mut second = room::<BYTES>();
    let mut out = room::<ANSWER>();
    serve(
        &mut rt.stdin(),
        &mut rt.stdout(),
        &mut chunk,
        &mut line,
        &mut first,
        &mut second,
        &mut out,
    )
}
