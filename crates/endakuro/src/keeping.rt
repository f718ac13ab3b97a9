// The entries of the kept book: it goes in by value, and comes back with the place after the answer.
ghost use Rattle.std.specs.Prelude.{◌<◌};

use crate::entries::Keeping;
use crate::{answers, operands};
use book::{Book, Changed, Figures, Handed, Line};
use lines::answers::{add_numbers, say_ok};
use refusals::Refusal;

// The book as it is kept on, and how many bytes of `out` are the answer, or the refusal to be told.
#[derive(Drop)]
pub(crate) struct Answered {
    pub(crate) book: Book,
    pub(crate) said: Result<usize, Refusal>,
}

fn say_change(answer: Result<(), Refusal>, out: &mut [u8]) -> Result<usize, Refusal> {
    answer?;
    Ok(answers::say_done(out))
}

fn change(done: Changed, out: &mut [u8]) -> Answered {
    Answered {
        book: done.book,
        said: say_change(done.answer, out),
    }
}

fn answer_request(line: &[u8], kept: Book, out: &mut [u8]) -> Answered {
    change(
        book::request(kept, operands::u8_at(line, 1), operands::u32_at(line, 2)),
        out,
    )
}

fn answer_withdraw(line: &[u8], kept: Book, out: &mut [u8]) -> Answered {
    change(
        book::withdraw(kept, operands::u8_at(line, 1), operands::u32_at(line, 2)),
        out,
    )
}

fn say_handout(answer: Result<Handed, Refusal>, out: &mut [u8]) -> Result<usize, Refusal> {
    let handed = answer?;
    Ok(say_ok(&[handed.shipper as u64, handed.number as u64], out))
}

fn answer_take(kept: Book, out: &mut [u8]) -> Answered {
    let done = book::take(kept);
    Answered {
        book: done.book,
        said: say_handout(done.answer, out),
    }
}

// A shipper's count and its waiting numbers, at most sixteen, as they stand behind one another.
fn add_waiting(line: &Line, out: &mut [u8], from: usize) -> usize {
    let mut at = add_numbers(&[line.count as u64], out, from);
    for number in &line.numbers[..line.count.min(16)] {
        at = add_numbers(&[*number as u64], out, at);
    }
    at
}

fn say_book(kept: Book, out: &mut [u8]) -> Result<usize, Refusal> {
    refusals::demand(book::is_sound(kept), Refusal::BookNotSound)?;
    let mut at = say_ok(&[kept.last as u64], out);
    for line in &kept.lines {
        at = add_waiting(line, out, at);
    }
    Ok(at)
}

// One figure for each shipper.
fn add_four(figures: [u8; 4], out: &mut [u8], from: usize) -> usize {
    let mut at = from;
    for figure in &figures {
        at = add_numbers(&[*figure as u64], out, at);
    }
    at
}

// R0 R1 R2 R3 T0 T1 T2 T3 COMMONS COMMONSUSED
fn say_figures(kept: Book, out: &mut [u8]) -> Result<usize, Refusal> {
    let shared = book::tell_commons(kept)?;
    let start = answers::say_done(out);
    let reserves = add_four(kept.figures.reserves, out, start);
    let ceilings = add_four(kept.figures.ceilings, out, reserves);
    Ok(add_numbers(&[shared.commons as u64, shared.used as u64], out, ceilings))
}

// The figures of shippers 0 to 3, of one kind.
fn four_at(line: &[u8], from: usize) -> [u8; 4]
    requires { from < 16 }
{
    [
        operands::u8_at(line, from),
        operands::u8_at(line, from + 1),
        operands::u8_at(line, from + 2),
        operands::u8_at(line, from + 3),
    ]
}

// Reserves, and ceilings behind them.
fn figures_at(line: &[u8], from: usize) -> Figures
    requires { from < 8 }
{
    let reserves = four_at(line, from);
    let ceilings = four_at(line, from + 4);
    Figures { reserves, ceilings }
}

fn answer_set(line: &[u8], kept: Book, out: &mut [u8]) -> Answered {
    change(book::set_figures(kept, figures_at(line, 1)), out)
}

// A shipper's sixteen places, from word 14 on, and its count, from word 2 on.
fn line_at(line: &[u8], shipper: usize) -> Line
    requires { shipper < 4 }
{
    let mut numbers = [0u32; 16];
    let from = 14 + 16 * shipper;
    for i in 0..16 {
        numbers[i] = operands::u32_at(line, from + i);
    }
    let count = operands::u8_at(line, 2 + shipper) as usize;
    Line { numbers, count }
}

fn book_at(line: &[u8]) -> Book {
    Book {
        lines: [
            line_at(line, 0),
            line_at(line, 1),
            line_at(line, 2),
            line_at(line, 3),
        ],
        last: operands::u8_at(line, 1),
        figures: figures_at(line, 6),
    }
}

fn replace(given: Book, out: &mut [u8]) -> Answered {
    Answered {
        book: given,
        said: Ok(answers::say_done(out)),
    }
}

pub(crate) fn answer(entry: Keeping, line: &[u8], kept: Book, out: &mut [u8]) -> Answered {
    match entry {
        Keeping::Request => answer_request(line, kept, out),
        Keeping::Withdraw => answer_withdraw(line, kept, out),
        Keeping::Take => answer_take(kept, out),
        Keeping::Load => replace(book_at(line), out),
        Keeping::Empty => replace(Book::empty(), out),
        Keeping::Book => Answered {
            book: kept,
            said: say_book(kept, out),
        },
        Keeping::Set => answer_set(line, kept, out),
        Keeping::Figures => Answered {
            book: kept,
            said: say_figures(kept, out),
        },
    }
}
