// The entries by their names and operands (docs/LINES.md).
use crate::operands::{Kind, kind_at};
use draw::Profile;
use lines::operands::has_form;
use run::Form;

#[derive(Clone, Copy)]
pub(crate) enum Entry {
    Kept(Keeping),
    Called(Call),
}

// What the kept book is asked.
#[derive(Clone, Copy)]
pub(crate) enum Keeping {
    Request,
    Withdraw,
    Take,
    Load,
    Empty,
    Book,
    Set,
    Figures,
}

// What the library is asked beside the book; a form is that of the run records lent.
#[derive(Clone, Copy)]
pub(crate) enum Call {
    Prove(Form),
    Move(Form),
    Write,
    Runs(Form),
    Run(Form),
    Read,
    Draw(Profile),
    Volumes(Profile),
    Fill,
    LookUp,
    Cts,
    Cps,
    Cpl,
    Ticket,
    Live,
    Channels,
    Spread,
    PanelTemperature,
    PanelPressure,
}

// An entry, and the kinds of its line's words, the name's own (n) first.
#[derive(Clone, Copy)]
struct Row<'a> {
    entry: Entry,
    form: &'a [u8],
}

fn kept<'a>(entry: Keeping, form: &'a [u8]) -> Row<'a> {
    Row {
        entry: Entry::Kept(entry),
        form,
    }
}

fn called<'a>(call: Call, form: &'a [u8]) -> Row<'a> {
    Row {
        entry: Entry::Called(call),
        form,
    }
}

// The last served, four counts, eight figures and four times sixteen places.
const BOOK: &[u8] =
    b"nbbbbbbbbbbbbbwwwwwwwwwwwwwwwwwwwwwwwwwwwwwwwwwwwwwwwwwwwwwwwwwwwwwwwwwwwwwwww";

// None where the name is unknown.
fn find_row<'a>(line: &[u8]) -> Option<Row<'a>> {
    let row = match words::word(line, 0) {
        b"request" => kept(Keeping::Request, b"nbw"),
        b"withdraw" => kept(Keeping::Withdraw, b"nbw"),
        b"take" => kept(Keeping::Take, b"n"),
        b"load" => kept(Keeping::Load, BOOK),
        b"empty" => kept(Keeping::Empty, b"n"),
        b"book" => kept(Keeping::Book, b"n"),
        b"set" => kept(Keeping::Set, b"nbbbbbbbb"),
        b"figures" => kept(Keeping::Figures, b"n"),
        b"prove" => called(Call::Prove(Form::Short), b"nwbhwwwwwhxx"),
        b"prove_long" => called(Call::Prove(Form::Long), b"nwbhwwwwwhxx"),
        b"forward" => called(Call::Move(Form::Short), b"nxx"),
        b"back" => called(Call::Move(Form::Long), b"nxx"),
        b"write" => called(Call::Write, b"nwbbhhhhhx"),
        b"runs" => called(Call::Runs(Form::Short), b"nbhwwwwwhx"),
        b"runs_long" => called(Call::Runs(Form::Long), b"nbhwwwwwhx"),
        b"run" => called(Call::Run(Form::Short), b"nbhwwwwwx"),
        b"run_long" => called(Call::Run(Form::Long), b"nbhwwwwwx"),
        b"read" => called(Call::Read, b"nx"),
        b"draw" => called(Call::Draw(Profile::Unidirectional), b"nbhwwwwx"),
        b"fill" => called(Call::Fill, b"nbhx"),
        b"passes" => called(Call::Volumes(Profile::Unidirectional), b"nbhwwwwx"),
        b"bidirectional" => called(Call::Draw(Profile::Bidirectional), b"nbhwwwwx"),
        b"trips" => called(Call::Volumes(Profile::Bidirectional), b"nbhwwwwx"),
        b"look_up" => called(Call::LookUp, b"nshx"),
        b"cts" => called(Call::Cts, b"nsbhp"),
        b"cps" => called(Call::Cps, b"nhwwwp"),
        b"cpl" => called(Call::Cpl, b"nhhhp"),
        b"ticket" => called(Call::Ticket, b"nwwhhhhhw"),
        b"live" => called(Call::Live, b"nff"),
        b"spread" => called(Call::Spread, b"ndddddddddddddddddddd"),
        b"panel_temperature" => called(Call::PanelTemperature, b"ns"),
        b"panel_pressure" => called(Call::PanelPressure, b"nh"),
        b"channels" => called(Call::Channels, channels_form(line)?),
        _ => return None,
    };
    Some(row)
}

// The channels have a form each, by their kinds: a single, or the code of a fault. What is no kind has no form.
fn channels_form<'a>(line: &[u8]) -> Option<&'a [u8]> {
    let first = kind_at(line, 1)?;
    let second = kind_at(line, 3)?;
    Some(match (first, second) {
        (Kind::Fault, Kind::Fault) => b"nnbnb",
        (Kind::Fault, _) => b"nnbnf",
        (_, Kind::Fault) => b"nnfnb",
        _ => b"nnfnf",
    })
}

// A spread is of one value or more, up to as many as its form has; every other line has all its words.
fn find_least(row: Row) -> usize {
    match row.entry {
        Entry::Called(Call::Spread) => 2,
        _ => row.form.len(),
    }
}

// The entry that a line names, where each word is of its kind.
pub(crate) fn find_entry(line: &[u8]) -> Option<Entry> {
    let row = find_row(line)?;
    if has_form(line, row.form, find_least(row)) {
        Some(row.entry)
    } else {
        None
    }
}
