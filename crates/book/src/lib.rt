// The book of waiting requests (01, 'The book'; 02, 'Places by agreement'), by value: it goes in and comes back with each call,
// and a refusal hands the same book back. The answer stands beside it.
#![tactic(auto)]

ghost use Rattle.std.specs.Prelude.{◌≡◌, true, ◌<◌};
ghost use Rattle.refusals.specs.Told.{Fault, judged, left_by};
ghost use Rattle.octets.specs.Lists.{is_one_of};
ghost use Rattle.book.specs.Calls.{request_fault, request_of, entered, after_request, withdrawal_fault, withdrawal_of, removed, after_withdrawal, take_of, after_take, agreed, setting_fault, setting_of, after_setting, commons_of};
ghost use Rattle.book.specs.Figures.{empty_book, waiting_of};
ghost use Rattle.book.specs.Sound.{is_sound};
ghost use Rattle.refusals.specs.Answered.{told};

use refusals::Refusal;

mod judge;
mod queue;
mod rules;
mod sound;

pub use sound::is_sound;

// Shippers 0 to 3.
const SHIPPERS: u8 = 4;

// The requests of one shipper that wait, oldest first. Laid out as C does, for controllers that
// keep a book.
#[repr(C)]
#[derive(Clone, Copy)]
pub struct Line {
    pub numbers: [u32; Line::WIDTH],
    pub count: usize,
}

impl Line {
    // As many numbers as a book has places, so that no agreement about places changes the record.
    pub const WIDTH: usize = 16;
}

// Reserves and ceilings by agreement, those of shippers 0 to 3.
#[repr(C)]
#[derive(Clone, Copy)]
pub struct Figures {
    pub reserves: [u8; 4],
    pub ceilings: [u8; 4],
}

// The lines of shippers 0 to 3, the shipper whose request was handed out last, and the figures agreed.
#[repr(C)]
#[derive(Clone, Copy)]
pub struct Book {
    pub lines: [Line; 4],
    pub last: u8,
    pub figures: Figures,
}

impl Book {
    // For all shippers together.
    pub const PLACES: usize = 16;

    // Of each shipper, as long as nothing else is agreed.
    pub const RESERVE: u8 = 2;

    pub const CEILING: u8 = 8;

    // A new book has 3 as last served: the first turn is shipper 0's.
    pub fn empty() -> Book
        ensures { result ≡ empty_book }
    {
        let line = Line {
            numbers: [0; Line::WIDTH],
            count: 0,
        };
        let figures = Figures {
            reserves: [Book::RESERVE; 4],
            ceilings: [Book::CEILING; 4],
        };
        Book {
            lines: [line; 4],
            last: 3,
            figures,
        }
    }
}

// A type of its own beside `Taken`, since the named theorems on sessions speak of both.
#[derive(Clone, Copy)]
pub struct Changed {
    pub book: Book,
    pub answer: Result<(), Refusal>,
}

// A request that a take hands out: its shipper and its number, the oldest that the shipper has.
#[derive(Clone, Copy)]
pub struct Handed {
    pub shipper: u8,
    pub number: u32,
}

#[derive(Clone, Copy)]
pub struct Taken {
    pub book: Book,
    pub answer: Result<Handed, Refusal>,
}

// The places that are nobody's reserve, and how many of them are used.
#[derive(Clone, Copy)]
pub struct Shared {
    pub commons: usize,
    pub used: usize,
}

// The answer of a call, and the book that it leaves: a refusal hands the same book back.
fn change(book: Book, next: Result<Book, Refusal>) -> Changed
    ensures answer { (f : Fault) (made : Book) → told next ≡ judged f made → told result.answer ≡ judged f tt }
    ensures book { result.book ≡ left_by (told next) (λ left. left) book }
{
    match next {
        Ok(left) => Changed {
            book: left,
            answer: Ok(()),
        },
        Err(refusal) => Changed {
            book,
            answer: Err(refusal),
        },
    }
}

// The book with the request waiting behind those of its own shipper.
#[tactic(auto, unfolding(crate::specs::Calls::entered))]
fn enter(book: Book, shipper: u8, number: u32) -> Result<Book, Refusal>
    ensures { told result ≡ judged (request_fault book shipper number) (entered book shipper number) }
{
    judge::judge_request(book, shipper, number)?;
    let at = shipper as usize;
    let mut next = book;
    next.lines[at] = queue::lengthen(book.lines[at], number);
    Ok(next)
}

// A shipper asks that a request waits.
#[tactic(auto, using(crate::proofs::Changes::judged_left), unfolding(crate::specs::Calls::request_of, crate::specs::Calls::after_request))]
pub fn request(book: Book, shipper: u8, number: u32) -> Changed
    ensures { (told result.answer ≡ request_of book shipper number) × (result.book ≡ after_request book shipper number) }
{
    change(book, enter(book, shipper, number))
}

// The book without the request, and with this last served; the rest of its shipper's wait in their
// order.
fn remove(book: Book, shipper: u8, number: u32, last: u8) -> Book
    requires { (is_sound book ≡ true) × (shipper < 4) × (is_one_of number (waiting_of book shipper) ≡ true) }
    ensures { result ≡ removed book shipper number last }
{
    let at = shipper as usize;
    let line = book.lines[at];
    let place = queue::place(line, number).unwrap();
    let mut next = book;
    next.lines[at] = queue::shorten(line, place);
    next.last = last;
    next
}

// The book without the request, if it waits.
fn take_back(book: Book, shipper: u8, number: u32) -> Result<Book, Refusal>
    ensures { told result ≡ judged (withdrawal_fault book shipper number) (removed book shipper number book.last) }
{
    judge::judge_withdrawal(book, shipper, number)?;
    Ok(remove(book, shipper, number, book.last))
}

// A shipper takes a request back.
#[tactic(auto, using(crate::proofs::Changes::judged_left), unfolding(crate::specs::Calls::withdrawal_of, crate::specs::Calls::after_withdrawal))]
pub fn withdraw(book: Book, shipper: u8, number: u32) -> Changed
    ensures { (told result.answer ≡ withdrawal_of book shipper number) × (result.book ≡ after_withdrawal book shipper number) }
{
    change(book, take_back(book, shipper, number))
}

// The prover is free: the next request is handed out.
pub fn take(book: Book) -> Taken
    ensures { (told result.answer ≡ take_of book) × (result.book ≡ after_take book) }
{
    let answer = judge::judge_take(book);
    match answer {
        Ok(handed) => Taken {
            book: remove(book, handed.shipper, handed.number, handed.shipper),
            answer,
        },
        Err(_) => Taken { book, answer },
    }
}

// The book with other figures: the turn order is kept.
#[tactic(auto, unfolding(crate::specs::Calls::agreed))]
fn agree(book: Book, figures: Figures) -> Result<Book, Refusal>
    ensures { told result ≡ judged (setting_fault book figures) (agreed book figures) }
{
    judge::judge_setting(book, figures)?;
    Ok(Book { figures, ..book })
}

// Figures are set on an empty book.
#[tactic(auto, using(crate::proofs::Changes::judged_left), unfolding(crate::specs::Calls::setting_of, crate::specs::Calls::after_setting))]
pub fn set_figures(book: Book, figures: Figures) -> Changed
    ensures { (told result.answer ≡ setting_of book figures) × (result.book ≡ after_setting book figures) }
{
    change(book, agree(book, figures))
}

// The shared places, and how many of them are used.
#[tactic(auto, unfolding(crate::specs::Calls::commons_of, crate::specs::Figures::commons, crate::specs::Figures::places, crate::specs::Figures::reserve))]
pub fn tell_commons(book: Book) -> Result<Shared, Refusal>
    ensures { told result ≡ commons_of book }
{
    refusals::demand(sound::is_sound(book), Refusal::BookNotSound)?;
    Ok(Shared {
        commons: rules::count_commons(book.figures),
        used: sound::count_commons_used(book),
    })
}
