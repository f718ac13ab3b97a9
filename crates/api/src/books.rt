// 01, 'The book', and 02, 'Places by agreement', for C: the controller keeps one book in its own memory and changes it in place.
ghost use Rattle.std.specs.Prelude.{◌≡◌};
ghost use Rattle.book.specs.Calls.{request_of, after_request, withdrawal_of, after_withdrawal, take_of, after_take, setting_of, after_setting, commons_of};
ghost use Rattle.book.specs.Figures.{empty_book};
ghost use Rattle.book.specs.Sound.{is_sound};
ghost use Rattle.api.specs.Flat.{flat_done, flat_taken, flat_commons};
ghost use Rattle.refusals.specs.Answered.{told};

use crate::outcome::give_back;
use book::{Book, Figures, Handed, Shared};
use refusals::Refusal;

#[repr(C)]
#[derive(Clone, Copy)]
pub struct EndakuroDone {
    pub number: u16,
    pub at: u16,
}

// The request handed out, and its shipper.
#[repr(C)]
#[derive(Clone, Copy)]
pub struct EndakuroTaken {
    pub number: u16,
    pub at: u16,
    pub request: u32,
    pub shipper: u8,
}

// The shared places, and how many of them are used.
#[repr(C)]
#[derive(Clone, Copy)]
pub struct EndakuroCommons {
    pub number: u16,
    pub at: u16,
    pub commons: usize,
    pub used: usize,
}

// The book left by a call, and the call's answer.
#[derive(Clone, Copy)]
struct Left<A> {
    book: Book,
    answer: A,
}

fn flatten_change(answer: Result<(), Refusal>) -> EndakuroDone
    ensures { result ≡ flat_done (told answer) }
{
    let given = give_back(answer);
    EndakuroDone {
        number: given.number as u16,
        at: given.at,
    }
}

const NO_HANDOUT: Handed = Handed {
    shipper: 0,
    number: 0,
};

fn flatten_take(answer: Result<Handed, Refusal>) -> EndakuroTaken
    ensures { result ≡ flat_taken (told answer) }
{
    let given = give_back(answer);
    let handed = answer.unwrap_or(NO_HANDOUT);
    EndakuroTaken {
        number: given.number as u16,
        at: given.at,
        request: handed.number,
        shipper: handed.shipper,
    }
}

const NO_COMMONS: Shared = Shared {
    commons: 0,
    used: 0,
};

fn flatten_commons(answer: Result<Shared, Refusal>) -> EndakuroCommons
    ensures { result ≡ flat_commons (told answer) }
{
    let given = give_back(answer);
    let shared = answer.unwrap_or(NO_COMMONS);
    EndakuroCommons {
        number: given.number as u16,
        at: given.at,
        commons: shared.commons,
        used: shared.used,
    }
}

fn flatten_changed(done: book::Changed) -> Left<EndakuroDone>
    ensures { (result.answer ≡ flat_done (told done.answer)) × (result.book ≡ done.book) }
{
    let left = done.book;
    let answer = done.answer;
    Left {
        book: left,
        answer: flatten_change(answer),
    }
}

fn enter(book: Book, shipper: u8, number: u32) -> Left<EndakuroDone>
    ensures { (result.answer ≡ flat_done (request_of book shipper number)) × (result.book ≡ after_request book shipper number) }
{
    flatten_changed(book::request(book, shipper, number))
}

fn remove(book: Book, shipper: u8, number: u32) -> Left<EndakuroDone>
    ensures { (result.answer ≡ flat_done (withdrawal_of book shipper number)) × (result.book ≡ after_withdrawal book shipper number) }
{
    flatten_changed(book::withdraw(book, shipper, number))
}

fn serve(book: Book) -> Left<EndakuroTaken>
    ensures { (result.answer ≡ flat_taken (take_of book)) × (result.book ≡ after_take book) }
{
    let done = book::take(book);
    let left = done.book;
    let handout = done.answer;
    Left {
        book: left,
        answer: flatten_take(handout),
    }
}

fn agree(book: Book, figures: Figures) -> Left<EndakuroDone>
    ensures { (result.answer ≡ flat_done (setting_of book figures)) × (result.book ≡ after_setting book figures) }
{
    flatten_changed(book::set_figures(book, figures))
}

fn share(book: Book) -> EndakuroCommons
    ensures { result ≡ flat_commons (commons_of book) }
{
    flatten_commons(book::tell_commons(book))
}

fn judge(book: Book) -> bool
    ensures { result ≡ is_sound book }
{
    book::is_sound(book)
}

// A new book: nothing waits in it.
pub fn endakuro_empty() -> Book
    ensures { result ≡ empty_book }
{
    Book::empty()
}

// A shipper asks that a request waits.
pub fn endakuro_request(kept: &mut Book, shipper: u8, number: u32) -> EndakuroDone
    ensures { (result ≡ flat_done (request_of kept.old shipper number)) × (kept.new ≡ after_request kept.old shipper number) }
{
    let done = enter(*kept, shipper, number);
    *kept = done.book;
    done.answer
}

// A shipper takes a request back.
pub fn endakuro_withdraw(kept: &mut Book, shipper: u8, number: u32) -> EndakuroDone
    ensures { (result ≡ flat_done (withdrawal_of kept.old shipper number)) × (kept.new ≡ after_withdrawal kept.old shipper number) }
{
    let done = remove(*kept, shipper, number);
    *kept = done.book;
    done.answer
}

// The prover is free: the next request is handed out.
pub fn endakuro_take(kept: &mut Book) -> EndakuroTaken
    ensures { (result ≡ flat_taken (take_of kept.old)) × (kept.new ≡ after_take kept.old) }
{
    let done = serve(*kept);
    *kept = done.book;
    done.answer
}

// Figures are set on an empty book.
pub fn endakuro_set_figures(kept: &mut Book, figures: Figures) -> EndakuroDone
    ensures { (result ≡ flat_done (setting_of kept.old figures)) × (kept.new ≡ after_setting kept.old figures) }
{
    let done = agree(*kept, figures);
    *kept = done.book;
    done.answer
}

// The shared places, and how many of them are used.
pub fn endakuro_commons(kept: &Book) -> EndakuroCommons
    ensures { result ≡ flat_commons (commons_of kept.now) }
{
    share(*kept)
}

// Whether a book offered from outside is sound.
pub fn endakuro_is_sound(kept: &Book) -> bool
    ensures { result ≡ is_sound kept.now }
{
    judge(*kept)
}
