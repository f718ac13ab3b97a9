// What a call is answered, in the paper's order: lowest number first.
ghost use Rattle.std.specs.Prelude.{◌≡◌, true, ◌<◌};
ghost use Rattle.refusals.specs.Told.{demand};
ghost use Rattle.book.specs.Calls.{call_fault, entry_fault, request_fault, withdrawal_fault, next_turn, handed_out, take_of, setting_fault};
ghost use Rattle.book.specs.Sound.{is_sound};
ghost use Rattle.refusals.specs.Answered.{fault_of, told};

use crate::{Book, Figures, Handed, SHIPPERS, rules, sound};
use refusals::{Refusal, demand};

// 20, which every call shares.
fn judge_book(book: Book) -> Result<(), Refusal>
    ensures { fault_of result ≡ demand (is_sound book) 20 }
{
    demand(sound::is_sound(book), Refusal::BookNotSound)
}

// 20, 21 and 22, which a request and a withdrawal share.
#[tactic(auto, unfolding(crate::specs::Calls::call_fault, crate::specs::Figures::shippers))]
fn judge_call(book: Book, shipper: u8, number: u32) -> Result<(), Refusal>
    ensures { fault_of result ≡ call_fault book shipper number }
{
    judge_book(book)?;
    demand(shipper < SHIPPERS, Refusal::UnknownShipper)?;
    demand(number != 0, Refusal::NumberZero)
}

// 23, 24 and 25, once none of the first three applies.
fn judge_entry(book: Book, shipper: u8, number: u32) -> Result<(), Refusal>
    requires { shipper < 4 }
    ensures { fault_of result ≡ entry_fault book shipper number }
{
    let figures = book.figures;
    let commons_free = sound::count_commons_used(book) < rules::count_commons(figures);
    let at = shipper as usize;
    let waiting = book.lines[at].waiting();
    let reserve_free = waiting.len() < figures.reserves[at] as usize;
    demand(!waiting.contains(&number), Refusal::AlreadyWaiting)?;
    demand(
        waiting.len() < figures.ceilings[at] as usize,
        Refusal::CeilingReached,
    )?;
    demand(reserve_free | commons_free, Refusal::CommonsFull)
}

#[tactic(auto, unfolding(crate::specs::Calls::request_fault))]
pub(crate) fn judge_request(book: Book, shipper: u8, number: u32) -> Result<(), Refusal>
    ensures { fault_of result ≡ request_fault book shipper number }
{
    judge_call(book, shipper, number)?;
    judge_entry(book, shipper, number)
}

// 26 comes once none of the first three applies.
#[tactic(auto, unfolding(crate::specs::Calls::withdrawal_fault))]
pub(crate) fn judge_withdrawal(book: Book, shipper: u8, number: u32) -> Result<(), Refusal>
    ensures { fault_of result ≡ withdrawal_fault book shipper number }
{
    judge_call(book, shipper, number)?;
    demand(
        book.lines[shipper as usize].waiting().contains(&number),
        Refusal::NotWaiting,
    )
}

// The oldest request of the first shipper with any, going round from the one after the last
// served, who is the last tried; 27 where none has any.
fn hand_out(book: Book) -> Result<Handed, Refusal>
    requires { is_sound book ≡ true }
    ensures { told result ≡ handed_out book (next_turn book) }
{
    for turn in 1..=SHIPPERS {
        let shipper = (book.last + turn) % SHIPPERS;
        if let Some(&number) = book.lines[shipper as usize].waiting().first() {
            return Ok(Handed { shipper, number });
        }
    }
    Err(Refusal::NothingToTake)
}

#[tactic(auto, unfolding(crate::specs::Calls::take_of))]
pub(crate) fn judge_take(book: Book) -> Result<Handed, Refusal>
    ensures { told result ≡ take_of book }
{
    judge_book(book)?;
    hand_out(book)
}

#[tactic(auto, unfolding(crate::specs::Calls::setting_fault))]
pub(crate) fn judge_setting(book: Book, figures: Figures) -> Result<(), Refusal>
    ensures { fault_of result ≡ setting_fault book figures }
{
    judge_book(book)?;
    demand(sound::is_empty(book), Refusal::BookNotEmpty)?;
    demand(rules::keep_rules(figures), Refusal::FiguresOutside)
}
