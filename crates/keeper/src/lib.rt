// The controller keeps one book and changes it in place (01, 'The book'). Each function takes the
// book apart and calls the by-value one; the answer and the book left are that one's.
#![tactic(auto)]

ghost use Rattle.std.specs.Prelude.{◌≡◌};
ghost use Rattle.book.specs.Calls.{request_of, after_request, withdrawal_of, after_withdrawal, take_of, after_take, setting_of, after_setting};
ghost use Rattle.refusals.specs.Answered.{told};

use book::{Book, Figures, Handed};
use refusals::Refusal;

// A shipper asks that a request waits.
pub fn request(kept: &mut Book, shipper: u8, number: u32) -> Result<(), Refusal>
    ensures { (told result ≡ request_of kept.old shipper number) × (kept.new ≡ after_request kept.old shipper number) }
{
    let done = book::request(*kept, shipper, number);
    *kept = done.book;
    done.answer
}

// A shipper takes a request back.
pub fn withdraw(kept: &mut Book, shipper: u8, number: u32) -> Result<(), Refusal>
    ensures { (told result ≡ withdrawal_of kept.old shipper number) × (kept.new ≡ after_withdrawal kept.old shipper number) }
{
    let done = book::withdraw(*kept, shipper, number);
    *kept = done.book;
    done.answer
}

// The prover is free: the next request is handed out.
pub fn take(kept: &mut Book) -> Result<Handed, Refusal>
    ensures { (told result ≡ take_of kept.old) × (kept.new ≡ after_take kept.old) }
{
    let done = book::take(*kept);
    *kept = done.book;
    done.answer
}

// Figures are set on an empty book.
pub fn set_figures(kept: &mut Book, figures: Figures) -> Result<(), Refusal>
    ensures { (told result ≡ setting_of kept.old figures) × (kept.new ≡ after_setting kept.old figures) }
{
    let done = book::set_figures(*kept, figures);
    *kept = done.book;
    done.answer
}
