// 01, 'The book', and 02, 'Places by agreement', for C: the controller keeps one book in its own memory and changes it in place.
ghost use Rattle.std.specs.Prelude.{◌≡◌};
ghost use Rattle.book.specs.Calls.{request_of, after_request, withdrawal_of, after_withdrawal, take_of, after_take, setting_of, after_setting, commons_of};
ghost use Rattle.book.specs.Figures.{empty_book};
ghost use Rattle.book.specs.Sound.{is_sound};
ghost use Rattle.api.specs.Flat.{flat_done, flat_taken, flat_commons};

use api::books::{EndakuroCommons, EndakuroDone, EndakuroTaken};
use book::{Book, Figures};

// A new book: nothing waits in it.
#[unsafe(no_mangle)]
pub extern "C" fn endakuro_empty() -> Book
    ensures { result ≡ empty_book }
{
    api::books::endakuro_empty()
}

// A shipper asks that a request waits.
#[unsafe(no_mangle)]
pub extern "C" fn endakuro_request(kept: &mut Book, shipper: u8, number: u32) -> EndakuroDone
    ensures { (result ≡ flat_done (request_of kept.old shipper number)) × (kept.new ≡ after_request kept.old shipper number) }
{
    api::books::endakuro_request(kept, shipper, number)
}

// A shipper takes a request back.
#[unsafe(no_mangle)]
pub extern "C" fn endakuro_withdraw(kept: &mut Book, shipper: u8, number: u32) -> EndakuroDone
    ensures { (result ≡ flat_done (withdrawal_of kept.old shipper number)) × (kept.new ≡ after_withdrawal kept.old shipper number) }
{
    api::books::endakuro_withdraw(kept, shipper, number)
}

// The prover is free: the next request is handed out.
#[unsafe(no_mangle)]
pub extern "C" fn endakuro_take(kept: &mut Book) -> EndakuroTaken
    ensures { (result ≡ flat_taken (take_of kept.old)) × (kept.new ≡ after_take kept.old) }
{
    api::books::endakuro_take(kept)
}

// Figures are set on an empty book.
#[unsafe(no_mangle)]
pub extern "C" fn endakuro_set_figures(kept: &mut Book, figures: Figures) -> EndakuroDone
    ensures { (result ≡ flat_done (setting_of kept.old figures)) × (kept.new ≡ after_setting kept.old figures) }
{
    api::books::endakuro_set_figures(kept, figures)
}

// The shared places, and how many of them are used.
#[unsafe(no_mangle)]
pub extern "C" fn endakuro_commons(kept: &Book) -> EndakuroCommons
    ensures { result ≡ flat_commons (commons_of kept.now) }
{
    api::books::endakuro_commons(kept)
}

// Whether a book offered from outside is sound.
#[unsafe(no_mangle)]
pub extern "C" fn endakuro_is_sound(kept: &Book) -> bool
    ensures { result ≡ is_sound kept.now }
{
    api::books::endakuro_is_sound(kept)
}
