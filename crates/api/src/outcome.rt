// What C is told of an answer before its values.
ghost use Rattle.std.specs.Prelude.{◌≡◌};
ghost use Rattle.refusals.specs.Answered.{told};
ghost use Rattle.api.specs.Flat.{number_in, record_in};

use refusals::{GivenBack, Refusal};

// Number 0 and record 0 where it is done.
pub(crate) fn give_back<T: Copy>(answer: Result<T, Refusal>) -> GivenBack
    ensures number { result.number ≡ number_in (told answer) }
    ensures record { result.at ≡ record_in (told answer) }
{
    match answer {
        Ok(_) => GivenBack { number: 0, at: 0 },
        Err(refusal) => refusals::give_back(refusal),
    }
}
