// 02, 'Longer run records, and the way back', for C.
ghost use Rattle.std.specs.Prelude.{◌≡◌, length};
ghost use Rattle.refusals.specs.Told.{left_by};
ghost use Rattle.run.specs.declared.Form.TheVariants.{Short, Long};
ghost use Rattle.moving.specs.Judging.{move_of};
ghost use Rattle.moving.specs.Moved.{moved_bytes};
ghost use Rattle.api.specs.Flat.{flat_moved};
ghost use Rattle.refusals.specs.Answered.{told};

use crate::outcome::give_back;
use refusals::Refusal;

// How many records were moved.
#[repr(C)]
#[derive(Clone, Copy)]
pub struct EndakuroMoved {
    pub number: u16,
    pub at: u16,
    pub count: u16,
}

fn flatten(moved: Result<u16, Refusal>) -> EndakuroMoved
    ensures { result ≡ flat_moved (told moved) }
{
    let given = give_back(moved);
    EndakuroMoved {
        number: given.number as u16,
        at: given.at,
        count: moved.unwrap_or(0),
    }
}

// Short records into a buffer of long ones, or every byte of it left as found.
pub fn endakuro_forward(records: &[u8], buffer: &mut [u8]) -> EndakuroMoved
    ensures answer { result ≡ flat_moved (move_of Short records.now (length buffer.old)) }
    ensures left { buffer.new ≡ left_by (move_of Short records.now (length buffer.old)) (moved_bytes Short records.now) buffer.old }
{
    flatten(moving::forward(records, buffer))
}

// Long records into a buffer of short ones, where every count is whole.
pub fn endakuro_back(records: &[u8], buffer: &mut [u8]) -> EndakuroMoved
    ensures answer { result ≡ flat_moved (move_of Long records.now (length buffer.old)) }
    ensures left { buffer.new ≡ left_by (move_of Long records.now (length buffer.old)) (moved_bytes Long records.now) buffer.old }
{
    flatten(moving::back(records, buffer))
}
