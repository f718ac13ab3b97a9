// 02, 'Longer run records, and the way back', for C.
ghost use Rattle.std.specs.Prelude.{◌≡◌, length};
ghost use Rattle.refusals.specs.Told.{left_by};
ghost use Rattle.run.specs.declared.Form.TheVariants.{Short, Long};
ghost use Rattle.moving.specs.Judging.{move_of};
ghost use Rattle.moving.specs.Moved.{moved_bytes};
ghost use Rattle.api.specs.Flat.{flat_moved};

use api::moves::EndakuroMoved;

// Short records into a buffer of long ones, or every byte of it left as found.
#[unsafe(no_mangle)]
pub extern "C" fn endakuro_forward(records: &[u8], buffer: &mut [u8]) -> EndakuroMoved
    ensures answer { result ≡ flat_moved (move_of Short records.now (length buffer.old)) }
    ensures left { buffer.new ≡ left_by (move_of Short records.now (length buffer.old)) (moved_bytes Short records.now) buffer.old }
{
    api::moves::endakuro_forward(records, buffer)
}

// Long records into a buffer of short ones, where every count is whole.
#[unsafe(no_mangle)]
pub extern "C" fn endakuro_back(records: &[u8], buffer: &mut [u8]) -> EndakuroMoved
    ensures answer { result ≡ flat_moved (move_of Long records.now (length buffer.old)) }
    ensures left { buffer.new ≡ left_by (move_of Long records.now (length buffer.old)) (moved_bytes Long records.now) buffer.old }
{
    api::moves::endakuro_back(records, buffer)
}
