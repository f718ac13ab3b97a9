// Whether a book offered from outside is sound (01, 'The book'; 02, 'Places by agreement').
ghost use Rattle.std.specs.Prelude.{◌≡◌, ◌-◌, ◌≤◌, eqb, length};
ghost use Rattle.octets.specs.Octets.{zero_between};
ghost use Rattle.book.specs.Figures.{held, commons_used};
ghost use Rattle.book.specs.Line.{width, waiting, are_proper};
ghost use Rattle.book.specs.Sound.{is_line_sound, are_lines_sound, is_sound};

use crate::{Book, Line, SHIPPERS, rules};

// Waiting numbers are non-zero and differ within a shipper.
fn are_proper(waiting: &[u32]) -> bool
    ensures { result ≡ are_proper waiting.now }
{
    let mut left = waiting;
    while let Some((number, behind)) = left.split_first() {
        if *number == 0 || behind.contains(number) {
            return false;
        }
        left = behind;
    }
    true
}

// Unused places are zero.
fn are_unused_zero(line: &Line) -> bool
    ensures { result ≡ zero_between line.now.numbers line.now.count width }
{
    line.numbers
        .iter()
        .skip(line.count)
        .all(|&number| number == 0)
}

fn is_line_sound(line: &Line, ceiling: u8) -> bool
    ensures { result ≡ is_line_sound ceiling line.now }
{
    line.count <= ceiling as usize && are_proper(line.waiting()) && are_unused_zero(line)
}

fn are_lines_sound(book: Book) -> bool
    ensures { result ≡ are_lines_sound book }
{
    let ceilings = book.figures.ceilings;
    book.lines
        .iter()
        .zip(&ceilings)
        .all(|(line, &ceiling)| is_line_sound(line, ceiling))
}

// What a shipper has waiting beyond its reserve.
fn count_beyond(line: &Line, reserve: u8) -> usize
    ensures beyond { result ≡ length (waiting line.now) - reserve }
    ensures most { result ≤ width }
{
    line.waiting().len().saturating_sub(reserve as usize)
}

pub(crate) fn count_commons_used(book: Book) -> usize
    ensures { result ≡ commons_used book }
{
    let reserves = book.figures.reserves;
    book.lines
        .iter()
        .zip(&reserves)
        .map(|(line, &reserve)| count_beyond(line, reserve))
        .sum()
}

// Nothing waits.
pub(crate) fn is_empty(book: Book) -> bool
    ensures { result ≡ eqb (held book) 0 }
{
    book.lines.iter().all(|line| line.waiting().is_empty())
}

// The figures keep the rules, counts and commons keep the figures, waiting numbers are non-zero and
// differ within a shipper, unused places are zero, and the last served is 0 to 3.
pub fn is_sound(book: Book) -> bool
    ensures { result ≡ is_sound book }
{
    rules::keep_rules(book.figures)
        && are_lines_sound(book)
        && count_commons_used(book) <= rules::count_commons(book.figures)
        && book.last < SHIPPERS
}
