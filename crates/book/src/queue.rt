// A line on its own: what waits in it, where a number waits, a number added at the end, a place given up.
ghost use Rattle.std.specs.Prelude.{◌≡◌, ◌==◌, true, [], ◌∷◌, ◌++◌, ◌+◌, ◌<◌, ◌≤◌, take, drop, position};
ghost use Rattle.octets.specs.Octets.{zero_between};
ghost use Rattle.book.specs.Line.{width, waiting, line_of};

use crate::Line;

const LAST_PLACE: usize = Line::WIDTH - 1;

impl Line {
    // The numbers that wait, oldest first. A count from outside may be past the places that there are.
    #[tactic(auto, unfolding(crate::specs::Line::waiting))]
    pub(crate) fn waiting(&self) -> &[u32]
        ensures { result.now ≡ waiting self.now }
    {
        &self.numbers[..self.count.min(Line::WIDTH)]
    }
}

// The first place at which the number waits.
pub(crate) fn place(line: Line, number: u32) -> Option<usize>
    ensures { result ≡ position (λ waiting. waiting == number) (waiting line) }
{
    line.waiting().iter().position(|&waiting| waiting == number)
}

// The line with one more number waiting behind the others.
pub(crate) fn lengthen(line: Line, number: u32) -> Line
    requires { (line.count < width) × (zero_between line.numbers line.count width ≡ true) }
    ensures { result ≡ line_of (waiting line ++ (number ∷ [])) }
{
    let mut next = line;
    next.numbers[line.count] = number;
    next.count += 1;
    next
}

// The line without the number at a place: those behind it move up, and a zero comes in at the end.
pub(crate) fn shorten(line: Line, at: usize) -> Line
    requires { (line.count ≤ width) × (at < line.count) × (zero_between line.numbers line.count width ≡ true) }
    ensures { result ≡ line_of (take at (waiting line) ++ drop (at + 1) (waiting line)) }
{
    let mut next = line;
    next.numbers.copy_within(at + 1.., at);
    next.numbers[LAST_PLACE] = 0;
    next.count -= 1;
    next
}
