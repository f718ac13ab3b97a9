// The repeatability test, the first qualifying group and the rounded mean (01, 'Proving' and 'Water
// draw'), for groups of any size. Nothing is asked of the values: where a product or a sum passes
// 64 bits, it is carried in two words.
#![tactic(auto)]

ghost use Rattle.std.specs.Prelude.{◌≡◌, ◌<◌, length, MatchOption};
ghost use Rattle.group.specs.Mean.{mean_of};
ghost use Rattle.group.specs.Spread.{spread_of};
ghost use Rattle.group.specs.Repeatability.{smallest, largest, qualifies, first_group};
ghost use Rattle.refusals.specs.Answered.{told};

use refusals::Refusal;

// The smallest and the largest value, and their spread in 0.001 % of the smallest.
#[derive(Clone, Copy)]
pub struct Extent {
    pub smallest: u64,
    pub largest: u64,
    pub spread: u64,
}

#[derive(Clone, Copy)]
struct Extremes {
    smallest: u64,
    largest: u64,
}

// The ends of the values lent; of no values there are none.
fn find_extremes(values: &[u64]) -> Option<Extremes>
    ensures { MatchOption result (length values.now ≡ 0) (λ ends. (0 < length values.now) × (ends.smallest ≡ smallest values.now) × (ends.largest ≡ largest values.now)) }
{
    let (first, rest) = values.split_first()?;
    let mut ends = Extremes {
        smallest: *first,
        largest: *first,
    };
    for x in rest {
        ends.smallest = ends.smallest.min(*x);
        ends.largest = ends.largest.max(*x);
    }
    Some(ends)
}

// The values lent, all of them, are a qualifying group; the limit is in 1 in 10,000.
pub fn is_group(values: &[u64], limit: u64) -> bool
    ensures { result ≡ qualifies limit values.now }
{
    let Some(ends) = find_extremes(values) else {
        return false;
    };
    let spread = exact::product(ends.largest - ends.smallest, 10000);
    let allowed = exact::product(limit, ends.smallest);
    exact::is_at_most(spread, allowed)
}

// The first `size` consecutive values that qualify.
pub fn first_group(values: &[u64], size: usize, limit: u64) -> Option<usize>
    ensures { result ≡ first_group limit size values.now }
{
    if size == 0 {
        return None;
    }
    values
        .windows(size)
        .position(|group| is_group(group, limit))
}

// The mean of the values lent, rounded, halves up; 0 of no values.
pub fn mean(values: &[u64]) -> u64
    ensures { result ≡ mean_of values.now }
{
    exact::value_or_zero(exact::rounded_quotient(exact::sum(values), values.len() as u64))
}

// The spread of the values lent, as people work it out; 9 where there is none to tell: no values, a
// smallest of 0, or a spread of more than 64 bits.
pub fn find_spread(values: &[u64]) -> Result<Extent, Refusal>
    ensures { told result ≡ spread_of values.now }
{
    let ends = find_extremes(values).ok_or(Refusal::NoGroup)?;
    let quotient = exact::rounded_ratio(ends.largest - ends.smallest, 100000, ends.smallest);
    let spread = quotient.map_err(|_| Refusal::NoGroup)?;
    Ok(Extent {
        smallest: ends.smallest,
        largest: ends.largest,
        spread,
    })
}
