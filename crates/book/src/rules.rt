// The rules that figures agreed keep (02, 'Places by agreement').
ghost use Rattle.std.specs.Prelude.{◌≡◌, ◌-◌};
ghost use Rattle.book.specs.Figures.{over_shippers, reserve_in};
ghost use Rattle.book.specs.Rules.{is_share, are_shares, keep_rules};

use crate::{Book, Figures};

const MOST_RESERVE: u8 = 13;

// A shipper's own two figures.
#[tactic(auto, unfolding(crate::specs::Rules::is_share))]
fn is_share(reserve: u8, ceiling: u8) -> bool
    ensures { result ≡ is_share reserve ceiling }
{
    (1 <= reserve)
        & ((reserve <= MOST_RESERVE) & ((reserve <= ceiling) & (ceiling as usize <= Book::PLACES)))
}

fn add_reserves(figures: Figures) -> usize
    ensures { result ≡ over_shippers (reserve_in figures) }
{
    let reserves = figures.reserves;
    reserves.iter().map(|&reserve| reserve as usize).sum()
}

// Every shipper's own two figures.
fn are_shares(figures: Figures) -> bool
    ensures { result ≡ are_shares figures }
{
    let Figures { reserves, ceilings } = figures;
    reserves
        .iter()
        .zip(&ceilings)
        .all(|(&reserve, &ceiling)| is_share(reserve, ceiling))
}

pub(crate) fn keep_rules(figures: Figures) -> bool
    ensures { result ≡ keep_rules figures }
{
    are_shares(figures) && add_reserves(figures) <= Book::PLACES
}

// The places that are nobody's reserve.
pub(crate) fn count_commons(figures: Figures) -> usize
    ensures { result ≡ 16 - over_shippers (reserve_in figures) }
{
    Book::PLACES.saturating_sub(add_reserves(figures))
}
