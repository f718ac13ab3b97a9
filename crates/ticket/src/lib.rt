// The measurement ticket of 01, 'Ticket': from two meter readings to gross standard and net volume.
// Volumes are in 0.01 barrel, factors in 0.0001.
#![tactic(auto)]

ghost use Rattle.std.specs.Prelude.{◌≡◌, true, ◌*◌, ◌≤◌, ◌<◌};
ghost use Rattle.exact.specs.Rounding.{rounded_div};
ghost use Rattle.ticket.specs.Ranges.{ticket_ok};
ghost use Rattle.ticket.specs.Answers.{volumes, ticket_of};
ghost use Rattle.refusals.specs.Answered.{told};

use factors::{Liquid, Places};
use refusals::Refusal;

#[derive(Clone, Copy)]
pub struct Ticket {
    // the meter's readings, 0.01 barrel
    pub opening: u32,
    pub closing: u32,
    // the supplied meter factor (MF) and CTL, 0.0001
    pub mf: u16,
    pub ctl: u16,
    // what CPL is made from
    pub liquid: Liquid,
    // sediment and water S, 0.001 %
    pub sediment: u32,
}

#[derive(Clone, Copy)]
pub struct Volumes {
    // 0.0001
    pub factor: u32,
    // 0.01 barrel
    pub gross: u32,
    pub net: u32,
}

// Every field is within its range.
fn is_ticket(ticket: Ticket) -> bool
    ensures { result ≡ ticket_ok ticket }
{
    ranges::is_reading(ticket.opening as u64)
        & (ranges::is_reading(ticket.closing as u64)
            & (ranges::is_meter_factor(ticket.mf as u64)
                & (ranges::is_ctl(ticket.ctl as u64)
                    & (factors::is_liquid(ticket.liquid)
                        & ranges::is_sediment(ticket.sediment as u64)))))
}

// a * b / d to the nearest whole number, halves up, where 32 bits hold it.
fn round(a: u64, b: u64, d: u64) -> u32
    requires { (0 < d) × (a * b ≤ 4294967295 * d) }
    ensures { result ≡ rounded_div (a * b) d }
{
    exact::round_or_zero(a, b, d) as u32
}

// The volumes of a ticket that is in order. Each starts from the rounded one before it.
fn correct(ticket: Ticket) -> Volumes
    requires { (ticket_ok ticket ≡ true) × (ticket.opening ≤ ticket.closing) }
    ensures { result ≡ volumes ticket }
{
    let cpl = factors::value_or_zero(factors::cpl(ticket.liquid, Places::Four));
    let indicated = (ticket.closing - ticket.opening) as u64;
    let supplied = ticket.mf as u64 * ticket.ctl as u64;
    let kept = 100000 - ticket.sediment as u64;
    let factor = round(supplied, cpl as u64, 100000000);
    let gross = round(indicated, factor as u64, 10000);
    let net = round(gross as u64, kept, 100000);
    Volumes { factor, gross, net }
}

// The ticket worked out: any field out of range is 10, then closing below opening 11.
pub fn work_out(ticket: Ticket) -> Result<Volumes, Refusal>
    ensures { told result ≡ ticket_of ticket }
{
    refusals::demand(is_ticket(ticket), Refusal::TicketField)?;
    refusals::demand(
        ticket.opening <= ticket.closing,
        Refusal::ClosingBelowOpening,
    )?;
    Ok(correct(ticket))
}
