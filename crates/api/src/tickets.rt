// 01, 'Ticket', for C.
ghost use Rattle.std.specs.Prelude.{◌≡◌};
ghost use Rattle.ticket.specs.Answers.{ticket_of};
ghost use Rattle.api.specs.Given.{ticket_by};
ghost use Rattle.api.specs.Flat.{flat_volumes};
ghost use Rattle.refusals.specs.Answered.{told};

use crate::outcome::give_back;
use factors::Liquid;
use refusals::Refusal;
use ticket::{Ticket, Volumes};

// Readings in 0.01 barrel, the meter factor and CTL in 0.0001, P and Pe in psi gage, F in 10^-8 per psi, S in
// 0.001 %.
#[repr(C)]
#[derive(Clone, Copy)]
pub struct EndakuroTicket {
    pub opening: u32,
    pub closing: u32,
    pub mf: u16,
    pub ctl: u16,
    pub pressure: u16,
    pub compressibility: u16,
    pub equilibrium: u16,
    pub sediment: u32,
}

// The factor in 0.0001, gross standard and net volume in 0.01 barrel.
#[repr(C)]
#[derive(Clone, Copy)]
pub struct EndakuroVolumes {
    pub number: u16,
    pub at: u16,
    pub factor: u32,
    pub gross: u32,
    pub net: u32,
}

const NO_VOLUMES: Volumes = Volumes {
    factor: 0,
    gross: 0,
    net: 0,
};

fn flatten(measured: Result<Volumes, Refusal>) -> EndakuroVolumes
    ensures { result ≡ flat_volumes (told measured) }
{
    let given = give_back(measured);
    let volumes = measured.unwrap_or(NO_VOLUMES);
    EndakuroVolumes {
        number: given.number as u16,
        at: given.at,
        factor: volumes.factor,
        gross: volumes.gross,
        net: volumes.net,
    }
}

pub fn endakuro_ticket(given: EndakuroTicket) -> EndakuroVolumes
    ensures { result ≡ flat_volumes (ticket_of (ticket_by given)) }
{
    let liquid = Liquid {
        pressure: given.pressure,
        compressibility: given.compressibility,
        equilibrium: given.equilibrium,
    };
    let ticket = Ticket {
        opening: given.opening,
        closing: given.closing,
        mf: given.mf,
        ctl: given.ctl,
        liquid,
        sediment: given.sediment,
    };
    flatten(ticket::work_out(ticket))
}
