// 01, 'Ticket', for C.
ghost use Rattle.std.specs.Prelude.{◌≡◌};
ghost use Rattle.ticket.specs.Answers.{ticket_of};
ghost use Rattle.api.specs.Given.{ticket_by};
ghost use Rattle.api.specs.Flat.{flat_volumes};

use api::tickets::{EndakuroTicket, EndakuroVolumes};

#[unsafe(no_mangle)]
pub extern "C" fn endakuro_ticket(given: EndakuroTicket) -> EndakuroVolumes
    ensures { result ≡ flat_volumes (ticket_of (ticket_by given)) }
{
    api::tickets::endakuro_ticket(given)
}
