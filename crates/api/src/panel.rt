// 02, 'Numbers for the panel', for C.
ghost use Rattle.std.specs.Prelude.{◌≡◌};
ghost use Rattle.live.specs.Panel.{panel_temperature_of, panel_pressure_of};
ghost use Rattle.api.specs.Flat.{flat_panel};
ghost use Rattle.refusals.specs.Answered.{told};

use crate::outcome::give_back;
use refusals::Refusal;

// °F, or psi gage.
#[repr(C)]
#[derive(Clone, Copy)]
pub struct EndakuroPanel {
    pub number: u16,
    pub at: u16,
    pub shown: f32,
}

fn flatten(panel: Result<f32, Refusal>) -> EndakuroPanel
    ensures { result ≡ flat_panel (told panel) }
{
    let given = give_back(panel);
    EndakuroPanel {
        number: given.number as u16,
        at: given.at,
        shown: panel.unwrap_or(0.0),
    }
}

// 0.1 °F.
pub fn endakuro_panel_temperature(tenths: i16) -> EndakuroPanel
    ensures { result ≡ flat_panel (panel_temperature_of tenths) }
{
    flatten(live::panel::show_temperature(tenths))
}

// psi gage.
pub fn endakuro_panel_pressure(psi: u16) -> EndakuroPanel
    ensures { result ≡ flat_panel (panel_pressure_of psi) }
{
    flatten(live::panel::show_pressure(psi))
}
