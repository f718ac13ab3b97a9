// 02, 'Numbers for the panel', for C.
ghost use Rattle.std.specs.Prelude.{◌≡◌};
ghost use Rattle.live.specs.Panel.{panel_temperature_of, panel_pressure_of};
ghost use Rattle.api.specs.Flat.{flat_panel};

use api::panel::EndakuroPanel;

// 0.1 °F.
#[unsafe(no_mangle)]
pub extern "C" fn endakuro_panel_temperature(tenths: i16) -> EndakuroPanel
    ensures { result ≡ flat_panel (panel_temperature_of tenths) }
{
    api::panel::endakuro_panel_temperature(tenths)
}

// psi gage.
#[unsafe(no_mangle)]
pub extern "C" fn endakuro_panel_pressure(psi: u16) -> EndakuroPanel
    ensures { result ≡ flat_panel (panel_pressure_of psi) }
{
    api::panel::endakuro_panel_pressure(psi)
}
