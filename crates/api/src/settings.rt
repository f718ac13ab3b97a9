// The prover's settings as a C caller gives them.
ghost use Rattle.std.specs.Prelude.{◌≡◌};
ghost use Rattle.api.specs.Given.{prover_by};

use factors::{Pipe, Prover};

// Base volume in 0.0001 barrel, diameter and wall in 0.001 inch, modulus in psi, the certified coefficient
// in 10^-7 per °F (0: none), and the metal by its code: 0 mild carbon, 1 304, 2 316, 3 17-4 PH, 4 none named.
#[repr(C)]
#[derive(Clone, Copy)]
pub struct EndakuroProver {
    pub base: u32,
    pub diameter: u32,
    pub wall: u32,
    pub modulus: u32,
    pub coefficient: u16,
    pub metal: u8,
}

pub(crate) fn take_up(given: EndakuroProver) -> Prover
    ensures { result ≡ prover_by given }
{
    let metal = factors::choose_metal(given.metal, given.coefficient);
    let pipe = Pipe {
        diameter: given.diameter,
        wall: given.wall,
        modulus: given.modulus,
    };
    Prover {
        metal,
        pipe,
        base: given.base,
    }
}
