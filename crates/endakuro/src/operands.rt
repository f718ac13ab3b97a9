// The operands of a line as the library takes them, by their place, the entry's name being word 0. What
// is malformed reads as 0: the line's form is asked before.
ghost use Rattle.std.specs.Prelude.{◌≤◌};

use factors::{Liquid, Metal, Pipe, Places, Prover};
use lines::operands::number_at;
use live::channels::Channel;

pub(crate) fn u8_at(line: &[u8], n: usize) -> u8 {
    u8::try_from(number_at(line, n, u8::MAX as u64)).unwrap_or(0)
}

pub(crate) fn u16_at(line: &[u8], n: usize) -> u16 {
    u16::try_from(number_at(line, n, u16::MAX as u64)).unwrap_or(0)
}

pub(crate) fn u32_at(line: &[u8], n: usize) -> u32 {
    u32::try_from(number_at(line, n, u32::MAX as u64)).unwrap_or(0)
}

pub(crate) fn u64_at(line: &[u8], n: usize) -> u64 {
    number_at(line, n, u64::MAX)
}

pub(crate) fn i16_at(line: &[u8], n: usize) -> i16 {
    numerals::read_signed(words::word(line, n)).unwrap_or(0)
}

pub(crate) fn places_at(line: &[u8], n: usize) -> Places {
    match words::word(line, n) {
        b"6" => Places::Six,
        _ => Places::Four,
    }
}

pub(crate) fn single_at(line: &[u8], n: usize) -> f32 {
    live::channels::from_bits(hex_words::read_single(words::word(line, n)))
}

#[derive(Clone, Copy)]
pub(crate) enum Kind {
    Fahrenheit,
    Celsius,
    Pressure,
    Fault,
}

pub(crate) fn kind_at(line: &[u8], n: usize) -> Option<Kind> {
    match words::word(line, n) {
        b"fahrenheit" => Some(Kind::Fahrenheit),
        b"celsius" => Some(Kind::Celsius),
        b"pressure" => Some(Kind::Pressure),
        b"fault" => Some(Kind::Fault),
        _ => None,
    }
}

pub(crate) fn channel_at(line: &[u8], n: usize) -> Channel
    requires { n ≤ 8 }
{
    match kind_at(line, n) {
        Some(Kind::Fahrenheit) => Channel::Fahrenheit(single_at(line, n + 1)),
        Some(Kind::Celsius) => Channel::Celsius(single_at(line, n + 1)),
        Some(Kind::Pressure) => Channel::Pressure(single_at(line, n + 1)),
        Some(Kind::Fault) | None => Channel::Fault(u8_at(line, n + 1)),
    }
}

pub(crate) fn metal_at(line: &[u8], n: usize) -> Metal
    requires { n ≤ 8 }
{
    factors::choose_metal(u8_at(line, n), u16_at(line, n + 1))
}

pub(crate) fn liquid_at(line: &[u8], n: usize) -> Liquid
    requires { n ≤ 8 }
{
    Liquid {
        pressure: u16_at(line, n),
        compressibility: u16_at(line, n + 1),
        equilibrium: u16_at(line, n + 2),
    }
}

pub(crate) fn pipe_at(line: &[u8], n: usize) -> Pipe
    requires { n ≤ 8 }
{
    Pipe {
        diameter: u32_at(line, n),
        wall: u32_at(line, n + 1),
        modulus: u32_at(line, n + 2),
    }
}

pub(crate) fn prover_at(line: &[u8], n: usize) -> Prover
    requires { n ≤ 4 }
{
    let metal = metal_at(line, n);
    let pipe = pipe_at(line, n + 2);
    Prover {
        metal,
        pipe,
        base: u32_at(line, n + 5),
    }
}
