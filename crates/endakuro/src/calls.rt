// The entries that keep no book: the operands of a line handed to the library, its answer written. Each gives
// how long its answer is, or the refusal to be told.
use crate::entries::Call;
use crate::{answers, operands};
use draw::{DrawVolumes, Profile};
use lines::answers::{add_bytes, add_numbers, say_ok};
use live::{Reading, Values};
use lookup::Entry;
use refusals::Refusal;
use report::{Factors, Report};
use run::Form;
use ticket::Ticket;

fn say_factor(factor: Result<u32, Refusal>, out: &mut [u8]) -> Result<usize, Refusal> {
    Ok(say_ok(&[factor? as u64], out))
}

fn answer_cts(line: &[u8], out: &mut [u8]) -> Result<usize, Refusal> {
    let metal = operands::metal_at(line, 2);
    let places = operands::places_at(line, 4);
    say_factor(factors::cts(operands::i16_at(line, 1), metal, places), out)
}

fn answer_cps(line: &[u8], out: &mut [u8]) -> Result<usize, Refusal> {
    let pipe = operands::pipe_at(line, 2);
    let places = operands::places_at(line, 5);
    say_factor(factors::cps(operands::u16_at(line, 1), pipe, places), out)
}

fn answer_cpl(line: &[u8], out: &mut [u8]) -> Result<usize, Refusal> {
    let liquid = operands::liquid_at(line, 1);
    say_factor(factors::cpl(liquid, operands::places_at(line, 4)), out)
}

// FACTOR FIRST RUNS F1 F2 F3 F4 F5
fn add_report(report: Report, out: &mut [u8], at: usize) -> usize {
    let factors = report.factors;
    add_numbers(
        &[
            report.factor as u64,
            report.first as u64,
            report.runs as u64,
            factors.one as u64,
            factors.two as u64,
            factors.three as u64,
            factors.four as u64,
            factors.five as u64,
        ],
        out,
        at,
    )
}

fn say_job(answer: Result<Report, Refusal>, out: &mut [u8]) -> Result<usize, Refusal> {
    let report = answer?;
    let at = answers::say_done(out);
    Ok(add_report(report, out, at))
}

// `ok` alone, whatever the values are.
fn say_that_done<T: Copy>(answer: Result<T, Refusal>, out: &mut [u8]) -> Result<usize, Refusal> {
    answer?;
    Ok(answers::say_done(out))
}

// The buffer stands behind a refusal too: it is as it was found.
fn add_buffer(said: Result<usize, Refusal>, buffer: &[u8], out: &mut [u8]) -> usize {
    let at = answers::or_refuse(said, out);
    add_bytes(buffer, out, at)
}

fn prove_into(form: Form, line: &[u8], records: &[u8], buffer: &mut [u8], out: &mut [u8]) -> usize {
    let prover = operands::prover_at(line, 2);
    let request = operands::u32_at(line, 1);
    let k = operands::u32_at(line, 8);
    let limit = operands::u16_at(line, 9);
    let said = say_job(
        proving::prove(request, prover, k, limit, form, records, buffer),
        out,
    );
    add_buffer(said, buffer, out)
}

fn answer_prove(
    form: Form,
    line: &[u8],
    first: &mut [u8],
    second: &mut [u8],
    out: &mut [u8],
) -> usize {
    let size = hex_words::read_bytes(words::word(line, 10), first);
    let records = bytes_at(line, 11, second);
    prove_into(form, line, records, &mut first[..size], out)
}

fn move_into(form: Form, records: &[u8], buffer: &mut [u8], out: &mut [u8]) -> usize {
    let moved = match form {
        Form::Short => moving::forward(records, buffer),
        Form::Long => moving::back(records, buffer),
    };
    let said = say_that_done(moved, out);
    add_buffer(said, buffer, out)
}

// From the form that is lent to the other.
fn answer_move(
    form: Form,
    line: &[u8],
    first: &mut [u8],
    second: &mut [u8],
    out: &mut [u8],
) -> usize {
    let size = hex_words::read_bytes(words::word(line, 1), first);
    let records = bytes_at(line, 2, second);
    move_into(form, records, &mut first[..size], out)
}

fn factors_at(line: &[u8]) -> Factors {
    Factors {
        one: operands::u16_at(line, 4),
        two: operands::u16_at(line, 5),
        three: operands::u16_at(line, 6),
        four: operands::u16_at(line, 7),
        five: operands::u16_at(line, 8),
    }
}

fn write_into(line: &[u8], buffer: &mut [u8], out: &mut [u8]) -> usize {
    let factors = factors_at(line);
    let request = operands::u32_at(line, 1);
    let runs = operands::u8_at(line, 2);
    let first = operands::u8_at(line, 3);
    let said = say_that_done(report::write(request, runs, first, factors, buffer), out);
    add_buffer(said, buffer, out)
}

fn answer_write(line: &[u8], first: &mut [u8], out: &mut [u8]) -> usize {
    let size = hex_words::read_bytes(words::word(line, 9), first);
    write_into(line, &mut first[..size], out)
}

fn say_runs(form: Form, line: &[u8], records: &[u8], out: &mut [u8]) -> usize {
    let prover = operands::prover_at(line, 1);
    let k = operands::u32_at(line, 7);
    let limit = operands::u16_at(line, 8);
    let at = answers::say_done(out);
    add_bytes(proving::accept(prover, k, limit, form, records), out, at)
}

fn say_run(form: Form, line: &[u8], bytes: &[u8], out: &mut [u8]) -> Result<usize, Refusal> {
    let prover = operands::prover_at(line, 1);
    let figures = run::show(prover, operands::u32_at(line, 7), form, bytes)?;
    let prover = figures.prover;
    let meter = figures.meter;
    Ok(say_ok(
        &[
            figures.indicated,
            figures.cts,
            figures.cps,
            prover.cpl,
            prover.factor,
            meter.cpl,
            meter.factor,
            prover.volume,
            meter.volume,
            figures.factor,
        ],
        out,
    ))
}

fn say_draw(
    profile: Profile,
    line: &[u8],
    records: &[u8],
    out: &mut [u8],
) -> Result<usize, Refusal> {
    let volume = draw::draw(profile, operands::prover_at(line, 1), records)?;
    Ok(say_ok(&[volume.base, volume.barrels, volume.first as u64], out))
}

fn say_fill(line: &[u8], bytes: &[u8], out: &mut [u8]) -> Result<usize, Refusal> {
    let fill = draw::fill(operands::metal_at(line, 1), bytes)?;
    Ok(say_ok(
        &[
            fill.adjusted,
            fill.measure,
            fill.prover,
            fill.ccts,
            fill.drawn,
        ],
        out,
    ))
}

fn say_volumes(found: DrawVolumes, out: &mut [u8]) -> usize {
    let mut at = say_ok(&[found.count as u64], out);
    for &volume in found.volumes.iter().take(found.count as usize) {
        at = add_numbers(&[volume], out, at);
    }
    at
}

fn list_volumes(
    profile: Profile,
    line: &[u8],
    records: &[u8],
    out: &mut [u8],
) -> Result<usize, Refusal> {
    let found = draw::volumes(profile, operands::prover_at(line, 1), records)?;
    Ok(say_volumes(found, out))
}

fn ticket_at(line: &[u8]) -> Ticket {
    let liquid = operands::liquid_at(line, 5);
    Ticket {
        opening: operands::u32_at(line, 1),
        closing: operands::u32_at(line, 2),
        mf: operands::u16_at(line, 3),
        ctl: operands::u16_at(line, 4),
        liquid,
        sediment: operands::u32_at(line, 8),
    }
}

fn answer_ticket(line: &[u8], out: &mut [u8]) -> Result<usize, Refusal> {
    let volumes = ticket::work_out(ticket_at(line))?;
    Ok(say_ok(
        &[
            volumes.factor as u64,
            volumes.gross as u64,
            volumes.net as u64,
        ],
        out,
    ))
}

fn say_reading(live: Result<Values, Refusal>, out: &mut [u8]) -> Result<usize, Refusal> {
    let values = live?;
    let at = answers::say_done(out);
    let next = answers::add_signed(values.tenths, out, at);
    Ok(add_numbers(&[values.psi as u64], out, next))
}

fn answer_live(line: &[u8], out: &mut [u8]) -> Result<usize, Refusal> {
    let reading = Reading {
        temperature: operands::single_at(line, 1),
        pressure: operands::single_at(line, 2),
    };
    say_reading(live::convert(reading), out)
}

fn answer_channels(line: &[u8], out: &mut [u8]) -> Result<usize, Refusal> {
    let temperature = operands::channel_at(line, 1);
    let pressure = operands::channel_at(line, 3);
    say_reading(live::channels::convert(temperature, pressure), out)
}

fn say_shown(panel: Result<f32, Refusal>, out: &mut [u8]) -> Result<usize, Refusal> {
    let single = panel?;
    let at = answers::say_done(out);
    Ok(answers::add_single(single, out, at))
}

fn answer_panel_temperature(line: &[u8], out: &mut [u8]) -> Result<usize, Refusal> {
    say_shown(
        live::panel::show_temperature(operands::i16_at(line, 1)),
        out,
    )
}

fn answer_panel_pressure(line: &[u8], out: &mut [u8]) -> Result<usize, Refusal> {
    say_shown(live::panel::show_pressure(operands::u16_at(line, 1)), out)
}

fn say_read(bytes: &[u8], out: &mut [u8]) -> Result<usize, Refusal> {
    let report = report::read(bytes)?;
    let at = say_ok(&[report.number as u64], out);
    Ok(add_report(report, out, at))
}

fn say_entry(entry: Entry, out: &mut [u8]) -> usize {
    let at = answers::say_done(out);
    let next = answers::add_signed(entry.temperature, out, at);
    add_numbers(
        &[entry.gravity as u64, entry.compressibility as u64],
        out,
        next,
    )
}

fn look_up(line: &[u8], table: &[u8], out: &mut [u8]) -> Result<usize, Refusal> {
    let gravity = operands::u16_at(line, 2);
    let entry = lookup::look_up(operands::i16_at(line, 1), gravity, table)?;
    Ok(say_entry(entry, out))
}

// How many operands a line has.
fn count_operands(line: &[u8]) -> usize {
    words::count_words(line).saturating_sub(1)
}

// As many values as the line has operands: at most 20, by its form.
fn answer_spread(line: &[u8], out: &mut [u8]) -> Result<usize, Refusal> {
    let mut values = [0u64; 20];
    let count = count_operands(line).min(20);
    for i in 0..count {
        values[i] = operands::u64_at(line, i + 1);
    }
    let extent = group::find_spread(&values[..count])?;
    Ok(say_ok(&[extent.smallest, extent.largest, extent.spread], out))
}

// The bytes that a word spells, in the room lent for them.
fn bytes_at<'a>(line: &[u8], n: usize, room: &'a mut [u8]) -> &'a [u8] {
    let count = hex_words::read_bytes(words::word(line, n), room);
    &room[..count]
}

fn last_bytes<'a>(line: &[u8], room: &'a mut [u8]) -> &'a [u8] {
    bytes_at(line, count_operands(line), room)
}

pub(crate) fn answer(
    call: Call,
    line: &[u8],
    first: &mut [u8],
    second: &mut [u8],
    out: &mut [u8],
) -> Result<usize, Refusal> {
    match call {
        Call::Prove(form) => Ok(answer_prove(form, line, first, second, out)),
        Call::Move(form) => Ok(answer_move(form, line, first, second, out)),
        Call::Write => Ok(answer_write(line, first, out)),
        Call::Runs(form) => Ok(say_runs(form, line, last_bytes(line, first), out)),
        Call::Run(form) => say_run(form, line, last_bytes(line, first), out),
        Call::Read => say_read(last_bytes(line, first), out),
        Call::Draw(profile) => say_draw(profile, line, last_bytes(line, first), out),
        Call::Volumes(profile) => list_volumes(profile, line, last_bytes(line, first), out),
        Call::Fill => say_fill(line, last_bytes(line, first), out),
        Call::LookUp => look_up(line, last_bytes(line, first), out),
        Call::Cts => answer_cts(line, out),
        Call::Cps => answer_cps(line, out),
        Call::Cpl => answer_cpl(line, out),
        Call::Ticket => answer_ticket(line, out),
        Call::Live => answer_live(line, out),
        Call::Channels => answer_channels(line, out),
        Call::Spread => answer_spread(line, out),
        Call::PanelTemperature => answer_panel_temperature(line, out),
        Call::PanelPressure => answer_panel_pressure(line, out),
    }
}
