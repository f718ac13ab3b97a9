// The paper's table of numbers given back (01, 'Numbers given back') as one enum: a case for each
// number. A case that the table stars carries the record at fault, counted from 1.
#![tactic(auto)]

ghost use Rattle.std.specs.Prelude.{◌≡◌};
ghost use Rattle.refusals.specs.Table.{number_of, record_of, given_back};
ghost use Rattle.refusals.specs.Told.{demand_at, or_else};
ghost use Rattle.refusals.specs.Answered.{fault_of};

#[derive(Clone, Copy)]
pub enum Refusal {
    // 1: lent records not whole, or too few or many
    Records,
    // 2: an unnamed byte is not zero
    UnnamedByte(u16),
    // 3: prover setting out of range
    ProverSetting,
    // 4: K factor or limit out of range
    KFactorOrLimit,
    // 5: record field out of range
    RecordField(u16),
    // 6: pass number or its pressure breaks the rule
    PassRule(u16),
    // 7: indicated volume out of range after rounding
    IndicatedVolume(u16),
    // 8: run factor out of range
    RunFactor(u16),
    // 9: no qualifying group
    NoGroup,
    // 10: ticket field out of range
    TicketField,
    // 11: closing below opening
    ClosingBelowOpening,
    // 12: reading not finite
    ReadingNotFinite,
    // 13: reading out of range
    ReadingRange,
    // 14: report buffer not 32 bytes, or a move's not in proportion
    ReportBuffer,
    // 15: not a report
    NotReport,
    // 20: book not sound
    BookNotSound,
    // 21: unknown shipper
    UnknownShipper,
    // 22: number zero
    NumberZero,
    // 23: already waiting
    AlreadyWaiting,
    // 24: ceiling reached
    CeilingReached,
    // 25: has its reserve or more and commons full
    CommonsFull,
    // 26: withdrawn number not waiting
    NotWaiting,
    // 27: nothing to take
    NothingToTake,
    // 30: setting a book that isn't empty
    BookNotEmpty,
    // 31: figures outside the rules
    FiguresOutside,
    // 32: a faulty or disordered record of a table
    TableRecord(u16),
    // 33: no such pair in a table
    NoSuchPair,
    // 34: a fault code in place of a reading
    FaultCode,
    // 35: a channel of the wrong kind
    WrongKind,
    // 36: a pulse count that isn't whole
    NotWhole(u16),
}

// What the caller is given back: the table's number, and the record at fault, from 1, or 0 where
// the table carries none.
#[derive(Clone, Copy)]
pub struct GivenBack {
    pub number: u8,
    pub at: u16,
}

// A function of this name in place of a `From`: the table is promised of it by name (docs/CONTRACTS.md).
pub fn give_back(refusal: Refusal) -> GivenBack
    ensures { result ≡ given_back refusal }
{
    let (number, at) = match refusal {
        Refusal::Records => (1, 0),
        Refusal::UnnamedByte(at) => (2, at),
        Refusal::ProverSetting => (3, 0),
        Refusal::KFactorOrLimit => (4, 0),
        Refusal::RecordField(at) => (5, at),
        Refusal::PassRule(at) => (6, at),
        Refusal::IndicatedVolume(at) => (7, at),
        Refusal::RunFactor(at) => (8, at),
        Refusal::NoGroup => (9, 0),
        Refusal::TicketField => (10, 0),
        Refusal::ClosingBelowOpening => (11, 0),
        Refusal::ReadingNotFinite => (12, 0),
        Refusal::ReadingRange => (13, 0),
        Refusal::ReportBuffer => (14, 0),
        Refusal::NotReport => (15, 0),
        Refusal::BookNotSound => (20, 0),
        Refusal::UnknownShipper => (21, 0),
        Refusal::NumberZero => (22, 0),
        Refusal::AlreadyWaiting => (23, 0),
        Refusal::CeilingReached => (24, 0),
        Refusal::CommonsFull => (25, 0),
        Refusal::NotWaiting => (26, 0),
        Refusal::NothingToTake => (27, 0),
        Refusal::BookNotEmpty => (30, 0),
        Refusal::FiguresOutside => (31, 0),
        Refusal::TableRecord(at) => (32, at),
        Refusal::NoSuchPair => (33, 0),
        Refusal::FaultCode => (34, 0),
        Refusal::WrongKind => (35, 0),
        Refusal::NotWhole(at) => (36, at),
    };
    GivenBack { number, at }
}

// The refusal, unless what the paper demands holds.
pub fn demand(holds: bool, refusal: Refusal) -> Result<(), Refusal>
    ensures { fault_of result ≡ demand_at holds (number_of refusal) (record_of refusal) }
{
    if holds { Ok(()) } else { Err(refusal) }
}

// The paper's order: the first refusal found is the one given.
pub fn or_else(first: Result<(), Refusal>, next: Result<(), Refusal>) -> Result<(), Refusal>
    ensures { fault_of result ≡ or_else (fault_of first) (fault_of next) }
{
    first.and(next)
}
