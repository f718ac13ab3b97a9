// The C face: every entry point on numbers and lent bytes under one plain name, for include/endakuro.h.
// Each answer is flattened to one struct as C lays it out: number 0 and record 0 (`at`) with the values
// when done; the paper's number and record and all values zero when refused. Lent bytes are a pointer and
// a length, and a part of them goes out as start and length.
#![tactic(auto)]

pub mod books;
pub mod corrections;
pub mod jobs;
pub mod lookups;
pub mod moves;
mod outcome;
pub mod panel;
pub mod quotients;
pub mod readings;
pub mod reports;
pub mod settings;
pub mod tickets;
pub mod water;
