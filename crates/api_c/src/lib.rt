// What C links: each entry of the C face (crates/api) exported under its name for include/endakuro.h, with the promise that it has there,
// word for word. A crate is a library or an archive, and not both: promises stands on the library, and this archive on it too.
#![tactic(auto)]

pub mod books;
pub mod corrections;
pub mod jobs;
pub mod lookups;
pub mod moves;
pub mod panel;
pub mod quotients;
pub mod readings;
pub mod reports;
pub mod tickets;
pub mod water;
