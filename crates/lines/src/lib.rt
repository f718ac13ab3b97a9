// What all lines of the line program have in common (docs/LINES.md): their operands judged and read by
// place, and their answers written.
#![tactic(auto)]

pub mod answers;
pub mod operands;
