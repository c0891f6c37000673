// Words of a row at once: as many as stand in one part of RDRAM and one part of a bank.
#![tactic(auto)]

mod copier; // copier.rt: words moved between two memories, part by part
mod pieces; // pieces.rt: a piece of a row, and the rest of a row

pub use pieces::{piece, row};
