// The reader of recordings.
#![tactic(auto)]

mod fields; // fields.rt: the bytes of a record, and the record that they make
mod records; // records.rt: the checks of a record, and the reader

pub use fields::{decoded, is_kind, size};
pub use records::{check_address, read_record};
