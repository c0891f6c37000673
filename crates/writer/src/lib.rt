// The writer of recordings.
#![tactic(auto)]

mod bytes; // bytes.rt: the bytes of a record, into a part of a buffer
mod named; // named.rt: records by their kind and fields
mod records; // records.rt: the checks of a record, and the writer

pub use named::fields_of;
pub use records::write_record;
