// The listing's lines and the line that sums it up, written to a lent buffer by a cursor. A byte
// that finds no room is dropped, and the cursor never passes the buffer's end.
#![tactic(auto)]

mod digits; // digits.rt: numbers as text
mod forms; // forms.rt: the lines
mod summary; // summary.rt: the line that sums a replay up
mod text; // text.rt: the cursor, and bytes into the buffer

pub use text::Lines;
