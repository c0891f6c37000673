// Every public call but `fields_of`, and the version, for host programs: under C's calling convention,
// over structs that C and Rust can lay out. `rt lib` makes the library.
#![tactic(auto)]

mod events; // events.rt: the calls that take the state alone
mod lent; // lent.rt: the calls that are lent memory
mod recordings; // recordings.rt: the reader, the writer, the replay and its verdict
mod states; // states.rt: what a call hands back
mod version; // version.rt: the version
