// Replays a recording over a state and lent memory.
#![tactic(auto)]

mod effects; // effects.rt: what each record does, and its line
mod playing; // playing.rt: the records of a recording, one after the other
mod judging; // judging.rt: the verdict on what a replay gave
mod stored; // stored.rt: words of memory by the addresses of kinds 8 and 9

pub use judging::{judged, verdict};
pub use playing::replay;
