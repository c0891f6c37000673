// Every public call, in one place. Each takes every input; what it promises is in machine/specs/Promised.antt, that of a burst in
// bursts/specs/Bursts.antt, those of the reader and the writer in recording/specs (Reader.antt, Fields.antt, Writer.antt), and those of a
// replay and its verdict in playback/specs (Promised.antt, Verdict.antt).
#![tactic(auto)]

pub use access::{acknowledge, read_register, sp_break, tick, write_register, write_registers};
pub use checks::{is_sound, power_up};
pub use engines::{consumer_turn, dp_turn, look_ahead, sp_row, sp_turn};
pub use player::{replay, verdict};
pub use reader::read_record;
pub use runs::run;
pub use writer::{fields_of, write_record};
