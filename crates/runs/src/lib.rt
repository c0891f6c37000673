// The merged run of both engines and the consumer.
#![tactic(auto)]

mod merged; // merged.rt: its rounds, turn by turn and by pieces of rows

pub use merged::run;
