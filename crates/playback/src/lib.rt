// A replay: what each record does, what a whole recording gives, its theorems and its verdict. The definitions are in specs/; `player` has the code.
#![tactic(auto)]

use machine::Outcome;

// What the reads (kind 2) and the memory checks (kind 9) of the accepted records found: how many were compared with the value expected, how many
// differed from it, and of the first that differed the index among all records, counted from 0, and the byte of the recording where it begins.
// Index and place are 0 where none differed.
#[repr(C)]
#[derive(Clone, Copy, Default)]
pub struct Findings {
    pub compared: u32,
    pub differed: u32,
    pub index: u32,
    pub place: usize,
}

// What a replay gives back: number, value 0, the count of accepted records and the state; how many bytes of the listing were written; the place
// where the declined record begins, 0 if none is declined or the replay does not begin; and what its reads and checks found.
#[derive(Clone, Copy)]
pub struct Replayed {
    pub outcome: Outcome,
    pub written: usize,
    pub place: usize,
    pub findings: Findings,
}

// What a replay shows of a build. `Refused` has the refusal's number, how many records were compared before it and how many differed; `Differs` how
// many were compared and how many differed; `Passed` how many were compared, all as expected. With nothing compared there is no evidence, and no pass.
#[derive(Clone, Copy)]
pub enum Verdict {
    Refused(u32, u32, u32),
    Differs(u32, u32),
    NothingCompared,
    Passed(u32),
}
