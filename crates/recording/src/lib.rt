// Recordings: the records that they hold, and what a reader and a writer answer. The definitions are in specs/; `reader` and `writer` have the code.
#![tactic(auto)]

// One record. An address is the raw 32 bits that stand in the recording. `Run` is a merged run, with the SP's budget and then the DP's, which the
// consumer has too.
// `None` is no record: bytes of an unknown kind make it, and hosts get its fields where a reading is
// declined.
#[derive(Clone, Copy)]
pub enum Record {
    None,
    Write(u32, u32),
    Read(u32, u32),
    SpRun(u32),
    DpRun(u32),
    Tick(u32),
    Break,
    Acknowledge,
    Store(u32, u64),
    Check(u32, u64),
    Run(u32, u32),
}

// A record by its kind and fields, as the writer takes it and as host programs get it. The value is the second field of kinds 1, 2, 8 and 9, and the
// only one of kinds 3, 4 and 5. In kinds 1 to 5 it has 32 bits: the writer leaves the upper half out. Kind 10 has both budgets in it, the SP's in the
// upper half and the DP's in the lower half. Every byte can stand as the kind; known are 1 to 10.
#[repr(C)]
#[derive(Clone, Copy)]
pub struct Fields {
    pub value: u64,
    pub address: u32,
    pub kind: u8,
}
