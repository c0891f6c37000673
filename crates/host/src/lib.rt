// The calls as host programs see them: structs of numbers and bytes that C and Rust can lay out, and
// states made of these and back. The definitions are in specs/; `ofersky` has the calls.
#![tactic(auto)]

mod states; // states.rt: states handed over and back

use machine::Answer;
use playback::Findings;
use recording::Fields;

// The registers of the SP engine. A flag is a byte, 0 or 1; any other byte makes the state unsound.
#[repr(C)]
#[derive(Clone, Copy)]
pub struct HostSp {
    pub splatch: u32,
    pub ramlatch: u32,
    pub spaddr: u32,
    pub ramaddr: u32,
    pub len: u32,
    pub count: u32,
    pub skip: u32,
    pub row: u32,
    pub waiting: u32,
    pub busy: u8,
    pub storing: u8,
    pub full: u8,
    pub waitstoring: u8,
    pub halted: u8,
    pub broke: u8,
    pub sstep: u8,
    pub intbreak: u8,
    // No flag: SIG0 to SIG7 are bits 0 to 7.
    pub signals: u8,
    pub line: u8,
    pub semaphore: u8,
}

// The registers of the DP engine.
#[repr(C)]
#[derive(Clone, Copy)]
pub struct HostDp {
    pub start: u32,
    pub end: u32,
    pub current: u32,
    pub limit: u32,
    pub clock: u32,
    pub cmdcount: u32,
    pub pipecount: u32,
    pub tmemcount: u32,
    pub startpending: u8,
    pub endpending: u8,
    pub xbus: u8,
    pub freeze: u8,
    pub flush: u8,
    pub pipebusy: u8,
    // No flag: the words left of the command that is being consumed.
    pub wordsleft: u8,
    pub line: u8,
    // No flags: how many words are queued, and the slot of the oldest.
    pub queued: u8,
    pub head: u8,
}

#[repr(C)]
#[derive(Clone, Copy)]
pub struct HostState {
    pub sp: HostSp,
    pub dp: HostDp,
    // The slots of the command queue: its i-th word, the oldest first, stands in slot (head + i) mod 32.
    pub queue: [u64; 32],
}

#[repr(C)]
#[derive(Clone, Copy)]
pub struct HostOutcome {
    pub state: HostState,
    pub answer: Answer,
}

// What a run gives: the answer's count is the SP's, and `words` is the consumer's.
#[repr(C)]
#[derive(Clone, Copy)]
pub struct HostRan {
    pub outcome: HostOutcome,
    pub words: u32,
}

// Where the next drawing word stands: in RDRAM (memory 0) or in DMEM (memory 1), from an offset on. The length is 8, or 0 for an empty part.
#[repr(C)]
#[derive(Clone, Copy)]
pub struct HostPart {
    pub memory: u32,
    pub offset: u32,
    pub length: u32,
}

// What the reader answers, with the record by its kind and fields.
#[repr(C)]
#[derive(Clone, Copy)]
pub struct HostReading {
    pub item: Fields,
    pub place: usize,
    pub number: u32,
}

// What a replay gives: how many bytes of the listing were written, the place where the declined record begins, 0 if there is none, and what its reads
// and checks found.
#[repr(C)]
#[derive(Clone, Copy)]
pub struct HostReplayed {
    pub outcome: HostOutcome,
    pub written: usize,
    pub place: usize,
    pub findings: Findings,
}
