// States as host programs hand them over, and get them back.
ghost use Rattle.std.specs.Prelude.{◌≡◌};
ghost use Rattle.words.specs.Tests.{all};
ghost use Rattle.host.specs.States.{sp_flags, dp_flags, flags, sp_decoded, dp_decoded, unsound, decoded, sp_encoded, dp_encoded, encoded};

use crate::{HostDp, HostSp, HostState};
use dp::DpState;
use machine::State;
use sp::SpState;

impl HostSp {
    fn has_flags(&self) -> bool
        ensures { result ≡ all (sp_flags self.now) }
    {
        (self.busy <= 1)
            & (self.storing <= 1)
            & (self.full <= 1)
            & (self.waitstoring <= 1)
            & (self.halted <= 1)
            & (self.broke <= 1)
            & (self.sstep <= 1)
            & (self.intbreak <= 1)
            & (self.line <= 1)
            & (self.semaphore <= 1)
    }
}

impl HostDp {
    fn has_flags(&self) -> bool
        ensures { result ≡ all (dp_flags self.now) }
    {
        (self.startpending <= 1)
            & (self.endpending <= 1)
            & (self.xbus <= 1)
            & (self.freeze <= 1)
            & (self.flush <= 1)
            & (self.pipebusy <= 1)
            & (self.line <= 1)
    }
}

impl HostState {
    // Every flag is 0 or 1.
    #[tactic(auto, unfolding(crate::specs::States::flags))]
    pub fn has_flags(&self) -> bool
        ensures { result ≡ flags self.now }
    {
        self.sp.has_flags() & self.dp.has_flags()
    }
}

impl From<HostSp> for SpState {
    ghost from_gives = { λ h s. s ≡ sp_decoded h };

    fn from(h: HostSp) -> SpState {
        SpState {
            splatch: h.splatch,
            ramlatch: h.ramlatch,
            spaddr: h.spaddr,
            ramaddr: h.ramaddr,
            len: h.len,
            count: h.count,
            skip: h.skip,
            row: h.row,
            busy: 0 < h.busy,
            storing: 0 < h.storing,
            full: 0 < h.full,
            waiting: h.waiting,
            waitstoring: 0 < h.waitstoring,
            halted: 0 < h.halted,
            broke: 0 < h.broke,
            sstep: 0 < h.sstep,
            intbreak: 0 < h.intbreak,
            signals: h.signals,
            line: 0 < h.line,
            semaphore: 0 < h.semaphore,
        }
    }
}

impl From<HostDp> for DpState {
    ghost from_gives = { λ h s. s ≡ dp_decoded h };

    fn from(h: HostDp) -> DpState {
        DpState {
            start: h.start,
            end: h.end,
            current: h.current,
            limit: h.limit,
            startpending: 0 < h.startpending,
            endpending: 0 < h.endpending,
            xbus: 0 < h.xbus,
            freeze: 0 < h.freeze,
            flush: 0 < h.flush,
            pipebusy: 0 < h.pipebusy,
            wordsleft: h.wordsleft,
            queued: h.queued,
            head: h.head,
            line: 0 < h.line,
            clock: h.clock,
            cmdcount: h.cmdcount,
            pipecount: h.pipecount,
            tmemcount: h.tmemcount,
        }
    }
}

// A state that no call accepts: FULL without BUSY.
fn unsound() -> State
    ensures { result ≡ unsound }
{
    State {
        sp: SpState {
            full: true,
            ..SpState::power_up()
        },
        dp: DpState::power_up(),
        queue: [0; 32],
    }
}

// The state that a call is made on; an unsound one where a flag is neither 0 nor 1.
impl From<HostState> for State {
    ghost from_gives = { λ h s. s ≡ decoded h };

    // Inlined, and with a `return` of its own for the flags: the compiler then tests the flags of a
    // call once, and copies the queue less often.
    #[inline(always)]
    #[tactic(auto, unfolding(crate::specs::States::decoded))]
    fn from(h: HostState) -> State {
        if h.has_flags() {
            let queue = h.queue;
            return State {
                sp: h.sp.into(),
                dp: h.dp.into(),
                queue,
            };
        }
        unsound()
    }
}

impl From<SpState> for HostSp {
    ghost from_gives = { λ s h. h ≡ sp_encoded s };

    #[tactic(auto, using(crate::proofs::Flags::flag_byte))]
    fn from(s: SpState) -> HostSp {
        HostSp {
            splatch: s.splatch,
            ramlatch: s.ramlatch,
            spaddr: s.spaddr,
            ramaddr: s.ramaddr,
            len: s.len,
            count: s.count,
            skip: s.skip,
            row: s.row,
            waiting: s.waiting,
            busy: s.busy as u8,
            storing: s.storing as u8,
            full: s.full as u8,
            waitstoring: s.waitstoring as u8,
            halted: s.halted as u8,
            broke: s.broke as u8,
            sstep: s.sstep as u8,
            intbreak: s.intbreak as u8,
            signals: s.signals,
            line: s.line as u8,
            semaphore: s.semaphore as u8,
        }
    }
}

impl From<DpState> for HostDp {
    ghost from_gives = { λ s h. h ≡ dp_encoded s };

    fn from(s: DpState) -> HostDp {
        HostDp {
            start: s.start,
            end: s.end,
            current: s.current,
            limit: s.limit,
            clock: s.clock,
            cmdcount: s.cmdcount,
            pipecount: s.pipecount,
            tmemcount: s.tmemcount,
            startpending: s.startpending as u8,
            endpending: s.endpending as u8,
            xbus: s.xbus as u8,
            freeze: s.freeze as u8,
            flush: s.flush as u8,
            pipebusy: s.pipebusy as u8,
            wordsleft: s.wordsleft,
            line: s.line as u8,
            queued: s.queued,
            head: s.head,
        }
    }
}

impl From<State> for HostState {
    ghost from_gives = { λ s h. h ≡ encoded s };

    #[tactic(auto, unfolding(crate::specs::States::encoded))]
    fn from(s: State) -> HostState {
        let queue = s.queue;
        HostState {
            sp: s.sp.into(),
            dp: s.dp.into(),
            queue,
        }
    }
}
