// The merged run of both engines and the consumer.
ghost use Rattle.std.specs.Prelude.{◌≡◌, ◌≤◌, true, ◌||◌};
ghost use Rattle.words.specs.Memory.{memory};
ghost use Rattle.words.specs.Lent.{lent, SameLent};
ghost use Rattle.dp.specs.Tried.{may_fetch, may_consume};
ghost use Rattle.machine.specs.Promised.{RunGives};
ghost use Rattle.runs.specs.Standing.{cut_to, end_from, Ahead, Drawn, StandsAt, EndsAt};

use checks::{accepted, declined, sp_refusal};
use dp::{DpState, room_for};
use machine::{Ran, State};
use rows::piece;
use sp::SpState;
use words::fields::pick;
use words::memory::Lent;
use words::stepped::Stepped;

// A DP turn or a consumer turn acts.
fn draws(dp: DpState, got: u32, dpbudget: u32, words: u32, room: u32) -> bool
    ensures { result ≡ (may_fetch dp got dpbudget || may_consume dp words room) }
{
    ((got < dpbudget) & dp.fetches()) | ((words < room) & dp.consumes())
}

// The rounds left once the SP's turn is passed over, which it then stays: DP turns and consumer turns alone. They have a loop of their own because
// lists are slower in one that holds the SP's registers too. `got` words have been fetched, and `words` put out.
fn list_rounds(
    mut dp: DpState,
    mut got: u32,
    mut words: u32,
    dpbudget: u32,
    room: u32,
    rdram: &[u8],
    dmem: &[u8],
    queue: &mut [u64; 32],
    out: &mut [u8],
) -> Stepped<DpState>
    ensures { Drawn dp got words dpbudget room rdram.now dmem.now queue.old out.old result
        queue.new out.new }
{
    while draws(dp, got, dpbudget, words, room) {
        let two = dp.fetch(got, dpbudget, rdram, dmem, queue);
        dp = two.state;
        got = two.count;
        let three = dp.consume(words, room, queue, out);
        dp = three.state;
        words = three.count;
    }
    Stepped {
        state: dp,
        count: words,
    }
}

// A transfer whose ROW is below this goes by turns, and so does a run with a budget for less: to move so few words at once would gain nothing.
const SHORT: u32 = 128;

// The words left of a transfer of short rows.
fn short_words(len: u32, count: u32, row: u32) -> u32 {
    len % SHORT / 8 + 1 + count % 0x100 * (row % SHORT / 8 + 1)
}

// Up to how many words moved a run goes by turns. As long as a DP turn or a consumer turn acts that is all of them. The SP alone goes by turns through a
// transfer of short rows. Any number within the budget would be right then; a sum that wraps only means that the next piece comes sooner.
fn turns_until(sp: SpState, on: bool, moved: u32, spbudget: u32) -> u32
    ensures { (result ≤ spbudget) × (on ≡ true → result ≡ spbudget) }
{
    if on | (spbudget < SHORT / 8) {
        return spbudget;
    }
    if sp.row < SHORT {
        return spbudget.min(moved.wrapping_add(short_words(sp.len, sp.count, sp.row)));
    }
    0
}

// The next piece of the row, where an SP turn acts, and else nothing.
fn ahead(sp: SpState, moved: u32, spbudget: u32, m: &mut Lent<'_>) -> Stepped<SpState>
    ensures ahead { Ahead sp moved spbudget (lent m.old) result (lent m.new) }
    ensures same { SameLent m.old m.new }
{
    if (moved < spbudget) & sp.busy {
        let done = piece(sp, spbudget - moved, m.rdram, m.dmem, m.imem);
        return Stepped {
            state: done.state,
            count: moved + done.count,
        };
    }
    Stepped {
        state: sp,
        count: moved,
    }
}

// Where a run stands once the SP's turn is passed over.
#[derive(Clone, Copy)]
struct Stood {
    sp: SpState,
    dp: DpState,
    moved: u32,
    got: u32,
    words: u32,
}

// Rounds of an SP turn, a DP turn and a consumer turn, until the SP's is passed over. Where only the SP acts it goes by pieces of rows, unless they are
// short. Each SP turn is taken in the inner loop, so that its code stands in one place and is compiled into it. Whether the other two act is known before
// they are tried, so that the SP alone pays one test for them.
fn sp_rounds(
    mut sp: SpState,
    mut dp: DpState,
    spbudget: u32,
    dpbudget: u32,
    room: u32,
    m: &mut Lent<'_>,
    queue: &mut [u64; 32],
    out: &mut [u8],
) -> Stood
    ensures stands { StandsAt (end_from sp dp queue.old spbudget dpbudget room (lent m.old) out.old)
        (cut_to spbudget dpbudget room) result queue.new (lent m.new) out.new }
    ensures same { SameLent m.old m.new }
{
    let mut moved: u32 = 0;
    let mut got: u32 = 0;
    let mut words: u32 = 0;
    let mut on = draws(dp, got, dpbudget, words, room);
    while (moved < spbudget) & sp.busy {
        let mut stop = turns_until(sp, on, moved, spbudget);
        while (moved < stop) & sp.busy {
            let one = sp.step(moved, stop, m);
            sp = one.state;
            moved = one.count;
            if on {
                // Borrowed one by one: two fields of `m` cannot be lent at once as `&[u8]`.
                let rdram = &mut *m.rdram;
                let dmem = &mut *m.dmem;
                let two = dp.fetch(got, dpbudget, rdram, dmem, queue);
                dp = two.state;
                got = two.count;
                let three = dp.consume(words, room, queue, out);
                dp = three.state;
                words = three.count;
                on = draws(dp, got, dpbudget, words, room);
                stop = pick(on, stop, moved);
            }
        }
        let alone = ahead(sp, moved, spbudget, m);
        sp = alone.state;
        moved = alone.count;
    }
    Stood {
        sp,
        dp,
        moved,
        got,
        words,
    }
}

// The whole run. The queue's slots are an array of the run, lent to the turns: no turn copies it.
fn rounds(
    sp: SpState,
    dp: DpState,
    mut queue: [u64; 32],
    spbudget: u32,
    dpbudget: u32,
    room: u32,
    m: &mut Lent<'_>,
    out: &mut [u8],
) -> Ran
    ensures ends { EndsAt (end_from sp dp queue spbudget dpbudget room (lent m.old) out.old) result
        (lent m.new) out.new }
    ensures same { SameLent m.old m.new }
{
    let at = sp_rounds(sp, dp, spbudget, dpbudget, room, m, &mut queue, out);
    let sp = at.sp;
    let standing = at.dp;
    let rdram = &mut *m.rdram;
    let dmem = &mut *m.dmem;
    let last = list_rounds(
        standing, at.got, at.words, dpbudget, room, rdram, dmem, &mut queue, out,
    );
    let dp = last.state;
    let outcome = accepted(State { sp, dp, queue }, 0, at.moved);
    Ran {
        outcome,
        words: last.count,
    }
}

// SP turn, DP turn, consumer turn, SP turn, and so on. A turn without budget, or that would do nothing, is passed over; so is a consumer turn where
// the output is full. The run ends when all three are. The count is the words that the SP moved, `words` those that the consumer put out: they stand
// in order from the output's start. Refusals: 1, 2, 3, 4.
pub fn run(
    s: State,
    spbudget: u32,
    dpbudget: u32,
    consumerbudget: u32,
    rdram: &mut [u8],
    dmem: &mut [u8],
    imem: &mut [u8],
    out: &mut [u8],
) -> Ran
    ensures { RunGives s spbudget dpbudget consumerbudget (memory rdram.old dmem.old imem.old)
        out.old result (memory rdram.new dmem.new imem.new) out.new }
{
    if let Err(why) = sp_refusal(s, rdram, dmem, imem) {
        let outcome = declined(s, why.into());
        return Ran { outcome, words: 0 };
    }
    let room = room_for(consumerbudget, out.len());
    let mut m = Lent { rdram, dmem, imem };
    rounds(s.sp, s.dp, s.queue, spbudget, dpbudget, room, &mut m, out)
}
