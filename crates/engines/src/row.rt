// The rest of the current row in one call.
ghost use Rattle.words.specs.Memory.{memory};
ghost use Rattle.machine.specs.Promised.{SpRowGives};

use checks::{accepted, declined, sp_refusal};
use machine::{Outcome, State};
use rows::row;

// Finishes the current row, if a transfer runs: LEN / 8 + 1 words, as so many SP turns move them. It ends with the row, and a transfer that waits for
// the running one starts if the row was its last. Refusals: 1, 2, 3, 4.
pub fn sp_row(s: State, rdram: &mut [u8], dmem: &mut [u8], imem: &mut [u8]) -> Outcome
    ensures { SpRowGives s (memory rdram.old dmem.old imem.old) result
        (memory rdram.new dmem.new imem.new) }
{
    if let Err(why) = sp_refusal(s, rdram, dmem, imem) {
        return declined(s, why.into());
    }
    let done = row(s.sp, rdram, dmem, imem);
    accepted(s.with_sp(done.state), 0, done.count)
}
