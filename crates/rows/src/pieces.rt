// A piece of a row, and the rest of a row. The registers and the memory after them are those of as
// many turns.
ghost use Rattle.std.specs.Prelude.{◌≡◌, cond, ◌%◌, ltb};
ghost use Rattle.words.specs.Memory.{memory};
ghost use Rattle.words.specs.Stepped.{ran};
ghost use Rattle.sp.specs.Turn.{memory_after, sp_after};
ghost use Rattle.sp.specs.Rows.{row_turns};
ghost use Rattle.rows.specs.Words.{words_moved};
ghost use Rattle.rows.specs.Pieces.{between, Below, Piece, Pieced};

use crate::copier::move_words;
use sp::SpState;
use words::fields::{BANK, RAM};
use words::stepped::Stepped;

// The words before an address goes round: those that begin below the end, one at least.
fn words_below(at: u32, end: u32) -> u32
    ensures { Below at end result }
{
    if at < end { (end - at - 1) / 8 + 1 } else { 1 }
}

// How many words are moved as one part of RDRAM and one part of the bank: as far as neither address
// goes round, `most` of this row at most.
fn piece_words(s: SpState, most: u32) -> u32
    ensures { Piece s most result }
{
    most.min(s.len / 8 + 1)
        .min(words_below(s.spaddr % BANK, BANK))
        .min(words_below(s.ramaddr, RAM))
}

// Moves n words between RDRAM and a bank: into RDRAM where storing, else out of it.
fn move_between(
    storing: bool,
    rdram: &mut [u8],
    ram: usize,
    bank: &mut [u8],
    offset: usize,
    n: usize,
)
    ensures rdram { rdram.new
        ≡ cond storing (words_moved n rdram.old ram bank.old offset) rdram.old }
    ensures bank { bank.new
        ≡ cond storing bank.old (words_moved n bank.old offset rdram.old ram) }
{
    if storing {
        move_words(rdram, ram, bank, offset, n);
    } else {
        move_words(bank, offset, rdram, ram, n);
    }
}

// Moves the words of a piece.
#[tactic(auto, using(crate::proofs::Inside::between_dmem, crate::proofs::Inside::between_imem))]
fn move_piece(s: SpState, words: u32, rdram: &mut [u8], dmem: &mut [u8], imem: &mut [u8])
    ensures { memory rdram.new dmem.new imem.new
        ≡ between s.storing (ltb s.spaddr 0x1000) words s.ramaddr (s.spaddr % 0x1000)
        (memory rdram.old dmem.old imem.old) }
{
    let ram = s.ramaddr as usize;
    let offset = (s.spaddr % BANK) as usize;
    let n = words as usize;
    if s.spaddr < BANK {
        move_between(s.storing, rdram, ram, dmem, offset, n);
    } else {
        move_between(s.storing, rdram, ram, imem, offset, n);
    }
}

// The next words of the row, `most` at most: as far as neither address goes round.
pub fn piece(
    s: SpState,
    most: u32,
    rdram: &mut [u8],
    dmem: &mut [u8],
    imem: &mut [u8],
) -> Stepped<SpState>
    ensures { Pieced s most (memory rdram.old dmem.old imem.old) result
        (memory rdram.new dmem.new imem.new) }
{
    let count = piece_words(s, most);
    move_piece(s, count, rdram, dmem, imem);
    let state = s.advance(8 * count.saturating_sub(1)).next();
    Stepped { state, count }
}

// The rest of the current row: LEN / 8 + 1 words, in at most three pieces of a sound state. Nothing
// where the engine is idle.
pub fn row(mut s: SpState, rdram: &mut [u8], dmem: &mut [u8], imem: &mut [u8]) -> Stepped<SpState>
    ensures registers { result ≡ ran (sp_after (row_turns s) s) (row_turns s) }
    ensures bytes { memory rdram.new dmem.new imem.new
        ≡ memory_after (row_turns s) s (memory rdram.old dmem.old imem.old) }
{
    if !s.busy {
        return Stepped { state: s, count: 0 };
    }
    let words = s.len / 8 + 1;
    let mut left = words;
    while 0 < left {
        let done = piece(s, left, rdram, dmem, imem);
        s = done.state;
        left -= done.count;
    }
    Stepped {
        state: s,
        count: words,
    }
}
