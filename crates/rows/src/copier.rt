// Words moved between two memories.
ghost use Rattle.std.specs.Prelude.{◌≡◌};
ghost use Rattle.rows.specs.Words.{words_moved};

// Moves n words. Those that have room in the target are one part of it: as far as the source has
// words they are copied, and the rest are zeros.
#[tactic(auto, using(crate::proofs::Words::moved_parts))]
pub(crate) fn move_words(target: &mut [u8], at: usize, source: &[u8], from: usize, n: usize)
    ensures { target.new ≡ words_moved n target.old at source.now from }
{
    let at = at.min(target.len());
    let from = from.min(source.len());
    let room = n.min((target.len() - at) / 8);
    let have = room.min((source.len() - from) / 8);
    target[at..at + 8 * have].copy_from_slice(&source[from..from + 8 * have]);
    target[at + 8 * have..at + 8 * room].fill(0);
}
