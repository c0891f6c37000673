// Words of memory by the addresses of kinds 8 and 9.
ghost use Rattle.std.specs.Prelude.{◌≡◌};
ghost use Rattle.words.specs.Memory.{bytes_of};
ghost use Rattle.words.specs.Lent.{lent, SameLent};
ghost use Rattle.playback.specs.Effects.{place_at, offset_at, load_at, store_at};

use words::memory::{Lent, load_word, store_word, word_bytes, word_value};

// The memory that an address names.
fn bytes_at<'a>(a: u32, m: &'a Lent<'_>) -> &'a [u8]
    ensures { result.now ≡ bytes_of (place_at a) (lent m.now) }
{
    if a < 0x04000000 {
        m.rdram
    } else if a < 0x04001000 {
        m.dmem
    } else {
        m.imem
    }
}

// And where in it.
fn offset_at(a: u32) -> usize
    ensures { result ≡ offset_at a }
{
    (if a < 0x04000000 { a } else { a % 0x1000 }) as usize
}

// The word at an address.
#[tactic(auto, unfolding(playback::specs::Effects::load_at))]
pub(crate) fn load_at(a: u32, m: &Lent<'_>) -> u64
    ensures { result ≡ load_at a (lent m.now) }
{
    word_value(load_word(bytes_at(a, m), offset_at(a)))
}

// Stores a word at an address.
#[tactic(auto, unfolding(playback::specs::Effects::store_at))]
pub(crate) fn store_at(a: u32, word: u64, m: &mut Lent<'_>)
    ensures same { SameLent m.old m.new }
    ensures bytes { lent m.new ≡ store_at a word (lent m.old) }
{
    let at = offset_at(a);
    let bytes = word_bytes(word);
    if a < 0x04000000 {
        store_word(m.rdram, at, bytes);
    } else if a < 0x04001000 {
        store_word(m.dmem, at, bytes);
    } else {
        store_word(m.imem, at, bytes);
    }
}
