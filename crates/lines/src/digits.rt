// Numbers as text.
ghost use Rattle.std.specs.Prelude.{◌≡◌, ◌%◌, ◌<◌, ◌≤◌, slice_index};
ghost use Rattle.listing.specs.Text.{digits, hex8, hex, leading, decimal};
ghost use Rattle.lines.specs.Wrote.{Wrote};

use crate::text::Lines;

const DIGITS: [u8; 16] = *b"0123456789ABCDEF";

// The last digit of a number, to this base.
fn digit<const BASE: u64>(n: u64) -> u8
    requires { (0 < BASE) × (BASE ≤ 16) }
    ensures { result ≡ slice_index digits (n % BASE) }
{
    DIGITS[(n % BASE) as usize]
}

impl Lines<'_> {
    // The last eight hex digits of a number.
    pub(crate) fn put_hex8(&mut self, n: u64)
        ensures { Wrote (hex8 n) self.old self.new }
    {
        self.put(&[
            digit::<16>(n / 0x10000000),
            digit::<16>(n / 0x1000000),
            digit::<16>(n / 0x100000),
            digit::<16>(n / 0x10000),
            digit::<16>(n / 0x1000),
            digit::<16>(n / 0x100),
            digit::<16>(n / 0x10),
            digit::<16>(n),
        ]);
    }

    // Sixteen hex digits for a word, else eight.
    pub(crate) fn put_hex(&mut self, word: bool, n: u64)
        ensures { Wrote (hex word n) self.old self.new }
    {
        if word {
            self.put_hex8(n / 0x100000000);
        }
        self.put_hex8(n);
    }

    // The last decimal digit of a number; no digit for 0.
    fn put_leading(&mut self, n: u64)
        ensures { Wrote (leading n) self.old self.new }
    {
        if n != 0 {
            self.put_byte(digit::<10>(n));
        }
    }

    // A number below 100,000 in decimal.
    pub(crate) fn put_decimal(&mut self, n: u64)
        ensures { Wrote (decimal n) self.old self.new }
    {
        self.put_leading(n / 10000);
        self.put_leading(n / 1000);
        self.put_leading(n / 100);
        self.put_leading(n / 10);
        self.put_byte(digit::<10>(n));
    }
}
