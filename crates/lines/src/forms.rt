// The lines of a listing.
ghost use Rattle.listing.specs.Text.{header, run_line, verdict, found_line, end_line, stop_line};
ghost use Rattle.lines.specs.Wrote.{Wrote};

use crate::text::Lines;

impl Lines<'_> {
    // The first line.
    pub fn put_header(&mut self)
        ensures { Wrote header self.old self.new }
    {
        self.put(b"replay 1\n");
    }

    // A run: `S` or `D` and its count.
    pub fn put_run(&mut self, letter: u8, count: u32)
        ensures { Wrote (run_line letter count) self.old self.new }
    {
        self.put(&[letter, b' ']);
        self.put_hex8(count as u64);
        self.put(b"\n");
    }

    // What follows the value found: `ok`, or the value expected.
    fn put_verdict(&mut self, word: bool, found: u64, expected: u64)
        ensures { Wrote (verdict word found expected) self.old self.new }
    {
        if found == expected {
            self.put(b" ok\n");
        } else {
            self.put(b" expected ");
            self.put_hex(word, expected);
            self.put(b"\n");
        }
    }

    // A read or a check: `R` or `L`, the address, the value found there, and whether it is the
    // value expected.
    pub fn put_found(&mut self, letter: u8, word: bool, address: u32, found: u64, expected: u64)
        ensures { Wrote (found_line letter word address found expected) self.old self.new }
    {
        // A replay may be lent no room: then no digit is worked out.
        if self.is_full() {
            return;
        }
        self.put(&[letter, b' ']);
        self.put_hex8(address as u64);
        self.put(b" ");
        self.put_hex(word, found);
        self.put_verdict(word, found, expected);
    }

    // The last line where no record is left: their number.
    pub fn put_end(&mut self, count: u32)
        ensures { Wrote (end_line count) self.old self.new }
    {
        self.put(b"end ");
        self.put_decimal(count as u64);
        self.put(b"\n");
    }

    // The last line where a record was declined: which one, its number, and the place where it
    // begins.
    pub fn put_stop(&mut self, count: u32, number: u32, place: usize)
        ensures { Wrote (stop_line count number place) self.old self.new }
    {
        self.put(b"stop ");
        self.put_decimal(count as u64);
        self.put(b" ");
        self.put_decimal(number as u64);
        self.put(b" ");
        self.put_decimal(place as u64);
        self.put(b"\n");
    }
}
