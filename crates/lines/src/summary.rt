// The line that sums a replay up.
ghost use Rattle.std.specs.Prelude.{◌≡◌};
ghost use Rattle.listing.specs.Summary.{counted, passed_line, differs_line, nothing_line};
ghost use Rattle.listing.specs.Summary.{reason, is_records, refused_at, refused_line};
ghost use Rattle.lines.specs.Wrote.{Wrote};

use crate::text::Lines;

// Why, by its number.
#[tactic(auto, unfolding(listing::specs::Summary::reason))]
fn reason(number: u32) -> &'static [u8]
    ensures { result.now ≡ reason number }
{
    match number {
        7 => b"unknown kind",
        8 => b"cut short",
        10 => b"register address not a multiple of 4",
        5 => b"no register at this address",
        6 => b"memory address not allowed",
        9 => b"longer than 16,383 bytes",
        _ => b"not begun",
    }
}

// Whether a record was refused, and not the replay before its first.
fn is_records(number: u32) -> bool
    ensures { result ≡ is_records number }
{
    5 <= number && number != 9
}

impl Lines<'_> {
    // A text and a number.
    fn put_counted(&mut self, text: &[u8], n: u64)
        ensures { Wrote (counted text.now n) self.old self.new }
    {
        self.put(text);
        self.put_decimal(n);
    }

    // All that was compared is as expected.
    pub fn put_passed(&mut self, compared: u32)
        ensures { Wrote (passed_line compared) self.old self.new }
    {
        self.put_counted(b"passed, ", compared as u64);
        self.put(b" compared\n");
    }

    // How many differ, of how many compared, and where the first of them is.
    pub fn put_differs(&mut self, compared: u32, differed: u32, index: u32, place: usize)
        ensures { Wrote (differs_line compared differed index place) self.old self.new }
    {
        self.put_counted(b"DIFFERS, ", differed as u64);
        self.put_counted(b" of ", compared as u64);
        self.put_counted(b"; first at record ", index as u64);
        self.put_counted(b", byte ", place as u64);
        self.put(b"\n");
    }

    // There is nothing that could have differed.
    pub fn put_nothing_compared(&mut self)
        ensures { Wrote nothing_line self.old self.new }
    {
        self.put(b"NOTHING COMPARED: no record of kind 2 or 9\n");
    }

    // Which record, unless the replay did not begin.
    fn put_refused_at(&mut self, number: u32, count: u32, place: usize)
        ensures { Wrote (refused_at number count place) self.old self.new }
    {
        if is_records(number) {
            self.put_counted(b"REFUSED at record ", count as u64);
            self.put_counted(b", byte ", place as u64);
        } else {
            self.put(b"REFUSED");
        }
    }

    // Where and why it was refused.
    pub fn put_refused(&mut self, number: u32, count: u32, place: usize)
        ensures { Wrote (refused_line number count place) self.old self.new }
    {
        self.put_refused_at(number, count, place);
        self.put(b": ");
        self.put(reason(number));
        self.put_counted(b" (", number as u64);
        self.put(b")\n");
    }
}
