// A cursor in a lent buffer, and bytes written by it.
ghost use Rattle.std.specs.Prelude.{◌≡◌, ◌≤◌, ◌∷◌, [], min, length, nat_le};

// A lent buffer, and the place in it where the next byte goes. A byte that finds no room is
// dropped.
#[derive(Drop)]
pub struct Lines<'a> {
    out: &'a mut [u8],
    at: usize,
    ghost inside: { at ≤ length out.now },
}

impl<'a> Lines<'a> {
    ghost use Rattle.lines.specs.Wrote.{Wrote};

    // Lines from a place of the buffer on, or at its end if the place lies past that.
    pub fn new(out: &'a mut [u8], at: usize) -> Lines<'a>
        ensures same_buffer { result.out.ghost_name ≡ out.entry.ghost_name }
        ensures bytes { result.out.now ≡ out.old }
        ensures place { result.at ≡ min at (length out.old) }
    {
        let at = at.min(out.len());
        Lines { out, at }
    }

    // The place after what was written.
    pub fn at(&self) -> usize
        ensures { result ≡ self.now.at }
    {
        self.at
    }

    // No byte more finds room.
    pub(crate) fn is_full(&self) -> bool
        ensures { result ≡ nat_le (length self.now.out.now) self.now.at }
    {
        self.out.len() <= self.at
    }

    // One byte, if there is room. A digit by itself goes this way: `put` calls for a copy.
    pub(crate) fn put_byte(&mut self, b: u8)
        ensures { Wrote (b ∷ []) self.old self.new }
    {
        if self.at < self.out.len() {
            self.out[self.at] = b;
            self.at += 1;
        }
    }

    // A text, as far as there is room.
    pub(crate) fn put(&mut self, text: &[u8])
        ensures { Wrote text.now self.old self.new }
    {
        let n = text.len().min(self.out.len() - self.at);
        self.out[self.at..self.at + n].copy_from_slice(&text[..n]);
        self.at += n;
    }
}
