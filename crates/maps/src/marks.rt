ghost use Rattle.maps.specs.Marks.{Cleared, marked};
ghost use Rattle.maps.specs.Searching.{SameMarks};
ghost use Rattle.std.specs.Prelude.{◌≡◌, ◌&&◌, ltb, length, if◌then◌else◌, ◌==◌, nat_le, nat_lt, slice_set};

// Mark bytes lent for one search over n spaces. However the search ends, the first n are 0 after it.
// `n` stays beside the bytes: the guard tells for how many spaces it was made, and fewer bytes may be lent.
pub struct Marks<'a> {
    bytes: &'a mut [u8],
    n: usize,
}

// Writes 0 into the first n bytes.
fn clear(bytes: &mut [u8], n: usize)
    ensures { Cleared n bytes.old bytes.new }
{
    let end = n.min(bytes.len());
    bytes[..end].fill(0);
}

impl Drop for Marks<'_> {
    fn drop(self)
        ensures { Cleared self.entry.n self.entry.bytes.now self.exit.0.now }
    {
        let Marks { bytes, n: spaces } = self;
        clear(bytes, spaces);
    }
}

impl<'a> Marks<'a> {
    // Takes the bytes over, whatever they hold; no space is marked.
    pub fn new(bytes: &'a mut [u8], n: usize) -> Marks<'a>
        ensures bytes { Cleared n bytes.old result.bytes.now }
        ensures n { result.n ≡ n }
        ensures same { result.bytes.ghost_name ≡ bytes.entry.ghost_name }
    {
        clear(bytes, n);
        Marks { bytes, n }
    }
}

impl Marks<'_> {
    // Whether these are the marks of `n` spaces, with a byte for each.
    pub fn covers(&self, n: usize) -> bool
        ensures { result ≡ (n == self.now.n && nat_le n (length self.now.bytes.now)) }
    {
        n == self.n && n <= self.bytes.len()
    }

    // Takes all marks back.
    pub fn unmark_all(&mut self)
        ensures bytes { Cleared self.old.n self.old.bytes.now self.new.bytes.now }
        ensures same { SameMarks self.old self.new }
    {
        let n = self.n;
        clear(self.bytes, n);
    }

    // Whether a space is marked.
    pub fn is_marked(&self, space: usize) -> bool
        ensures { result ≡ (nat_lt space self.now.n && marked self.now.bytes.now space) }
    {
        space < self.n && self.bytes.get(space).is_some_and(|byte| *byte != 0)
    }

    // Writes the byte of a space, if it has one. Tested by hand: what get_mut of a slice writes is not known afterwards.
    fn write(&mut self, space: usize, byte: u8)
        ensures bytes { self.new.bytes.now ≡ (if ltb space self.old.n then slice_set self.old.bytes.now space byte else self.old.bytes.now) }
        ensures same { SameMarks self.old self.new }
    {
        if space < self.n && space < self.bytes.len() {
            self.bytes[space] = byte;
        }
    }

    // Marks a space.
    pub fn mark(&mut self, space: usize)
        ensures bytes { self.new.bytes.now ≡ (if ltb space self.old.n then slice_set self.old.bytes.now space 1 else self.old.bytes.now) }
        ensures same { SameMarks self.old self.new }
    {
        self.write(space, 1);
    }

    // Takes a mark back.
    pub fn unmark(&mut self, space: usize)
        ensures bytes { self.new.bytes.now ≡ (if ltb space self.old.n then slice_set self.old.bytes.now space 0 else self.old.bytes.now) }
        ensures same { SameMarks self.old self.new }
    {
        self.write(space, 0);
    }
}
