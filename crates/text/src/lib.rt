// Text, written piece after piece into a lent buffer from a place on. As with snprintf, what does not fit is left out, and each piece leaves
// the page at the place after it, where the next one goes. Each place past the buffer's end is one past it, so none is too large for a usize,
// and a place above the buffer's length says that the text did not fit (DECISIONS F22).
#![tactic(auto)]

ghost use Rattle.std.specs.Prelude.{◌≡◌, [], ◌∷◌, ◌+◌, ◌<◌, ◌^◌, min};
ghost use Rattle.text.specs.Pages.{Wrote};

// A place of a buffer of `size` octets as it is answered: one past the end stands for each that is farther.
pub fn place_in(size: usize, at: usize) -> usize
    requires { size < 2 ^ 63 }
    ensures { result ≡ min at (size + 1) }
{
    at.min(size + 1)
}

// A lent buffer, and the place in it where the next piece goes.
pub struct Page<'a> {
    pub octets: &'a mut [u8],
    pub place: usize,
}

impl<'a> Page<'a> {
    // A buffer that is written from its beginning on.
    pub fn new(octets: &'a mut [u8]) -> Page<'a>
        ensures same_buffer { result.octets.ghost_name ≡ octets.entry.ghost_name }
        ensures begun { (result.place ≡ 0) × (result.octets.now ≡ octets.old) }
    {
        Page { octets, place: 0 }
    }

    // One octet.
    pub fn put(&mut self, x: u8)
        ensures { Wrote self.old (x ∷ []) self.new }
    {
        let size = self.octets.len();
        if self.place < size {
            self.octets[self.place] = x;
            self.place += 1;
            return;
        }
        self.place = size + 1;
    }

    // Octets, as many as there are. They are copied at once where all have room.
    pub fn put_all(&mut self, xs: &[u8])
        ensures { Wrote self.old xs.now self.new }
    {
        let size = self.octets.len();
        self.place = place_in(size, self.place);
        let end = self.place + xs.len();
        if end <= size {
            self.octets[self.place..end].copy_from_slice(xs);
            self.place = end;
            return;
        }
        for &x in xs {
            self.put(x);
        }
    }

    // The buffer goes back; the answer is the place after all that was written.
    pub fn end(self) -> usize
        ensures place { result ≡ self.entry.place }
        ensures octets { self.exit.0.now ≡ self.entry.octets.now }
    {
        let Page {
            octets: _octets,
            place,
        } = self;
        place
    }
}
