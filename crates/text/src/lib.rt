// Text put into a lent slice: what does not fit there is counted and not written. The same functions count, on a short slice, and write, on the
// real one.
#![tactic(auto)]

ghost use Rattle.std.specs.Prelude.{[], ◌∷◌, ◌≡◌};
ghost use Rattle.text.specs.Text.{decimal, spaced, words, group};
ghost use Rattle.text.specs.Put.{Put};
ghost use Rattle.text.specs.Writes.{Writes};

// A lent slice, and the place where the next text goes, in it or past its end.
#[derive(Drop)]
pub struct Output<'a> {
    pub bytes: &'a mut [u8],
    pub at: usize,
}

impl<'a> Output<'a> {
    // The slice from its front on.
    pub fn new(bytes: &'a mut [u8]) -> Output<'a>
        ensures same_reference { result.bytes.ghost_name ≡ bytes.entry.ghost_name }
        ensures untouched { result.bytes.now ≡ bytes.old }
        ensures front { result.at ≡ 0 }
    {
        Output { bytes, at: 0 }
    }

    // A byte. The place moves on by one; the largest stays.
    pub fn put_byte(&mut self, b: u8)
        ensures { Writes self.old (b ∷ []) self.new }
    {
        self.at = put_at(self.bytes, self.at, b);
    }

    // Bytes. The place is a local through the loop: in the output it would be read and written in memory at each byte.
    pub fn put_bytes(&mut self, s: &[u8])
        ensures { Writes self.old s.now self.new }
    {
        let mut at = self.at;
        for b in s {
            at = put_at(self.bytes, at, *b);
        }
        self.at = at;
    }

    // The number in decimal.
    pub fn put_decimal(&mut self, n: u64)
        ensures { Writes self.old (decimal n) self.new }
    {
        if n < 10 {
            self.put_byte(b'0' + n as u8);
            return;
        }
        self.put_decimal(n / 10);
        self.put_byte(b'0' + (n % 10) as u8);
    }

    // A space and the number.
    fn put_spaced(&mut self, n: u64)
        ensures { Writes self.old (spaced n) self.new }
    {
        self.put_byte(b' ');
        self.put_decimal(n);
    }

    // The numbers with spaces between them.
    fn put_words(&mut self, xs: &[u64])
        ensures { Writes self.old (words xs.now) self.new }
    {
        let Some((first, rest)) = xs.split_first() else {
            return;
        };
        self.put_decimal(*first);
        for x in rest {
            self.put_spaced(*x);
        }
    }

    // The numbers in parentheses.
    pub fn put_group(&mut self, xs: &[u64])
        ensures { Writes self.old (group xs.now) self.new }
    {
        self.put_byte(b'(');
        self.put_words(xs);
        self.put_byte(b')');
    }
}

// A byte at the place `at`, where the slice has that place. The place after it comes back; after the largest it is the largest.
fn put_at(bytes: &mut [u8], at: usize, b: u8) -> usize
    ensures { Put bytes.old at (b ∷ []) bytes.new result }
{
    if at < bytes.len() {
        bytes[at] = b;
    }
    at.saturating_add(1)
}
