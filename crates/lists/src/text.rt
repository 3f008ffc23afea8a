// Bytes written into a lent buffer, one after the other. What does not fit is not written.
ghost use Rattle.std.specs.Prelude.{[], ◌∷◌};
ghost use Rattle.lists.specs.Decimal.{decimal};

// A lent buffer, and the place after what was written.
#[derive(Drop)]
pub struct Text<'a> {
    pub out: &'a mut [u8],
    pub at: usize,
}

impl Text<'_> {
    ghost use Rattle.lists.specs.Writes.{Writes};

    pub fn put_byte(&mut self, byte: u8)
        ensures { Writes self.old (byte ∷ []) self.new }
    {
        if self.at < self.out.len() {
            self.out[self.at] = byte;
            self.at += 1;
        }
    }

    pub fn put_bytes(&mut self, bytes: &[u8])
        ensures { Writes self.old bytes.now self.new }
    {
        for byte in bytes {
            self.put_byte(*byte);
        }
    }

    // A call for each digit, the highest first: at most twenty. Not by `write!`, as what that wrote is
    // promised of an `Ok` alone, and no clause says that a writer which never fails answers one.
    pub fn put_decimal(&mut self, number: usize)
        ensures { Writes self.old (decimal number) self.new }
    {
        if number >= 10 {
            self.put_decimal(number / 10);
        }
        self.put_byte(b'0' + (number % 10) as u8);
    }
}
