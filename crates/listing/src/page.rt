// Texts and numbers into a page, one behind another.
ghost use Rattle.std.specs.Prelude.{◌≡◌, ◌+◌, ◌≤◌, ◌<◌, length};
ghost use Rattle.listing_text.specs.Decimal.{digit as Numerals·digit, decimal};
ghost use Rattle.listing.specs.Writing.{HasRoom, Puts};

// A page, and the place behind the lines written into it.
#[derive(Drop)]
pub(crate) struct Lines<'a> {
    pub(crate) page: &'a mut [u8],
    pub(crate) at: usize,
}

impl Lines<'_> {
    pub(crate) fn put(&mut self, text: &[u8])
        requires { HasRoom self.old (length text.now) }
        ensures { Puts self.old text.now self.new }
    {
        let end = self.at + text.len();
        self.page[self.at..end].copy_from_slice(text);
        self.at = end;
    }

    // A number of at most five digits.
    pub(crate) fn put_decimal(&mut self, n: u32)
        requires { (n < 100000) × HasRoom self.old 5 }
        ensures { (Puts self.old (decimal n) self.new) × (self.new.at ≤ self.old.at + 5) }
    {
        let units = digit(n % 10);
        if n < 10 {
            return self.put(&[units]);
        }
        let tens = digit(n / 10 % 10);
        if n < 100 {
            return self.put(&[tens, units]);
        }
        let hundreds = digit(n / 100 % 10);
        if n < 1000 {
            return self.put(&[hundreds, tens, units]);
        }
        let thousands = digit(n / 1000 % 10);
        if n < 10000 {
            return self.put(&[thousands, hundreds, tens, units]);
        }
        let first = digit(n / 10000);
        self.put(&[first, thousands, hundreds, tens, units])
    }
}

pub(crate) fn digit(n: u32) -> u8
    requires { n < 10 }
    ensures { result ≡ Numerals·digit n }
{
    b'0' + n as u8
}
