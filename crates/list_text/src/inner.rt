// Text put into a lent buffer, as far as there is room.
ghost use Rattle.std.specs.Prelude.{[], ◌∷◌};
ghost use Rattle.list_text.specs.Listing.{ascii, decimal, spaced, line};
ghost use Rattle.list_text.specs.Printing.{Put};

// A lent buffer, and the place after what was put there so far.
#[derive(Drop)]
pub struct Printer<'a> {
    pub out: &'a mut [u8],
    pub at: usize,
}

impl<'a> Printer<'a> {
    fn put_byte(&mut self, x: u8)
        ensures { Put self.old self.new (x ∷ []) }
    {
        if self.at < self.out.len() {
            self.out[self.at] = x;
            self.at += 1;
        }
    }

    pub fn put_text(&mut self, text: &[u8])
        ensures { Put self.old self.new text.now }
    {
        for &c in text {
            self.put_byte(c);
        }
    }

    // A number in decimal, by its last digit and what stands before it.
    fn put_decimal(&mut self, v: usize)
        ensures { Put self.old self.new (decimal v) }
    {
        if v < 10 {
            return self.put_byte(b'0' + v as u8);
        }
        self.put_decimal(v / 10);
        self.put_byte(b'0' + (v % 10) as u8);
    }

    pub fn put_spaced(&mut self, v: usize)
        ensures { Put self.old self.new (spaced v) }
    {
        self.put_byte(b' ');
        self.put_decimal(v);
    }

    pub fn end_line(&mut self)
        ensures { Put self.old self.new (ascii "\n") }
    {
        self.put_byte(b'\n');
    }

    // A line of one number.
    pub fn put_line(&mut self, label: &[u8], v: usize)
        ensures { Put self.old self.new (line label.now (v ∷ [])) }
    {
        self.put_text(label);
        self.put_spaced(v);
        self.end_line();
    }
}
