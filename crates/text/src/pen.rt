// Words and numbers as text, put into a lent slice by a pen, a byte at a time, as far as there is room.
ghost use Rattle.std.specs.Prelude.{◌≡◌, [], ◌∷◌, ◌/◌, ◌^◌, take};
ghost use Rattle.text.specs.Decimal.{digits, width, natural, minus, signed, fraction, unsigned, decimal};
ghost use Rattle.text.specs.Pen.{Puts, placed_by};
ghost use Rattle.text.specs.Put.{placed};

// A lent slice, and the place in it where the next byte goes.
#[derive(Drop)]
pub struct Pen<'a> {
    out: &'a mut [u8],
    at: usize,
}

impl<'a> Pen<'a> {
    // It begins at the slice's start.
    pub fn new(out: &'a mut [u8]) -> Pen<'a>
        ensures begun { placed_by result ≡ placed out.old 0 }
        ensures same { result.out.ghost_name ≡ out.entry.ghost_name }
    {
        Pen { out, at: 0 }
    }

    // It begins at a place of the slice; at one past the slice's end nothing is put.
    pub fn at_place(out: &'a mut [u8], at: usize) -> Pen<'a>
        ensures begun { placed_by result ≡ placed out.old at }
        ensures same { result.out.ghost_name ≡ out.entry.ghost_name }
    {
        Pen { out, at }
    }

    // How far it has come: behind the last byte that was put.
    pub fn end(&self) -> usize
        ensures { result ≡ (placed_by self.now).at }
    {
        self.at
    }

    // What it has put, from the slice's start on.
    pub fn text(&self) -> &[u8]
        ensures { result.now ≡ take (placed_by self.now).at (placed_by self.now).out }
    {
        &self.out[..self.at.min(self.out.len())]
    }

    // One byte.
    #[tactic(auto, unfolding(crate::specs::Put::put))]
    pub fn byte(&mut self, b: u8)
        ensures { Puts (b ∷ []) self.old self.new }
    {
        if self.at < self.out.len() {
            self.out[self.at] = b;
            self.at += 1;
        }
    }

    // The bytes of a text.
    pub fn word(&mut self, text: &[u8])
        ensures { Puts text.now self.old self.new }
    {
        for b in text {
            self.byte(*b);
        }
    }

    // The last `count` digits of n, the highest first.
    fn digits(&mut self, n: u64, count: usize)
        ensures { Puts (digits count n) self.old self.new }
    {
        if 0 < count {
            self.digits(n / 10, count - 1);
            self.byte(b'0' + (n % 10) as u8);
        }
    }

    pub fn natural(&mut self, n: u64)
        ensures { Puts (natural n) self.old self.new }
    {
        self.digits(n, width(n));
    }

    // A minus where z is below 0.
    pub fn minus(&mut self, z: i64)
        ensures { Puts (minus z) self.old self.new }
    {
        if z < 0 {
            self.byte(b'-');
        }
    }

    pub fn signed(&mut self, z: i64)
        ensures { Puts (signed z) self.old self.new }
    {
        self.minus(z);
        self.natural(z.unsigned_abs());
    }

    // The point of n units of 10^-places, and what stands behind it.
    fn fraction(&mut self, n: u64, places: u8)
        ensures { Puts (fraction places n) self.old self.new }
    {
        if 0 < places {
            self.byte(b'.');
            self.digits(n, usize::from(places));
        }
    }

    // n units of 10^-places.
    fn unsigned(&mut self, n: u64, places: u8)
        ensures { Puts (unsigned places n) self.old self.new }
    {
        self.natural(whole_part(n, places));
        self.fraction(n, places);
    }

    // z units of 10^-places.
    pub fn decimal(&mut self, z: i64, places: u8)
        ensures { Puts (decimal places z) self.old self.new }
    {
        self.minus(z);
        self.unsigned(z.unsigned_abs(), places);
    }

    // A space, and the text behind it.
    pub fn next_word(&mut self, text: &[u8])
        ensures { Puts (32 ∷ text.now) self.old self.new }
    {
        self.byte(b' ');
        self.word(text);
    }

    pub fn next_natural(&mut self, n: u64)
        ensures { Puts (32 ∷ natural n) self.old self.new }
    {
        self.byte(b' ');
        self.natural(n);
    }

    pub fn next_signed(&mut self, z: i64)
        ensures { Puts (32 ∷ signed z) self.old self.new }
    {
        self.byte(b' ');
        self.signed(z);
    }

    pub fn next_decimal(&mut self, z: i64, places: u8)
        ensures { Puts (32 ∷ decimal places z) self.old self.new }
    {
        self.byte(b' ');
        self.decimal(z, places);
    }
}

// How many digits n has. A `while` that goes by what is left of the number: std here has no count of digits, and a `for` would hide the division.
fn width(n: u64) -> usize
    ensures { result ≡ width n }
{
    let mut count = 1;
    let mut rest = n;
    while 10 <= rest {
        rest /= 10;
        count += 1;
    }
    count
}

// What stands before the point of n units of 10^-places; nothing where no word holds that power.
fn whole_part(n: u64, places: u8) -> u64
    ensures { result ≡ n / 10 ^ places }
{
    match 10u64.checked_pow(u32::from(places)) {
        Some(power) => n / power,
        None => 0,
    }
}
