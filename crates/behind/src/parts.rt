// Numbers behind one another in a line.
ghost use Rattle.std.specs.Prelude.{ℕ, List, ◌∷◌, map};
ghost use Rattle.text.specs.Decimal.{natural, signed};
ghost use Rattle.text.specs.Spaced.{spaced};
ghost use Rattle.text.specs.Pen.{Puts};
ghost use Rattle.behind.specs.Behind.{behind};

use text::pen::Pen;

// A number as a word of a line.
pub trait Numeral: Copy {
    ghost text: { Self → List ℕ };

    // A space, and the number behind it.
    fn put_behind(self, pen: &mut Pen)
        ensures { Puts (32 ∷ text self) pen.old pen.new };
}

impl Numeral for u32 {
    ghost text = { natural };

    fn put_behind(self, pen: &mut Pen) {
        pen.next_natural(u64::from(self));
    }
}

impl Numeral for u64 {
    ghost text = { natural };

    fn put_behind(self, pen: &mut Pen) {
        pen.next_natural(self);
    }
}

impl Numeral for i32 {
    ghost text = { signed };

    fn put_behind(self, pen: &mut Pen) {
        pen.next_signed(i64::from(self));
    }
}

impl Numeral for i64 {
    ghost text = { signed };

    fn put_behind(self, pen: &mut Pen) {
        pen.next_signed(self);
    }
}

// Numbers, each behind a space.
pub fn next_numbers<N: Numeral>(pen: &mut Pen, numbers: &[N])
    ensures { Puts (behind (map N.text numbers.now)) pen.old pen.new }
{
    for n in numbers {
        n.put_behind(pen);
    }
}

// A word, and numbers behind it.
pub fn put_line<N: Numeral>(pen: &mut Pen, word: &[u8], numbers: &[N])
    ensures { Puts (spaced (word.now ∷ map N.text numbers.now)) pen.old pen.new }
{
    pen.word(word);
    next_numbers(pen, numbers);
}
