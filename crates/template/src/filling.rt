// Sentences with numbers in them, put by a pen.
ghost use Rattle.std.specs.Prelude.{◌≡◌, pos, get_or};
ghost use Rattle.text.specs.Pen.{Puts};
ghost use Rattle.template.specs.Filling.{degrees, shown, uses, filled};

use text::pen::Pen;

// A heading in degrees.
fn put_degrees(pen: &mut Pen, z: i64)
    ensures { Puts (degrees z) pen.old pen.new }
{
    let size = z.unsigned_abs();
    if size % 1_000 != 0 {
        pen.decimal(z, 3);
    } else {
        pen.minus(z);
        pen.natural(size / 1_000);
    }
}

// What a byte of a sentence stands for, where z is the next number.
#[tactic(auto, unfolding(crate::specs::Filling::shown))]
fn put_shown(pen: &mut Pen, b: u8, z: i64)
    ensures { Puts (shown b z) pen.old pen.new }
{
    match b {
        b'#' => pen.signed(z),
        b'%' => pen.decimal(z, 6),
        b'@' => put_degrees(pen, z),
        _ => pen.byte(b),
    }
}

// How many numbers it takes.
#[tactic(auto, unfolding(crate::specs::Filling::uses))]
fn uses(b: u8) -> usize
    ensures { result ≡ uses b }
{
    match b {
        b'#' | b'%' | b'@' => 1,
        _ => 0,
    }
}

// The k-th number, and 0 past the last.
fn number_at(numbers: &[i64], k: usize) -> i64
    ensures { result ≡ get_or numbers.now k (pos 0) }
{
    numbers.get(k).copied().unwrap_or(0)
}

// A sentence with its numbers in it.
pub fn fill(pen: &mut Pen, sentence: &[u8], numbers: &[i64])
    ensures { Puts (filled sentence.now numbers.now) pen.old pen.new }
{
    let mut k = 0;
    for b in sentence {
        put_shown(pen, *b, number_at(numbers, k));
        k += uses(*b);
    }
}
