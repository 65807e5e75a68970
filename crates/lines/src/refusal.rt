// A refusal as a line: its number and its place.
ghost use Rattle.std.specs.Prelude.{◌≡◌, ◌∷◌, ◌≤◌, length};
ghost use Rattle.text.specs.Spaced.{spaced};
ghost use Rattle.text.specs.Pen.{Puts};
ghost use Rattle.lines.specs.Line.{line_of};
ghost use Rattle.lines.specs.Refusal.{place_words, refusal_text};

use crate::writing;
use reader::reader::Place;
use text::line::Line;
use text::pen::Pen;

// A space, and the words of a place; they are not long, since the numbers are of 32 bits.
fn next_place(pen: &mut Pen, place: Place)
    ensures result_after { Puts (32 ∷ spaced (place_words place)) pen.old pen.new }
    ensures place_len_bound { length (spaced (place_words place)) ≤ 45 }
{
    match place {
        Place::Nowhere => pen.next_natural(0),
        Place::Line(n) => pen.next_natural(u64::from(n)),
        Place::Pair(p) => {
            pen.byte(b' ');
            writing::put_pair(pen, p);
        }
    }
}

// "refused", the number, which a caller may state as it likes, and the place; a line has room for it.
pub fn put(pen: &mut Pen, number: u8, place: Place)
    ensures result_after { Puts (refusal_text number place) pen.old pen.new }
    ensures place_len_bound { length (refusal_text number place) ≤ 80 }
{
    pen.word(b"refused");
    pen.next_natural(u64::from(number));
    next_place(pen, place);
}

// The same as a line. Three such functions write their four lines out: one that is handed what puts would need a contract for a closure over a pen.
pub fn line(number: u8, place: Place) -> Line<80>
    ensures { result ≡ line_of (refusal_text number place) }
{
    let mut bytes = [0u8; 80];
    let mut pen = Pen::new(&mut bytes);
    put(&mut pen, number, place);
    let len = pen.end();
    Line { bytes, len }
}
