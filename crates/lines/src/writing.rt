// The two nodes of a pair, put by a pen.
ghost use Rattle.text.specs.Spaced.{spaced};
ghost use Rattle.text.specs.Pen.{Puts};
ghost use Rattle.lines.specs.Listing.{pair_words};

use grid::nodes::Pair;
use text::pen::Pen;

// A tick and its heading, twice.
#[tactic(auto, unfolding(crate::specs::Listing::pair_words, text::specs::Spaced::spaced))]
pub(crate) fn put_pair(pen: &mut Pen, p: Pair)
    ensures { Puts (spaced (pair_words p)) pen.old pen.new }
{
    pen.natural(u64::from(p.first.tick));
    pen.next_signed(i64::from(p.first.heading));
    pen.next_natural(u64::from(p.second.tick));
    pen.next_signed(i64::from(p.second.heading));
}
