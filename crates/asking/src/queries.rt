// The queries: a coefficient, and the force of a sea as a number or as the display shows it. None of them writes anything.
ghost use Rattle.std.specs.Prelude.{◌≡◌};
ghost use Rattle.script.specs.Place.{number_at, natural_of, word_of, signed_of, first_among};
ghost use Rattle.refusals.specs.Numbered.{number_of};
ghost use Rattle.asking.specs.Queries.{bare_as, refused_as, point_of, coefficient_asked, force_asked, display_asked};

use crate::doubles;
use grid::nodes::Node;
use load::refused::Refused;
use load::{coefficient, force};
use reader::reader::{Answer, Place};
use reader::record::Record;
use readout::display;
use readout::display::Display;
use replies::reply::Reply;
use script::numbers::Numbers;
use seaway::sea::Sea;

// A command with no numbers.
#[tactic(auto, unfolding(crate::specs::Queries::bare_as))]
pub fn bare(n: &Numbers, reply: Reply) -> Reply
    ensures { result ≡ bare_as n.now reply }
{
    if n.count != 0 {
        return Reply::Unknown;
    }
    reply
}

// A refused query. Its place is a line, and line 0 is none.
#[tactic(auto, unfolding(crate::specs::Queries::refused_as))]
fn refused(e: Refused) -> Reply
    ensures { result ≡ refused_as (number_of e.refusal) e.line }
{
    Reply::Answered(Answer::Refused(e.refusal.number(), Place::Line(e.line)))
}

// The k-th number as a tick, and the l-th as a heading.
#[tactic(auto, unfolding(crate::specs::Queries::point_of))]
fn point_at(n: &Numbers, k: usize, l: usize) -> Option<Node>
    ensures { result ≡ point_of (word_of (natural_of (number_at n.now k))) (signed_of (number_at n.now l)) }
{
    let tick = n.word_at(k)?;
    let heading = n.signed_at(l)?;
    Some(Node { tick, heading })
}

// `coefficient TICK HEADING TICK HEADING`, of a record and the cells that are lent.
#[tactic(auto, unfolding(crate::specs::Queries::coefficient_asked, crate::specs::Queries::between_as, crate::specs::Queries::coefficient_as))]
pub fn coefficient(r: Record, n: &Numbers, cells: &[i32]) -> Reply
    ensures { result ≡ coefficient_asked r n.now cells.now }
{
    if n.count != 4 {
        return Reply::Unknown;
    }
    let Some(a) = point_at(n, 0, 1) else {
        return Reply::Unknown;
    };
    let Some(b) = point_at(n, 2, 3) else {
        return Reply::Unknown;
    };
    match coefficient::between(r, cells, a, b) {
        Ok(z) => Reply::Coefficient(z.re, z.im),
        Err(e) => refused(e),
    }
}

// `force T`, in a sea too.
#[tactic(auto, unfolding(crate::specs::Queries::force_asked, crate::specs::Queries::force_as))]
pub fn force(r: Record, sea: Sea, n: &Numbers, cells: &[i32]) -> Reply
    ensures { result ≡ force_asked r sea (first_among 1 n.now) cells.now }
{
    let Some(t) = n.first_among(1) else {
        return Reply::Unknown;
    };
    match force::at(r, cells, sea, t) {
        Ok(z) => Reply::Force(z),
        Err(e) => refused(e),
    }
}

// `display T SCALE`, with the scale's 64 bits.
#[tactic(auto, unfolding(crate::specs::Queries::display_asked, crate::specs::Queries::display_as))]
pub fn display(r: Record, sea: Sea, n: &Numbers, cells: &[i32]) -> Reply
    ensures { result ≡ display_asked r sea (first_among 2 n.now) (natural_of (number_at n.now 1)) cells.now }
{
    let Some(t) = n.first_among(2) else {
        return Reply::Unknown;
    };
    let Some(bits) = n.natural_at(1) else {
        return Reply::Unknown;
    };
    match display::show(r, cells, sea, t, doubles::of_bits(bits)) {
        Display::Force(x) => {
            Reply::ShownForce(doubles::bits_of(x.mean), doubles::bits_of(x.whole))
        }
        Display::Moment(x) => {
            Reply::ShownMoment(doubles::bits_of(x.mean), doubles::bits_of(x.whole))
        }
        Display::Refused(e) => refused(e),
    }
}
