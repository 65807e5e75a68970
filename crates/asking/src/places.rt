// The six places that tables are kept in, six records and the cells of one place behind those of the other: their ProteusDS text.
ghost use Rattle.std.specs.Prelude.{◌≡◌, take, drop};
ghost use Rattle.script.specs.Place.{first_among};
ghost use Rattle.hull.specs.Six.{components_of, components_with};
ghost use Rattle.proteus.specs.Answer.{wrote_in};
ghost use Rattle.asking.specs.Places.{places_of, telling, wrote_as, proteus_as};

use crate::lent::Lent;
use hull::six::{Component, Six};
use proteus::output;
use reader::reader::{Answer, Place};
use reader::record::Record;
use refusals::refusal::Refusal;
use replies::reply::Reply;
use script::numbers::Numbers;

// How many cells a place has: all those of the bench, whatever is lent.
pub const CELLS: usize = 12_900;

// So many cells from a place on, as far as there are any.
fn part(kept: &[i32], at: usize, c: usize) -> &[i32]
    ensures { result.now ≡ take c (drop at kept.now) }
{
    let from = at.min(kept.len());
    let to = from + c.min(kept.len() - from);
    &kept[from..to]
}

// The text's length, or the refusal.
#[tactic(auto, using(refusals::proofs::Numbers::numbered), unfolding(crate::specs::Places::wrote_as))]
fn wrote_as(w: Result<usize, Refusal>) -> Reply
    ensures { result ≡ wrote_as (wrote_in w) }
{
    match w {
        Ok(length) => Reply::Proteus(length),
        Err(refusal) => Reply::Answered(Answer::Refused(refusal.number(), Place::Nowhere)),
    }
}

// The six, each lent the first c cells of its place.
fn six<'a>(records: &'a [Record; 6], kept: &'a [i32], c: usize) -> Six<'a>
    ensures { components_of result ≡ components_with records.now (places_of c kept.now) }
{
    let [first, second, third, fourth, fifth, sixth] = records;
    Six {
        components: [
            Component {
                table: first,
                cells: part(kept, 0, c),
            },
            Component {
                table: second,
                cells: part(kept, CELLS, c),
            },
            Component {
                table: third,
                cells: part(kept, 2 * CELLS, c),
            },
            Component {
                table: fourth,
                cells: part(kept, 3 * CELLS, c),
            },
            Component {
                table: fifth,
                cells: part(kept, 4 * CELLS, c),
            },
            Component {
                table: sixth,
                cells: part(kept, 5 * CELLS, c),
            },
        ],
    }
}

// `proteus ROOM`: the six tables, each lent the first cells of its place, as a ProteusDS text in the first ROOM bytes of `out`.
#[tactic(auto, unfolding(crate::specs::Places::proteus_as))]
pub fn proteus(records: [Record; 6], n: &Numbers, lent: Lent, kept: &[i32], out: &mut [u8]) -> Reply
    ensures { telling result out.new ≡ proteus_as records (first_among 1 n.now) lent.cells kept.now out.old }
{
    let Some(room) = n.first_among(1) else {
        return Reply::Unknown;
    };
    if 1_100_000 < room {
        return Reply::Unknown;
    }
    let c = lent.cells.min(CELLS);
    let end = (room as usize).min(out.len());
    wrote_as(output::write(&six(&records, kept, c), &mut out[..end]))
}
