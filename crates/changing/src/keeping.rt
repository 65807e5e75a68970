// The six places that `keep` copies a table to: six records, and the cells of one place behind those of the other.
ghost use Rattle.std.specs.Prelude.{◌≡◌};
ghost use Rattle.script.specs.Place.{only_byte_of};
ghost use Rattle.changing.specs.Keeping.{laid, keeping, keep_as};

use asking::places::CELLS;
use replies::reply::Reply;
use script::numbers::Numbers;

// Where the record is to be kept, counted from 0, and what `keep` comes to.
#[derive(Clone, Copy)]
pub struct Kept {
    pub place: Option<usize>,
    pub reply: Reply,
}

// Cells copied to those from a place on, where there is room for all of them.
#[tactic(auto, unfolding(crate::specs::Keeping::laid))]
fn lay(kept: &mut [i32], at: usize, cells: &[i32])
    ensures { kept.new ≡ laid kept.old at cells.now }
{
    if kept.len() < cells.len() || kept.len() - cells.len() < at {
        return;
    }
    kept[at..at + cells.len()].copy_from_slice(cells);
}

// `keep N`: all the cells as they are now, copied to place N. The record goes there too, which the caller sees to.
#[tactic(auto, unfolding(crate::specs::Keeping::keep_as))]
pub fn keep(n: &Numbers, cells: &[i32], kept: &mut [i32]) -> Kept
    ensures { keeping result.place kept.new result.reply ≡ keep_as (only_byte_of n.now) cells.now kept.old }
{
    match n.only_byte() {
        Some(place @ 1..=6) => {
            let k = usize::from(place - 1);
            lay(kept, CELLS * k, cells);
            Kept {
                place: Some(k),
                reply: Reply::Kept(place),
            }
        }
        _ => Kept {
            place: None,
            reply: Reply::Unknown,
        },
    }
}
