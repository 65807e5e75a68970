// The bench's own cells and flags, written by somebody else.
ghost use Rattle.std.specs.Prelude.{◌≡◌, set};
ghost use Rattle.script.specs.Place.{only_byte_of};
ghost use Rattle.changing.specs.Memory.{leaving, entry_set, poke_as, spill_as};

use asking::memory;
use replies::reply::Reply;
use script::numbers::Numbers;
use table::cells;

#[tactic(auto, unfolding(crate::specs::Memory::entry_set))]
fn set_cell(cells: &mut [i32], p: usize, re: i32, im: i32)
    ensures { cells.new ≡ entry_set cells.old p re im }
{
    if p < cells::FLAGS && 2 * p + 1 < cells.len() {
        cells[2 * p] = re;
        cells[2 * p + 1] = im;
    }
}

fn set_flag(flags: &mut [u8], at: usize, v: u8)
    ensures { flags.new ≡ set flags.old at v }
{
    if at < flags.len() {
        flags[at] = v;
    }
}

// `poke ROW COLUMN RE IM FLAG`.
#[tactic(auto, unfolding(crate::specs::Memory::poke_as, crate::specs::Memory::poke_with))]
pub fn poke(n: &Numbers, cells: &mut [i32], flags: &mut [u8]) -> Reply
    ensures { leaving result cells.new flags.new ≡ poke_as n.now cells.old flags.old }
{
    if n.count != 5 {
        return Reply::Unknown;
    }
    let Some(p) = memory::place_of(n) else {
        return Reply::Unknown;
    };
    let Some(re) = n.signed_at(2) else {
        return Reply::Unknown;
    };
    let Some(im) = n.signed_at(3) else {
        return Reply::Unknown;
    };
    let Some(flag) = n.byte_at(4) else {
        return Reply::Unknown;
    };
    set_cell(cells, p, re, im);
    set_flag(flags, p, flag);
    Reply::Poked
}

// `spill V`: the cells and flags beyond those of a table, which no call is to touch, whatever is lent.
#[tactic(auto, unfolding(crate::specs::Memory::spill_as))]
pub fn spill(n: &Numbers, cells: &mut [i32], flags: &mut [u8]) -> Reply
    ensures { leaving result cells.new flags.new ≡ spill_as (only_byte_of n.now) cells.old flags.old }
{
    let Some(v) = n.only_byte() else {
        return Reply::Unknown;
    };
    if 100 < v {
        return Reply::Unknown;
    }
    let beyond = cells::CELLS.min(cells.len());
    cells[beyond..].fill(i32::from(v));
    let beyond = cells::FLAGS.min(flags.len());
    flags[beyond..].fill(v);
    Reply::Spilt(v)
}
