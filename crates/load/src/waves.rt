// The lines of a sea in their places.
ghost use Rattle.std.specs.Prelude.{◌≡◌, true, ◌≤◌, take};
ghost use Rattle.reader.specs.Valid.{valid_of};
ghost use Rattle.seaway.specs.Sea.{lines_of};
ghost use Rattle.load.specs.Force.{located_sea};
ghost use Rattle.load.specs.own.Waves.{located_by, SeaLocated};

use crate::locating;
use crate::locating::Bracket;
use crate::refused::Refused;
use reader::record::Record;
use seaway::sea::Sea;
use table::entries::Parts;

// A sea line with its bracket in the table.
#[derive(Clone, Copy)]
pub(crate) struct Wave {
    pub bracket: Bracket,
    pub tick: u32,
    pub amplitude: Parts,
}

// What stands where no line was located.
pub(crate) const NOWHERE: Wave = Wave {
    bracket: Bracket {
        low: 0,
        high: 0,
        to_low: 0,
        to_high: 0,
        width: 0,
    },
    tick: 0,
    amplitude: Parts { re: 0, im: 0 },
};

// Each line is located once, from the last to the first, so that of several that have no place the first one's refusal stays. A wave is stored where it lies: an
// array that is passed on by value is copied.
pub(crate) fn locate_lines(r: Record, sea: Sea, waves: &mut [Wave; 64]) -> Result<(), Refused>
    requires { (valid_of r ≡ true) × (sea.count ≤ 64) }
    ensures { let x = located_by result waves.new in SeaLocated r.slots x.number x.line (take sea.count x.waves) (located_sea r (lines_of sea)) }
{
    let mut outcome = Ok(());
    for i in (0..sea.count).rev() {
        let line = i as u32 + 1;
        match locating::locate(r, sea.headings[0], sea.ticks[i], sea.headings[i], line) {
            Err(refused) => outcome = Err(refused),
            Ok(bracket) => {
                let amplitude = Parts {
                    re: sea.re[i],
                    im: sea.im[i],
                };
                waves[i] = Wave {
                    bracket,
                    tick: sea.ticks[i],
                    amplitude,
                };
            }
        }
    }
    outcome
}
