// What the mate reads.
ghost use Rattle.std.specs.Prelude.{◌≡◌, ◌≤◌, nat_abs};
ghost use Rattle.readout.specs.Told.{told};
ghost use Rattle.readout.specs.Display.{is_usable, scaled, reading_of, display_of};

use load::force;
use load::refused::Refused;
use reader::record::Record;
use refusals::refusal::Refusal;
use seaway::sea::Sea;
use whole::rounding;

// The mean and the whole load.
#[derive(Clone, Copy)]
pub struct Reading {
    pub mean: f64,
    pub whole: f64,
}

// In newtons, in newton metres, or a refusal with its place and nothing else.
#[derive(Clone, Copy)]
pub enum Display {
    Force(Reading),
    Moment(Reading),
    Refused(Refused),
}

// 16 where this is false: a scale that is not a number is neither above 0 nor at most 1,000.
fn is_usable(scale: f64) -> bool
    ensures { result ≡ is_usable scale }
{
    scale > 0.0 && scale <= 1000.0
}

// A force over 1,000, rounded to a whole count, which a double holds exactly, and multiplied once.
fn scaled_by(scale: f64, force: i64) -> f64
    requires { nat_abs force ≤ 3_200_000_000_000_000_000 }
    ensures { result ≡ scaled scale force }
{
    let count = rounding::nearest_signed(force, 1_000);
    (count as f64) * scale
}

// Kind 0 is difference; the mean of a sum table is 0.0.
fn read_off(kind: u8, scale: f64, mean: i64, whole: i64) -> Reading
    requires { (nat_abs mean ≤ 3_200_000_000_000_000_000) × (nat_abs whole ≤ 3_200_000_000_000_000_000) }
    ensures { result ≡ reading_of kind scale mean whole }
{
    let mean = if kind == 0 {
        scaled_by(scale, mean)
    } else {
        0.0
    };
    Reading {
        mean,
        whole: scaled_by(scale, whole),
    }
}

// All that the force tests, then 16.
pub fn show(r: Record, cells: &[i32], sea: Sea, t: u64, scale: f64) -> Display
    ensures { told result ≡ display_of r cells.now sea t scale }
{
    match force::with_mean(r, cells, sea, t) {
        Err(refused) => Display::Refused(refused),
        Ok(load) => {
            if !is_usable(scale) {
                return Display::Refused(Refused::from(Refusal::Scale));
            }
            let shown = read_off(r.choices.kind, scale, load.mean, load.whole);
            if r.choices.component <= 3 {
                Display::Force(shown)
            } else {
                Display::Moment(shown)
            }
        }
    }
}
