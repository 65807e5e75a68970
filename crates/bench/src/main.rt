// The test bench's program: a script on standard input, an answer on standard output for each command.
#![tactic(auto)]

use rig::turns;
use streams::{output, words};

// The buffer holds 64 KiB of a piece and the line feed behind them, `kept` the cells of the six places, and `out` as many bytes as `proteus` may be given; the last three
// are the cells, flags and lines that `explain` has of its own. They go to the bench from here, since the prover takes the length of an array that is lent by its type, and
// would count one that is made.
fn run(
    rt: &(impl Input + Print + Eprint),
    buffer: &mut [u8; 65_537],
    cells: &mut [i32; 12_900],
    flags: &mut [u8; 6_500],
    kept: &mut [i32; 77_400],
    out: &mut [u8; 1_100_000],
    values: &mut [i32; 12_900],
    marks: &mut [u8; 6_500],
    lines: &mut [u32; 6_500],
) {
    turns::run(rt, buffer, cells, flags, kept, out, values, marks, lines);
}

fn main(rt: HostRuntime) {
    if 1 < words::count(&rt, 2) {
        output::say(
            &rt,
            "bench takes no words: a script stands on standard input\n",
        );
        return;
    }
    let mut buffer = [0; 65_537];
    let mut cells = [0; 12_900];
    let mut flags = [0; 6_500];
    let mut kept = [0; 77_400];
    let mut out = [0; 1_100_000];
    let mut values = [0; 12_900];
    let mut marks = [0; 6_500];
    let mut lines = [0; 6_500];
    run(
        &rt,
        &mut buffer,
        &mut cells,
        &mut flags,
        &mut kept,
        &mut out,
        &mut values,
        &mut marks,
        &mut lines,
    );
}
