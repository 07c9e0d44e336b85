// Lines with logs made by hand, played as the program `hand_logs` does, with the same answers, on the plain engine (document 02, W9).
#![tactic(auto)]

use engines::Plain;
use output::Buffer;
use plain::AREA_BYTES;

// A failed write ends the program, and nobody is told.
fn main(rt: HostRuntime) {
    let mut area = [0u8; AREA_BYTES];
    let engine = Plain { area: &mut area };
    let mut out = Buffer::new(rt.stdout());
    hand_lines::run(engine, &mut rt.stdin(), &mut out);
}
