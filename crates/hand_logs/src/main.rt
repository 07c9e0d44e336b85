// Lines with logs made by hand, played on mark words as the session program plays its own.
#![tactic(auto)]

use engines::Words;
use output::Buffer;
use rules::MARK_WORDS;

// A failed write ends the program, and nobody is told.
fn main(rt: HostRuntime) {
    let mut marks = [0u64; MARK_WORDS];
    let engine = Words { marks: &mut marks };
    let mut out = Buffer::new(rt.stdout());
    hand_lines::run(engine, &mut rt.stdin(), &mut out);
}
