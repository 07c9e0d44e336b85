// The shelf program: reads a shelf listing, which has lines for the newer calls beside document 01's, from standard input to its end and answers line by line.
#![tactic(auto)]

use engines::Words;
use output::Buffer;
use rules::MARK_WORDS;

// A failed write ends the program, and nobody is told.
fn main(rt: HostRuntime) {
    let mut marks = [0u64; MARK_WORDS];
    let engine = Words { marks: &mut marks };
    let mut out = Buffer::new(rt.stdout());
    let _ = listings::play_shelf(engine, &mut rt.stdin(), &mut out);
}
