// The session program: reads the listing of document 01 from standard input to its end and answers line by line on standard output.
#![tactic(auto)]

use engines::Words;
use output::Buffer;
use rules::MARK_WORDS;

// A failed write ends the program, and nobody is told.
fn main(rt: HostRuntime) {
    let mut marks = [0u64; MARK_WORDS];
    let engine = Words { marks: &mut marks };
    let mut out = Buffer::new(rt.stdout());
    let _ = listings::play_session(engine, &mut rt.stdin(), &mut out);
}
