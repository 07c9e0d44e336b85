// Lines with logs made by hand (document 02, W13): a line of document 01's listing behind totals, played with a log that has these totals in every account, and
// answered with what the log then says. No listing brings a total near 2^64 by itself; here one begins there. Any bytes are met with an answer.
#![tactic(auto)]

use engines::Engine;
use lines::{Answers, Lines};
use listing::Call;
use log_numbers::{Account, Log, Totals};
use playing::Player;
use std::io;
use std::io::{Read, Write};

// ---- reading

// The totals before a line, three numbers of 64 bits, marked, reported and dropped, or `unknown`; and the line.
fn read(line: &[u8]) -> Option<(Option<Totals>, &[u8])> {
    let (first, mut fields) = fields::split(line);
    let totals = if first == b"unknown".as_slice() {
        None
    } else {
        let marked = fields::read_number(first, u64::MAX)?;
        let reported = fields.number(u64::MAX)?;
        let dropped = fields.number(u64::MAX)?;
        Some(Totals {
            marked,
            reported,
            dropped,
        })
    };
    Some((totals, fields.rest()?))
}

// A log with these totals in every account.
fn log_of(totals: Option<Totals>) -> Log {
    Log {
        accounts: [Account { totals }; 8],
    }
}

// ---- playing

// What the lines are played on.
#[derive(Drop)]
struct ByHand<E: Engine> {
    player: Player<E>,
}

impl<E: Engine> Answers for ByHand<E> {
    // Plays a line behind its totals as the session program plays it, and puts the log that it leaves. A bad one has no log.
    fn answer<W: Write>(&mut self, line: &[u8], out: &mut W) -> io::Result<()> {
        let Some((totals, line)) = read(line) else {
            return playing::put_bad(out);
        };
        let line = listing::read_line(line);
        if let Call::Bad = line.call {
            return playing::put_bad(out);
        }
        let player = &mut self.player;
        player.log = log_of(totals);
        player.play(player.device.settings.manager, line, false, out)?;
        totals::put_log(out, player.device.settings, player.log)
    }
}

// A line's buffer: totals have at most 63 bytes with their spaces, so that a line which is cut for want of room is still too long.
const LINE_BYTES: usize = 1087;

// Plays what is read from this reader on this engine, to its end or until writing fails.
pub fn play<E: Engine, R: Read, W: Write>(engine: E, from: &mut R, out: &mut W) -> io::Result<()> {
    let player = Player::new(engine);
    let mut lines = Lines::<'_, R, LINE_BYTES>::new(from);
    lines.answer_all(&mut ByHand { player }, out)
}

// The same, and nobody is told where writing fails.
pub fn run<E: Engine, R: Read, W: Write>(engine: E, from: &mut R, out: &mut W) {
    let _ = play(engine, from, out);
}
