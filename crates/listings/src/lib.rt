// A listing read and played to its end, each line answered: document 01's, or a shelf's, which has more lines (`bursts`, `parts`, `queues`, `files`, `managers`,
// `totals`). A line is cut by `lines`, and played by `playing` or one of these.
#![tactic(auto)]

use engines::Engine;
use lines::{Answers, Lines};
use log_numbers::Log;
use parts::Area;
use playing::Player;
use queues::{AREAS_BYTES, Areas};
use rules::{STATE_BYTES, Settings};
use std::io;
use std::io::{Read, Write};

// A line's buffer has a byte more than a line may have, so that one which is cut is still too long: here for document 01's listing, and for a shelf's.
const SESSION_BYTES: usize = 1024;

const SHELF_BYTES: usize = 16384;

// ---- document 01's listing

// Plays the session listing that is read from this reader on this player, to its end or until writing fails: the device and the log that its last line leaves are the player's.
pub fn session_on<E: Engine, R: Read, W: Write>(
    player: &mut Player<E>,
    from: &mut R,
    out: &mut W,
) -> io::Result<()> {
    let mut lines = Lines::<'_, R, SESSION_BYTES>::new(from);
    lines.answer_all(player, out)
}

// The same on this engine. Answers the settings and the log that its last line leaves.
pub fn play_session<E: Engine, R: Read, W: Write>(
    engine: E,
    from: &mut R,
    out: &mut W,
) -> io::Result<(Settings, Log)> {
    let mut player = Player::new(engine);
    session_on(&mut player, from, out)?;
    Ok((player.device.settings, player.log))
}

// ---- a shelf's listing

// What a shelf's lines are played on: a player, the area for the parts of a state, and those of the queues.
#[derive(Drop)]
pub struct Shelf<E: Engine> {
    pub player: Player<E>,
    pub area: Area,
    pub areas: Areas,
}

impl<E: Engine> Shelf<E> {
    // On a device of which every call answers 1, as before a done `dev`.
    pub fn new(engine: E) -> Shelf<E> {
        Shelf {
            player: Player::new(engine),
            area: [0; STATE_BYTES],
            areas: [0; AREAS_BYTES],
        }
    }
}

impl<E: Engine> Answers for Shelf<E> {
    // Plays a line of a shelf's listing, which may say that a manager makes its call.
    fn answer<W: Write>(&mut self, line: &[u8], out: &mut W) -> io::Result<()> {
        if line.len() >= SHELF_BYTES {
            return playing::put_bad(out);
        }
        let player = &mut self.player;
        let (caller, line) = managers::caller_of(player.device.settings.manager, line);
        let (word, fields) = fields::split(line);
        match word {
            b"batch" => bursts::batch(player, fields, out),
            b"burst" => bursts::burst(player, fields, out),
            b"part" => parts::part(player, &mut self.area, caller, fields, out),
            b"queue" => queues::queue(player, &mut self.areas, fields, out),
            b"post" => queues::post(player, &mut self.areas, fields, out),
            b"take" => queues::take(player, &mut self.areas, fields, out),
            b"old" => files::old(fields, out),
            b"new" => files::new(fields, out),
            b"save" => files::save(fields, out),
            b"dev2" => managers::dev2(player, fields, out),
            b"log" => totals::log(player, fields, out),
            _ => player.play_line(caller, line, true, out),
        }
    }
}

// Plays the shelf listing that is read from this reader on this shelf, to its end or until writing fails: what its last line leaves is the shelf's.
pub fn shelf_on<E: Engine, R: Read, W: Write>(
    shelf: &mut Shelf<E>,
    from: &mut R,
    out: &mut W,
) -> io::Result<()> {
    let mut lines = Lines::<'_, R, SHELF_BYTES>::new(from);
    lines.answer_all(shelf, out)
}

// The same on this engine.
pub fn play_shelf<E: Engine, R: Read, W: Write>(
    engine: E,
    from: &mut R,
    out: &mut W,
) -> io::Result<()> {
    shelf_on(&mut Shelf::new(engine), from, out)
}
