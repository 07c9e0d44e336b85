// The lines of a shelf listing for a controller's queue of user-data changes: `queue`, `post` and `take` (W8), read and played. Any bytes are met with an answer.
// Each controller has an area of its own, by its place in the settings. They are handed on from line to line, also past a new `dev`.
#![tactic(auto)]

ghost use Rattle.std.specs.Prelude.{◌≤◌, ◌*◌, ◌≡◌, length, IfSome};

use calls::{Posted, Taken};
use engines::Engine;
use fields::Fields;
use hex_text::Hex;
use playing::Player;
use rules::{ENTRY_BYTES, Settings};
use std::io;
use std::io::Write;

// The bytes of an area: those of a place more than a queue may have, so that a line can lend too much.
const AREA_BYTES: usize = 32800;

// The bytes of all areas, one for each place of the settings.
pub const AREAS_BYTES: usize = 8 * AREA_BYTES;

// The areas, one behind the other.
pub type Areas = [u8; AREAS_BYTES];

// The most bytes of a line's entry.
const MOST_ENTRY: usize = 64;

// The most bytes of a line's buffer.
const MOST_BUFFER: usize = 4096;

// ---- the lines

// What each of these lines says first: a controller, and how many bytes of its area it lends.
#[derive(Clone, Copy)]
struct Lent {
    id: u16,
    size: usize,
    ghost within: { size ≤ 32800 },
}

// The first two fields of a line.
fn read_lent(fields: &mut Fields<'_>) -> Option<Lent> {
    let id = fields.number(65535)? as u16;
    let size = fields.number(AREA_BYTES as u64)? as usize;
    Some(Lent { id, size })
}

// The fields of a `queue`.
fn read_queue(mut fields: Fields<'_>) -> Option<Lent> {
    let lent = read_lent(&mut fields)?;
    if fields.is_empty() { Some(lent) } else { None }
}

// The fields of a `post`: its entry, in hex, is read into `entry`.
fn read_post<'a>(mut fields: Fields<'_>, entry: &'a mut [u8]) -> Option<(Lent, &'a [u8])> {
    let lent = read_lent(&mut fields)?;
    let entry = hex_text::read(fields.rest()?, entry)?;
    Some((lent, entry))
}

// The fields of a `take`: how many entries are asked for, and a buffer of how many bytes is lent for them.
fn read_take(mut fields: Fields<'_>) -> Option<(Lent, u32, usize)>
    ensures { IfSome result (λ t. t.2 ≤ 4096) }
{
    let lent = read_lent(&mut fields)?;
    let asked = fields.number(4294967295)? as u32;
    let size = fields.number(MOST_BUFFER as u64)? as usize;
    if fields.is_empty() {
        Some((lent, asked, size))
    } else {
        None
    }
}

// ---- the areas

// What a line lends of the areas: nothing where the settings lack its controller.
fn lend(areas: &mut Areas, s: Settings, lent: Lent) -> &mut [u8] {
    let place = match settings::find(s, lent.id) {
        Some(i) => areas.chunks_exact_mut(AREA_BYTES).nth(i),
        None => None,
    };
    match place {
        Some(area) => &mut area[..lent.size],
        None => &mut [],
    }
}

// ---- played

// Plays a `queue` with these fields.
pub fn queue<E: Engine, W: Write>(
    player: &mut Player<E>,
    areas: &mut Areas,
    fields: Fields<'_>,
    out: &mut W,
) -> io::Result<()> {
    let Some(lent) = read_queue(fields) else {
        return playing::put_bad(out);
    };
    let area = lend(areas, player.device.settings, lent);
    let changed = player.engine.make_queue(player.device, lent.id, area);
    player.device = changed.device;
    playing::put_number(out, changed.number)
}

// Puts a post's answer: a refused one's number alone.
fn put_posted<W: Write>(out: &mut W, posted: &Posted) -> io::Result<()> {
    match posted.number {
        0 => writeln!(out, "0 stopped {}", u8::from(posted.stopped)),
        number => playing::put_number(out, number),
    }
}

// Plays a `post` with these fields.
pub fn post<E: Engine, W: Write>(
    player: &mut Player<E>,
    areas: &mut Areas,
    fields: Fields<'_>,
    out: &mut W,
) -> io::Result<()> {
    let mut entry = [0u8; MOST_ENTRY];
    let Some((lent, entry)) = read_post(fields, &mut entry) else {
        return playing::put_bad(out);
    };
    let area = lend(areas, player.device.settings, lent);
    let posted = player.engine.post(player.device, area, lent.id, entry);
    player.device = posted.device;
    put_posted(out, &posted)
}

// Puts a take's answer: a refused one's number alone, and behind a done one's the entries, which stand at the buffer's front.
fn put_taken<W: Write>(out: &mut W, taken: &Taken, buffer: &[u8]) -> io::Result<()> {
    if taken.number != 0 {
        return playing::put_number(out, taken.number);
    }
    writeln!(
        out,
        "0 taken {} closing {}",
        taken.count,
        u8::from(taken.closing)
    )?;
    for entry in buffer.chunks_exact(ENTRY_BYTES).take(taken.count) {
        writeln!(out, "{}", Hex(entry))?;
    }
    Ok(())
}

// Plays a `take` with these fields.
pub fn take<E: Engine, W: Write>(
    player: &mut Player<E>,
    areas: &mut Areas,
    fields: Fields<'_>,
    out: &mut W,
) -> io::Result<()> {
    let Some((lent, asked, size)) = read_take(fields) else {
        return playing::put_bad(out);
    };
    let mut buffer = [0u8; MOST_BUFFER];
    let buffer = &mut buffer[..size];
    let area = lend(areas, player.device.settings, lent);
    let taken = player
        .engine
        .take(player.device, area, lent.id, asked, buffer);
    player.device = taken.device;
    put_taken(out, &taken, buffer)
}
