// The line of a shelf listing that takes a part of a controller's state: `part` (W6), read and played. Any bytes are met with an answer.
#![tactic(auto)]

use calls::StateSet;
use engines::Engine;
use fields::Fields;
use hex_text::Hex;
use playing::Player;
use rules::STATE_BYTES;
use std::io;
use std::io::Write;

// The state area, handed on from part to part.
pub type Area = [u8; STATE_BYTES];

// The most bytes that a line's data have: a dword more than the area.
const MOST: usize = STATE_BYTES + 4;

// What a line says of a part: its numbers, and its data.
#[derive(Clone, Copy)]
struct Numbers<'a> {
    id: u16,
    indicator: u8,
    low: u32,
    high: u32,
    count: u32,
    data: &'a [u8],
}

// The part in these fields, its data in hex last: they are read into `data`.
fn read<'a>(mut fields: Fields<'_>, data: &'a mut [u8]) -> Option<Numbers<'a>> {
    let id = fields.number(65535)? as u16;
    let indicator = fields.number(255)? as u8;
    let low = fields.number(4294967295)? as u32;
    let high = fields.number(4294967295)? as u32;
    let count = fields.number(4294967295)? as u32;
    let data = hex_text::read(fields.rest()?, data)?;
    Some(Numbers {
        id,
        indicator,
        low,
        high,
        count,
        data,
    })
}

// Puts a part's answer: a refused one's number alone, and behind a finished state the state.
fn put_set<W: Write>(out: &mut W, set: &StateSet, area: &Area) -> io::Result<()> {
    if set.number != 0 {
        return playing::put_number(out, set.number);
    }
    let whole = set.whole;
    writeln!(out, "0 whole {whole}")?;
    if whole == 0 {
        return Ok(());
    }
    writeln!(out, "{}", Hex(&area[..whole.min(STATE_BYTES)]))
}

// Plays a `part` with these fields, by this manager, and puts its answer.
pub fn part<E: Engine, W: Write>(
    player: &mut Player<E>,
    area: &mut Area,
    manager: u16,
    fields: Fields<'_>,
    out: &mut W,
) -> io::Result<()> {
    let mut data = [0u8; MOST];
    let Some(part) = read(fields, &mut data) else {
        return playing::put_bad(out);
    };
    let set = player.engine.set_state(
        player.device,
        area,
        manager,
        part.id,
        part.indicator,
        part.low,
        part.high,
        part.count,
        part.data,
    );
    player.device = set.device;
    put_set(out, &set, area)
}
