// The lines that a shelf listing has beside document 01's: `batch` and `burst` (W4), read and played. Any bytes are met with an answer.
#![tactic(auto)]

ghost use Rattle.std.specs.Prelude.{◌<◌, length, IfSome};

use calls::{Batched, WriteRecord};
use engines::Engine;
use fields::Fields;
use playing::Player;
use rules::Bytes;
use std::io;
use std::io::Write;

// The most records that a batch is read with.
const MOST: usize = 1100;

// How many records a line's batch has, and these, as many as there is room for: one more than a batch may have.
#[derive(Clone, Copy)]
struct Records {
    count: usize,
    list: [WriteRecord; 1025],
}

// ---- lines

// The record in the next three fields.
fn read_record(fields: &mut Fields<'_>) -> Option<WriteRecord>
    ensures { IfSome result (λ _. length fields.new < length fields.old) }
{
    let id = fields.number(65535)? as u16;
    let address = fields.number(u64::MAX)?;
    let bytes = Bytes(fields.number(u64::MAX)?);
    Some(WriteRecord { id, address, bytes })
}

// A `batch`: its records, one behind the other.
fn read_batch(mut fields: Fields<'_>) -> Option<Records> {
    let none = WriteRecord {
        id: 0,
        address: 0,
        bytes: Bytes(0),
    };
    let mut list = [none; 1025];
    for count in 0..=MOST {
        if fields.is_empty() {
            return Some(Records { count, list });
        }
        let record = read_record(&mut fields)?;
        if let Some(place) = list.get_mut(count) {
            *place = record;
        }
    }
    None
}

// A `burst`: so many equal records.
fn read_burst(mut fields: Fields<'_>) -> Option<Records> {
    let count = fields.number(2000)? as usize;
    let record = read_record(&mut fields)?;
    if !fields.is_empty() {
        return None;
    }
    let list = [record; 1025];
    Some(Records { count, list })
}

// ---- played

// Puts a batch's answer: a refused one's number alone.
fn put_batched<W: Write>(out: &mut W, b: Batched) -> io::Result<()> {
    if b.number != 0 {
        return playing::put_number(out, b.number);
    }
    writeln!(
        out,
        "0 done {} new {} refusal {}",
        b.done, b.count, b.refusal
    )
}

// Plays a batch that was read, or none where its line is bad, and puts its answer.
fn play<E: Engine, W: Write>(
    player: &mut Player<E>,
    burst: Option<Records>,
    out: &mut W,
) -> io::Result<()> {
    let Some(burst) = burst else {
        return playing::put_bad(out);
    };
    let list = burst.list;
    let logged = player
        .engine
        .batch_logged(player.log, player.device, list, burst.count);
    player.log = logged.log;
    put_batched(out, logged.answer)
}

// Plays a `batch` with these fields.
pub fn batch<E: Engine, W: Write>(
    player: &mut Player<E>,
    fields: Fields<'_>,
    out: &mut W,
) -> io::Result<()> {
    play(player, read_batch(fields), out)
}

// Plays a `burst` with these fields.
pub fn burst<E: Engine, W: Write>(
    player: &mut Player<E>,
    fields: Fields<'_>,
    out: &mut W,
) -> io::Result<()> {
    play(player, read_burst(fields), out)
}
