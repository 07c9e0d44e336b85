// The calls to a controller's queue of user-data changes (W8): it is made in a lent area of its own, the device posts entries to it, and the host takes them, the
// oldest first. Each contract is an equation with a function of the calls: it says every returned value, every field of the record and every byte of the area and
// the buffer afterwards; marks are only read. No call looks at the bytes of an entry.
#![tactic(auto)]

ghost use Rattle.std.specs.Prelude.{◌≡◌, false, ◌&&◌, cond, ◌*◌, ◌<◌, ◌≤◌, length, IfOk};
ghost use Rattle.little.specs.Little.{put};
ghost use Rattle.rules.specs.Queue.{places_ok, closing_entry, joined, closes_at, taken_of, closes_with};
ghost use Rattle.rules.specs.Order.{size_made};
ghost use Rattle.ring.specs.Ring.{place_after};
ghost use Rattle.record.specs.Record.{places_of, where_is};
ghost use Rattle.calls.specs.Calls.{with_queue, fill_in, queued_in, ring_posted, ring_taken, make_change, post_change, take_change};
ghost use Rattle.calls.specs.Inner.{changed_by, posted_by, taken_by};
ghost use Rattle.queue.specs.Inner.{Usable, lent_to};

use calls::{Changed, Posted, Taken};
use rules::{Device, ENTRY_BYTES, MOST_PLACES, Refusal, Ring};

// ---- the area

// Whether so many bytes are a whole 2 to 1,024 places.
fn places_ok(bytes: usize) -> bool
    ensures { result ≡ places_ok bytes }
{
    let places = bytes / ENTRY_BYTES;
    bytes % ENTRY_BYTES == 0 && 2 <= places && places <= MOST_PLACES
}

// Whether so many bytes are the size that a queue was made with; any are where none was made.
fn size_made(q: Option<Ring>, bytes: usize) -> bool
    ensures { result ≡ size_made (places_of q) bytes }
{
    q.is_none_or(|r| bytes == ENTRY_BYTES * (r.size as usize))
}

// Whether an area of so many bytes may be lent to a post or a take.
fn area_ok(q: Option<Ring>, bytes: usize) -> bool
    ensures { result ≡ (places_ok bytes && size_made (places_of q) bytes) }
{
    places_ok(bytes) && size_made(q, bytes)
}

// ---- the record

// The record with another queue for the controller at a place.
fn with_queue(d: Device, i: usize, queue: Option<Ring>) -> Device
    requires { i < 8 }
    ensures { result ≡ with_queue d i queue }
{
    let mut e = d;
    e.controllers[i].queue = queue;
    e
}

// A controller's place and its queue, to which an area of so many bytes is lent. Refused, in this order: 1, 2, 28 the area is no whole 2 to 1,024 places or not the
// size made, 29 no queue.
fn lent(d: Device, words: usize, id: u16, bytes: usize) -> Result<(usize, Ring), Refusal>
    ensures queue { result ≡ lent_to d bytes (where_is d words id) }
    ensures usable { IfOk result (λ at. (at.0 < 8) × Usable bytes at.1) }
{
    let i = record::locate(d, words, id)?;
    let queue = d.controllers[i].queue;
    if !area_ok(queue, bytes) {
        return Err(Refusal::Area);
    }
    let Some(r) = queue else {
        return Err(Refusal::NoQueue);
    };
    Ok((i, r))
}

// How many entries a ring has queued.
fn fill_of(r: Ring) -> usize
    ensures { result ≡ fill_in r }
{
    ring::fill(r.posted, r.taken) as usize
}

// ---- a post

// Stores an entry behind those that are queued, or the closing one where only one place is free, and says whether it was that one.
fn store(area: &mut [u8], r: Ring, entry: &[u8]) -> bool
    requires { (length area.old ≡ 32 * r.size) × (r.place < r.size) × (fill_in r < r.size) × (length entry.now ≡ 32) }
    ensures { (result ≡ closes_at r.size (fill_in r))
        × (area.new
        ≡ put area.old (32 * place_after r.size r.place (fill_in r)) (cond (closes_at r.size (fill_in r)) closing_entry entry.now)) }
{
    let n = r.size as usize;
    let place = r.place as usize;
    let fill = fill_of(r);
    let free = n - fill;
    if free > 1 {
        ring::put_entry(area, n, place, fill, entry);
        false
    } else {
        ring::put_closing(area, n, place, fill);
        true
    }
}

// The ring with one entry more, which was the closing one or not.
fn after_post(r: Ring, closed: bool) -> Ring
    ensures { result ≡ ring_posted r closed }
{
    let posted = ring::next_total(r.posted, 1);
    Ring {
        posted,
        stopped: closed,
        ..r
    }
}

// ---- a take

// Copies the oldest entries to the buffer's front: the least of those asked for, those queued and those that fit whole in it. Says how many.
fn hand_out(area: &[u8], r: Ring, asked: u32, buffer: &mut [u8]) -> usize
    requires { (length area.now ≡ 32 * r.size) × (r.place < r.size) × (fill_in r ≤ r.size) }
    ensures { (result ≡ length (taken_of asked (length buffer.old) (queued_in area.now r)))
        × (result ≤ r.size)
        × (buffer.new ≡ put buffer.old 0 (joined (taken_of asked (length buffer.old) (queued_in area.now r)))) }
{
    let n = r.size as usize;
    let oldest = r.place as usize;
    let fits = (buffer.len() / ENTRY_BYTES).min(fill_of(r));
    let m = (asked as usize).min(fits);
    ring::take_entries(area, n, oldest, m, buffer);
    m
}

// Whether the last of m entries that are taken is the closing one: the queue has stopped, and all that it had were taken, and some.
fn is_closing(r: Ring, m: usize) -> bool
    ensures { result ≡ closes_with r.stopped m (fill_in r) }
{
    r.stopped && m != 0 && m == fill_of(r)
}

// The ring without its m oldest entries.
fn after_take(r: Ring, m: usize) -> Ring
    requires { (r.place < r.size) × (m ≤ r.size) }
    ensures { result ≡ ring_taken r m }
{
    let n = r.size as usize;
    let taken = ring::next_total(r.taken, m as u32);
    let place = ring::place_after(n, r.place as usize, m);
    Ring {
        taken,
        place: place as u16,
        ..r
    }
}

// ---- the calls

// What a make makes of the record.
fn try_make_queue(d: Device, words: usize, id: u16, area: &[u8]) -> Result<Device, Refusal>
    ensures { changed_by d result ≡ make_change d words id (length area.now) }
{
    let i = record::locate(d, words, id)?;
    if !places_ok(area.len()) {
        return Err(Refusal::Area);
    }
    let size = (area.len() / ENTRY_BYTES) as u16;
    let made = Ring {
        size,
        posted: 0,
        taken: 0,
        place: 0,
        stopped: false,
    };
    Ok(with_queue(d, i, Some(made)))
}

// `make_queue` on marks of so many words, however they are held.
pub fn make_queue_on(d: Device, words: usize, id: u16, area: &[u8]) -> Changed
    ensures { result ≡ make_change d words id (length area.now) }
{
    calls::changed_by(d, try_make_queue(d, words, id, area))
}

// Makes a controller's queue in an area, or makes it anew: it is empty, with totals 0, and has as many places as the area. No byte of the area changes. Refused, in
// this order: 1, 2, 28 the area is no whole 2 to 1,024 places.
pub fn make_queue(d: Device, marks: &[u64], id: u16, area: &[u8]) -> Changed
    ensures { result ≡ make_change d (length marks.now) id (length area.now) }
{
    make_queue_on(d, marks.len(), id, area)
}

// What a post comes to.
fn try_post(
    d: Device,
    words: usize,
    area: &mut [u8],
    id: u16,
    entry: &[u8],
) -> Result<Posted, Refusal>
    ensures { (posted_by d result ≡ (post_change d words area.old id entry.now).answer)
        × (area.new ≡ (post_change d words area.old id entry.now).area) }
{
    let (i, r) = lent(d, words, id, area.len())?;
    if entry.len() != ENTRY_BYTES {
        return Err(Refusal::Short);
    }
    if r.stopped {
        return Err(Refusal::Stopped);
    }
    let stopped = store(area, r, entry);
    let device = with_queue(d, i, Some(after_post(r, stopped)));
    Ok(Posted {
        number: 0,
        stopped,
        device,
    })
}

// `post` on marks of so many words, however they are held.
pub fn post_on(d: Device, words: usize, area: &mut [u8], id: u16, entry: &[u8]) -> Posted
    ensures { (result ≡ (post_change d words area.old id entry.now).answer)
        × (area.new ≡ (post_change d words area.old id entry.now).area) }
{
    let outcome = try_post(d, words, area, id, entry);
    calls::posted_by(d, outcome)
}

// Posts an entry to a controller's queue: it is stored behind those that are queued. Where only one place is free the closing entry is stored there instead, and the
// answer says that logging has stopped. Refused, in this order: 1, 2, 28 the area is no whole 2 to 1,024 places or not the size made, 29 no queue, 8 an entry that
// has not 32 bytes, 30 logging has stopped.
pub fn post(d: Device, marks: &[u64], area: &mut [u8], id: u16, entry: &[u8]) -> Posted
    ensures { (result ≡ (post_change d (length marks.now) area.old id entry.now).answer)
        × (area.new ≡ (post_change d (length marks.now) area.old id entry.now).area) }
{
    post_on(d, marks.len(), area, id, entry)
}

// What a take comes to.
fn try_take(
    d: Device,
    words: usize,
    area: &[u8],
    id: u16,
    asked: u32,
    buffer: &mut [u8],
) -> Result<Taken, Refusal>
    ensures { (taken_by d result ≡ (take_change d words area.now id asked buffer.old).answer)
        × (buffer.new ≡ (take_change d words area.now id asked buffer.old).buffer) }
{
    let (i, r) = lent(d, words, id, area.len())?;
    let count = hand_out(area, r, asked, buffer);
    let closing = is_closing(r, count);
    let device = with_queue(d, i, Some(after_take(r, count)));
    Ok(Taken {
        number: 0,
        count,
        closing,
        device,
    })
}

// `take` on marks of so many words, however they are held.
pub fn take_on(
    d: Device,
    words: usize,
    area: &[u8],
    id: u16,
    asked: u32,
    buffer: &mut [u8],
) -> Taken
    ensures { (result ≡ (take_change d words area.now id asked buffer.old).answer)
        × (buffer.new ≡ (take_change d words area.now id asked buffer.old).buffer) }
{
    let outcome = try_take(d, words, area, id, asked, buffer);
    calls::taken_by(d, outcome)
}

// Takes the oldest entries of a controller's queue into a buffer, one after another from its front on: as many as were asked for, are queued and fit whole, and maybe
// none. The other bytes of the buffer stay. The answer says whether the last one taken is the closing entry. Refused, in this order: 1, 2, 28 the area is no whole 2
// to 1,024 places or not the size made, 29 no queue.
pub fn take(d: Device, marks: &[u64], area: &[u8], id: u16, asked: u32, buffer: &mut [u8]) -> Taken
    ensures { (result ≡ (take_change d (length marks.now) area.now id asked buffer.old).answer)
        × (buffer.new ≡ (take_change d (length marks.now) area.now id asked buffer.old).buffer) }
{
    take_on(d, marks.len(), area, id, asked, buffer)
}
