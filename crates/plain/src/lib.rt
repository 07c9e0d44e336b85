// The plain engine (document 02, W9): every call of `tracker`, on one byte a unit, 0 clear and all else pending, in a lent area of 16,384 bytes. It is there to be read: each call
// asks its refusals in document 01's order, and marks are gone over one unit at a time. What checks settings, ranges, the record, structures and a start, and what writes a report's
// bytes, is shared with the other engine, and so are the calls that touch no mark. Each contract is an equation with a function of the calls, for marks held in bytes.
#![tactic(auto)]

ghost use Rattle.std.specs.Prelude.{◌≡◌, ◌+◌, ◌≤◌, length, take};
ghost use Rattle.pool.specs.Pool.{Packs};
ghost use Rattle.calls.specs.Calls.{fresh_by, start_by, stop_by, write_by, batch_by, receive_by, suspend_change, resume_change, part_change, make_change, post_change, take_change};
ghost use Rattle.calls.specs.Inner.{changed_by, started_by, written_by, received_by};
ghost use Rattle.plain.specs.Bytes.{words_for, cleared_bytes, packed_bytes, in_bytes};

use calls::{Batched, Changed, Posted, Received, Started, StateSet, Taken, WriteRecord, Written};
use measures::WrittenRange;
use ranges::Rows;
use rules::{Bytes, Device, MARK_WORDS, Refusal, RowRefusal, Settings, Tracking, Units};
use writes::Notes;

// The bytes of the lent area: one for each unit that the pool may have.
pub const AREA_BYTES: usize = 16384;

// An area of the right size stands for the marks' words, any other for none, so that it is answered 1.
pub fn words_for(bytes: usize) -> usize
    ensures { result ≡ words_for bytes }
{
    if bytes == AREA_BYTES { MARK_WORDS } else { 0 }
}

// Makes the bytes of n units from a place on 0, one unit at a time, as document 02 asks of this engine; so it is a loop and no `fill`.
fn clear(area: &mut [u8], base: usize, n: usize)
    requires { base + n ≤ length area.old }
    ensures { area.new ≡ cleared_bytes area.old base n }
{
    for unit in 0..n {
        area[base + unit] = 0;
    }
}

// ---- fresh

// Makes a fresh device from settings: all bytes are 0, nobody is tracked or suspended. Refused, in this order: 16 settings that break the rules, 1 an area of another size; then
// the device is closed.
pub fn fresh(s: Settings, area: &mut [u8]) -> Changed
    ensures { (result ≡ (fresh_by in_bytes s area.old).answer) × (area.new ≡ (fresh_by in_bytes s area.old).marks) }
{
    let bytes = area.len();
    let answer = fresh::made(s, words_for(bytes));
    if answer.number != 0 {
        return answer;
    }
    clear(area, 0, bytes);
    answer
}

// ---- start and stop

// Moves each share's bytes to where it now begins, behind those of the places before it, one unit at a time. The bytes of the share at place `new` are 0, and so are all behind the
// last share.
fn pack(area: &mut [u8], bases: [usize; 8], sizes: [usize; 8], new: usize)
    requires { (length area.old ≡ 16384) × Packs area.old bases sizes new }
    ensures { area.new ≡ packed_bytes area.old bases sizes new }
{
    let mut packed = [0u8; AREA_BYTES];
    let mut place: usize = 0;
    for i in 0..8 {
        for unit in 0..sizes[i] {
            if i != new {
                packed[place] = area[bases[i] + unit];
            }
            place += 1;
        }
    }
    for i in 0..AREA_BYTES {
        area[i] = packed[i];
    }
}

// What a start makes of the record and of the area.
fn try_start(
    d: Device,
    area: &mut [u8],
    manager: u16,
    id: u16,
    data: &[u8],
) -> Result<Device, RowRefusal>
    ensures { (started_by d result ≡ (start_by in_bytes d area.old manager id «data».now).answer) × (area.new ≡ (start_by in_bytes d area.old manager id «data».now).marks) }
{
    let start = track_send::admit(d, words_for(area.len()), manager, id, data)?;
    let shares = record::shares(d);
    let ranges = start.ranges;
    let rows = Rows {
        granularity: start.granularity,
        count: start.count as usize,
        ranges,
    };
    let units = ranges::units_in(rows);
    let sizes = track_send::sizes_with(shares, start.place, units.0 as usize);
    pack(area, track_send::bases_of(shares), sizes, start.place);
    Ok(track_send::recorded(d, manager, start, sizes))
}

// Starts tracking a controller for a manager from a start structure. Refused, in this order: 1, 2 (also an unknown manager), 4 suspended, 3 already tracked, by either manager, 8 no whole header, 6 version, then what `listed_refusal` asks:
// 7, 8, 18, row by row 19, 20, 21, then 10, 11, 12, 34.
pub fn start(d: Device, area: &mut [u8], manager: u16, id: u16, data: &[u8]) -> Started
    ensures { (result ≡ (start_by in_bytes d area.old manager id «data».now).answer) × (area.new ≡ (start_by in_bytes d area.old manager id «data».now).marks) }
{
    calls::started_by(d, try_start(d, area, manager, id, data))
}

// What a stop makes of the record and of the area.
fn try_stop(d: Device, area: &mut [u8], manager: u16, id: u16) -> Result<Device, Refusal>
    ensures { (changed_by d result ≡ (stop_by in_bytes d area.old manager id).answer) × (area.new ≡ (stop_by in_bytes d area.old manager id).marks) }
{
    let i = record::locate_by(d, words_for(area.len()), manager, id)?;
    let c = d.controllers[i];
    if c.suspended {
        return Err(Refusal::Suspended);
    }
    let Tracking::On(g, n) = calls::tracking_by(c, manager) else {
        return Err(Refusal::Untracked);
    };
    let ranges = calls::ranges_of(c);
    let rows = Rows {
        granularity: g,
        count: n as usize,
        ranges,
    };
    let units = ranges::units_in(rows);
    clear(area, c.base as usize, units.0 as usize);
    Ok(track_send::forgotten(d, i))
}

// Stops tracking a controller: its ranges are forgotten and its bytes are 0. Refused, in this order: 1, 2 (also an unknown manager), 4 suspended, 5 not tracked by
// this manager.
pub fn stop(d: Device, area: &mut [u8], manager: u16, id: u16) -> Changed
    ensures { (result ≡ (stop_by in_bytes d area.old manager id).answer) × (area.new ≡ (stop_by in_bytes d area.old manager id).marks) }
{
    calls::changed_by(d, try_stop(d, area, manager, id))
}

// ---- write, and a batch of writes

// What a note comes to.
fn try_write(d: Device, area: &mut [u8], id: u16, at: u64, bytes: Bytes) -> Result<usize, Refusal>
    ensures { (written_by result ≡ (write_by in_bytes d area.old id (record { address = at; bytes = bytes.0 })).answer)
        × (area.new ≡ (write_by in_bytes d area.old id (record { address = at; bytes = bytes.0 })).marks) }
{
    let i = record::locate(d, words_for(area.len()), id)?;
    let c = d.controllers[i];
    writes::note_refusal(c.suspended, at, bytes)?;
    if bytes.0 == 0 {
        return Ok(0);
    }
    let Tracking::On(g, n) = c.tracking else {
        return Ok(0);
    };
    let ranges = calls::ranges_of(c);
    let size = measures::bytes_of(g, Units(1));
    let last = at + (bytes.0 - 1);
    let written = WrittenRange { at, last };
    Ok(plain_marks::mark_units(area, c.base as usize, size.0, n as usize, ranges, written))
}

// Notes that controller `id` wrote `bytes` bytes at address `at`. Answers how many units were not pending before. Refused, in this order: 1, 2, 4 suspended, 14 a written range
// that ends past 2^64.
pub fn write(d: Device, area: &mut [u8], id: u16, at: u64, bytes: Bytes) -> Written
    ensures { (result ≡ (write_by in_bytes d area.old id (record { address = at; bytes = bytes.0 })).answer)
        × (area.new ≡ (write_by in_bytes d area.old id (record { address = at; bytes = bytes.0 })).marks) }
{
    calls::written_by(try_write(d, area, id, at, bytes))
}

// This engine.
pub struct InBytes;

impl Notes for InBytes {
    type Cell = u8;

    ghost engine = { in_bytes };

    ghost area = { λ bs. bs };

    fn words(area: &[u8]) -> usize {
        words_for(area.len())
    }

    fn note(d: Device, area: &mut [u8], id: u16, at: u64, bytes: Bytes) -> Written {
        write(d, area, id, at, bytes)
    }

    fn count(area: &[u8], base: usize, n: usize) -> usize {
        plain_marks::count_units(area, base, n)
    }
}

// Notes the writes of a list one after another, as `write` does, up to the first that is refused; that cuts the batch, and the batch is done. Refused, in this order: 1, 22 more
// than 1,024 records.
pub fn batch(d: Device, area: &mut [u8], list: &[WriteRecord]) -> Batched
    ensures { (result ≡ (batch_by in_bytes d area.old list.now).answer) × (area.new ≡ (batch_by in_bytes d area.old list.now).marks) }
{
    writes::batch_on::<InBytes>(d, area, list)
}

// A batch of the first n of some records, for a caller that holds them by value. There is room for one more than a batch may have, so that a list that is too long is seen.
pub fn batch_of(d: Device, area: &mut [u8], list: [WriteRecord; 1025], n: usize) -> Batched
    ensures { (result ≡ (batch_by in_bytes d area.old (take n list)).answer) × (area.new ≡ (batch_by in_bytes d area.old (take n list)).marks) }
{
    batch(d, area, &list[..n.min(1025)])
}

// ---- receive

// What a receive comes to.
fn try_receive(
    d: Device,
    area: &mut [u8],
    manager: u16,
    id: u16,
    buffer: &mut [u8],
) -> Result<Received, Refusal>
    ensures { (received_by result ≡ (receive_by in_bytes d area.old manager id buffer.old).answer)
        × (area.new ≡ (receive_by in_bytes d area.old manager id buffer.old).marks)
        × (buffer.new ≡ (receive_by in_bytes d area.old manager id buffer.old).buffer) }
{
    let i = record::locate_by(d, words_for(area.len()), manager, id)?;
    let c = d.controllers[i];
    let Tracking::On(g, n) = calls::tracking_by(c, manager) else {
        return Err(Refusal::Untracked);
    };
    let size = buffer.len();
    if size < 32 {
        return Err(Refusal::Short);
    }
    let ranges = calls::ranges_of(c);
    let unit = measures::bytes_of(g, Units(1));
    let listed = plain_marks::list_units(
        area,
        c.base as usize,
        unit.0,
        n as usize,
        ranges,
        buffer,
        (size - 16) / 16,
    );
    report_data::put_header(buffer, id, c.suspended, listed.more, listed.runs as u32, g);
    Ok(Received {
        number: 0,
        suspended: c.suspended,
        more: listed.more,
        granularity: g,
        runs: listed.runs,
        groups: listed.groups,
    })
}

// Reports to the manager that tracks it the controller's first pending runs into the buffer, as many as it holds, and makes their bytes 0. The answer also says how many groups of 64 units were examined (W10).
// Refused, in this order: 1, 2 (also an unknown manager), 5 not tracked by this manager, 8 a buffer below 32 bytes.
pub fn receive(d: Device, area: &mut [u8], manager: u16, id: u16, buffer: &mut [u8]) -> Received
    ensures { (result ≡ (receive_by in_bytes d area.old manager id buffer.old).answer)
        × (area.new ≡ (receive_by in_bytes d area.old manager id buffer.old).marks)
        × (buffer.new ≡ (receive_by in_bytes d area.old manager id buffer.old).buffer) }
{
    calls::received_by(try_receive(d, area, manager, id, buffer))
}

// ---- the calls that touch no mark: the other engine's, of as many words as the area stands for

// Suspends a controller, or gives notice. Refused, in this order: 1, 2 (also an unknown manager), 15 another type.
pub fn suspend(d: Device, area: &[u8], manager: u16, id: u16, kind: u8) -> Changed
    ensures { result ≡ suspend_change d (words_for (length area.now)) manager id kind }
{
    migration_send::suspend_on(d, words_for(area.len()), manager, id, kind)
}

// Resumes a controller. Refused, in this order: 1, 2 (also an unknown manager), 13 not suspended.
pub fn resume(d: Device, area: &[u8], manager: u16, id: u16) -> Changed
    ensures { result ≡ resume_change d (words_for (length area.now)) manager id }
{
    migration_send::resume_on(d, words_for(area.len()), manager, id)
}

// Takes a part of a controller's state into the area for it. Refused, in this order: 1, 2 (also an unknown manager), 13 running, 23, 24, 25, 26, 27.
pub fn set_state(
    d: Device,
    area: &[u8],
    state: &mut [u8],
    manager: u16,
    id: u16,
    indicator: u8,
    low: u32,
    high: u32,
    count: u32,
    data: &[u8],
) -> StateSet
    ensures { (result
        ≡ (part_change d (words_for (length area.now)) state.old manager id (record { indicator = indicator; low = low; high = high; count = count; bytes = «data».now })).answer)
        × (state.new
        ≡ (part_change d (words_for (length area.now)) state.old manager id (record { indicator = indicator; low = low; high = high; count = count; bytes = «data».now })).area) }
{
    controller_state::set_state_on(
        d,
        words_for(area.len()),
        state,
        manager,
        id,
        indicator,
        low,
        high,
        count,
        data,
    )
}

// Makes a controller's queue in its area. Refused, in this order: 1, 2, 28.
pub fn make_queue(d: Device, area: &[u8], id: u16, queue: &[u8]) -> Changed
    ensures { result ≡ make_change d (words_for (length area.now)) id (length queue.now) }
{
    queue::make_queue_on(d, words_for(area.len()), id, queue)
}

// Posts an entry to a controller's queue. Refused, in this order: 1, 2, 28, 29, 8, 30.
pub fn post(d: Device, area: &[u8], queue: &mut [u8], id: u16, entry: &[u8]) -> Posted
    ensures { (result ≡ (post_change d (words_for (length area.now)) queue.old id entry.now).answer)
        × (queue.new ≡ (post_change d (words_for (length area.now)) queue.old id entry.now).area) }
{
    queue::post_on(d, words_for(area.len()), queue, id, entry)
}

// Takes the oldest entries of a controller's queue into a buffer. Refused, in this order: 1, 2, 28, 29.
pub fn take(d: Device, area: &[u8], queue: &[u8], id: u16, asked: u32, buffer: &mut [u8]) -> Taken
    ensures { (result ≡ (take_change d (words_for (length area.now)) queue.now id asked buffer.old).answer)
        × (buffer.new ≡ (take_change d (words_for (length area.now)) queue.now id asked buffer.old).buffer) }
{
    queue::take_on(d, words_for(area.len()), queue, id, asked, buffer)
}
