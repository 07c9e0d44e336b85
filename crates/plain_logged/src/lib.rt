// The plain engine's calls that are logged (document 02, W13), as `logged` has those of the other engine: one byte a unit.
#![tactic(auto)]

ghost use Rattle.std.specs.Prelude.{◌≡◌, length, take};
ghost use Rattle.record.specs.Record.{where_is};
ghost use Rattle.calls.specs.Calls.{fresh_by, stop_by, write_by, batch_by, receive_by};
ghost use Rattle.plain.specs.Bytes.{words_for, in_bytes};
ghost use Rattle.booking.specs.Booking.{fresh_log, stop_log, write_log, batch_log, receive_log, reading_at};

use booking::{Logged, Reading};
use calls::{Batched, Changed, Received, WriteRecord, Written};
use log_numbers::Log;
use plain::InBytes;
use rules::{Bytes, Device, Settings};

// Makes a fresh device, and with it a log in which nothing is booked.
pub fn fresh(l: Log, s: Settings, area: &mut [u8]) -> Logged<Changed>
    ensures { (result.answer ≡ (fresh_by in_bytes s area.old).answer)
        × (area.new ≡ (fresh_by in_bytes s area.old).marks)
        × (result.log ≡ fresh_log in_bytes l s area.old) }
{
    let answer = plain::fresh(s, area);
    let log = booking::begun(l, answer.number);
    Logged { answer, log }
}

// Stops a manager's tracking of a controller. What was still pending is booked as dropped.
pub fn stop(l: Log, d: Device, area: &mut [u8], manager: u16, id: u16) -> Logged<Changed>
    ensures { (result.answer ≡ (stop_by in_bytes d area.old manager id).answer)
        × (area.new ≡ (stop_by in_bytes d area.old manager id).marks)
        × (result.log ≡ stop_log in_bytes l d area.old manager id) }
{
    let dropped = logged::pending_units::<InBytes>(d, area, id);
    let answer = plain::stop(d, area, manager, id);
    let log = booking::book(l, d.settings, id, answer.number, 0, 0, dropped);
    Logged { answer, log }
}

// Notes a write. What was not pending before is booked as marked.
pub fn write(l: Log, d: Device, area: &mut [u8], id: u16, at: u64, bytes: Bytes) -> Logged<Written>
    ensures { (result.answer ≡ (write_by in_bytes d area.old id (record { address = at; bytes = bytes.0 })).answer)
        × (area.new ≡ (write_by in_bytes d area.old id (record { address = at; bytes = bytes.0 })).marks)
        × (result.log ≡ write_log in_bytes l d area.old id (record { address = at; bytes = bytes.0 })) }
{
    let answer = plain::write(d, area, id, at, bytes);
    let log = booking::book(l, d.settings, id, answer.number, answer.count, 0, 0);
    Logged { answer, log }
}

// Notes the first n of some writes one after another, and books each by itself.
pub fn batch_of(
    l: Log,
    d: Device,
    area: &mut [u8],
    list: [WriteRecord; 1025],
    n: usize,
) -> Logged<Batched>
    ensures { (result.answer ≡ (batch_by in_bytes d area.old (take n list)).answer)
        × (area.new ≡ (batch_by in_bytes d area.old (take n list)).marks)
        × (result.log ≡ batch_log in_bytes l d area.old (take n list)) }
{
    logged::batch_of_on::<InBytes>(l, d, area, list, n)
}

// Reports a controller's pending runs to its manager. The units of the runs that the report lists are booked as reported.
pub fn receive(
    l: Log,
    d: Device,
    area: &mut [u8],
    manager: u16,
    id: u16,
    buffer: &mut [u8],
) -> Logged<Received>
    ensures { (result.answer ≡ (receive_by in_bytes d area.old manager id buffer.old).answer)
        × (area.new ≡ (receive_by in_bytes d area.old manager id buffer.old).marks)
        × (buffer.new ≡ (receive_by in_bytes d area.old manager id buffer.old).buffer)
        × (result.log ≡ receive_log in_bytes l d area.old manager id buffer.old) }
{
    let answer = plain::receive(d, area, manager, id, buffer);
    let reported = booking::units_listed(answer, buffer);
    let log = booking::book(l, d.settings, id, answer.number, 0, reported, 0);
    Logged { answer, log }
}

// A controller's totals. Refused, in this order: 1, 2.
pub fn totals(l: Log, d: Device, area: &[u8], id: u16) -> Reading
    ensures { result ≡ reading_at l (where_is d (words_for (length area.now)) id) }
{
    booking::totals_of(d, plain::words_for(area.len()), l, id)
}
