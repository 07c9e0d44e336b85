// The calls that are logged (document 02, W13): each does its call and answers what that answers, and hands back the log with what the answer books. Every other
// call leaves a log as it was. Each contract is the call's own equation, and one more for the log.
#![tactic(auto)]

ghost use Rattle.std.specs.Prelude.{◌≡◌, true, length, take};
ghost use Rattle.record.specs.Record.{sound_with, where_is};
ghost use Rattle.calls.specs.Calls.{in_words, fresh_change, stop_change, write_note, batch_change, batch_by, receive_receipt};
ghost use Rattle.booking.specs.Booking.{fresh_log, stop_log, write_log, batch_log, receive_log, units_held, reading_at};

use booking::{Logged, Reading};
use calls::{Batched, Changed, Received, WriteRecord, Written};
use log_numbers::Log;
use pieces::Rows;
use rules::{Bytes, Device, Settings, Tracking};
use writes::{InWords, Notes};

// Makes a fresh device, and with it a log in which nothing is booked.
pub fn fresh(l: Log, s: Settings, marks: &mut [u64]) -> Logged<Changed>
    ensures { (result.answer ≡ (fresh_change s marks.old).answer)
        × (marks.new ≡ (fresh_change s marks.old).marks)
        × (result.log ≡ fresh_log in_words l s marks.old) }
{
    let answer = fresh::fresh(s, marks);
    let log = booking::begun(l, answer.number);
    Logged { answer, log }
}

// How many units of a controller are pending, on a record that is sound.
pub fn pending_units<E: Notes>(d: Device, marks: &[E::Cell], id: u16) -> usize
    ensures { sound_with d (E.engine.words (E.area marks.now)) ≡ true → result ≡ units_held E.engine d (E.area marks.now) id }
{
    let Ok(i) = record::locate(d, E::words(marks), id) else {
        return 0;
    };
    let c = d.controllers[i];
    let Tracking::On(g, n) = c.tracking else {
        return 0;
    };
    let ranges = calls::ranges_of(c);
    let rows = Rows {
        granularity: g,
        count: n as usize,
        ranges,
    };
    let units = ranges::units_in(rows);
    E::count(marks, c.base as usize, units.0 as usize)
}

// Stops a manager's tracking of a controller. What was still pending is booked as dropped.
pub fn stop(l: Log, d: Device, marks: &mut [u64], manager: u16, id: u16) -> Logged<Changed>
    ensures { (result.answer ≡ (stop_change d marks.old manager id).answer)
        × (marks.new ≡ (stop_change d marks.old manager id).marks)
        × (result.log ≡ stop_log in_words l d marks.old manager id) }
{
    let dropped = pending_units::<InWords>(d, marks, id);
    let answer = track_send::stop(d, marks, manager, id);
    let log = booking::book(l, d.settings, id, answer.number, 0, 0, dropped);
    Logged { answer, log }
}

// Notes a write. What was not pending before is booked as marked.
pub fn write(
    l: Log,
    d: Device,
    marks: &mut [u64],
    id: u16,
    at: u64,
    bytes: Bytes,
) -> Logged<Written>
    ensures { (result.answer ≡ (write_note d marks.old id (record { address = at; bytes = bytes.0 })).answer)
        × (marks.new ≡ (write_note d marks.old id (record { address = at; bytes = bytes.0 })).marks)
        × (result.log ≡ write_log in_words l d marks.old id (record { address = at; bytes = bytes.0 })) }
{
    let answer = writes::write(d, marks, id, at, bytes);
    let log = booking::book(l, d.settings, id, answer.number, answer.count, 0, 0);
    Logged { answer, log }
}

// Notes the first n of some writes one after another, and books each by itself.
pub fn batch_of_on<E: Notes>(
    l: Log,
    d: Device,
    marks: &mut [E::Cell],
    list: [WriteRecord; 1025],
    n: usize,
) -> Logged<Batched>
    ensures { (result.answer ≡ (batch_by E.engine d (E.area marks.old) (take n list)).answer)
        × (E.area marks.new ≡ (batch_by E.engine d (E.area marks.old) (take n list)).marks)
        × (result.log ≡ batch_log E.engine l d (E.area marks.old) (take n list)) }
{
    let notes = &list[..n.min(1025)];
    let mut answer = writes::begin(d, E::words(marks), notes.len());
    let mut log = l;
    for w in notes {
        if !writes::due(answer, notes.len()) {
            return Logged { answer, log };
        }
        let r = E::note(d, marks, w.id, w.address, w.bytes);
        log = booking::book(log, d.settings, w.id, r.number, r.count, 0, 0);
        answer = writes::tally(answer, r);
    }
    Logged { answer, log }
}

// Notes the first n of some writes one after another, and books each by itself.
pub fn batch_of(
    l: Log,
    d: Device,
    marks: &mut [u64],
    list: [WriteRecord; 1025],
    n: usize,
) -> Logged<Batched>
    ensures { (result.answer ≡ (batch_change d marks.old (take n list)).answer)
        × (marks.new ≡ (batch_change d marks.old (take n list)).marks)
        × (result.log ≡ batch_log in_words l d marks.old (take n list)) }
{
    batch_of_on::<InWords>(l, d, marks, list, n)
}

// Reports a controller's pending runs to its manager. The units of the runs that the report lists are booked as reported.
pub fn receive(
    l: Log,
    d: Device,
    marks: &mut [u64],
    manager: u16,
    id: u16,
    buffer: &mut [u8],
) -> Logged<Received>
    ensures { (result.answer ≡ (receive_receipt d marks.old manager id buffer.old).answer)
        × (marks.new ≡ (receive_receipt d marks.old manager id buffer.old).marks)
        × (buffer.new ≡ (receive_receipt d marks.old manager id buffer.old).buffer)
        × (result.log ≡ receive_log in_words l d marks.old manager id buffer.old) }
{
    let answer = track_receive::receive(d, marks, manager, id, buffer);
    let reported = booking::units_listed(answer, buffer);
    let log = booking::book(l, d.settings, id, answer.number, 0, reported, 0);
    Logged { answer, log }
}

// A controller's totals. Refused, in this order: 1, 2.
pub fn totals(l: Log, d: Device, marks: &[u64], id: u16) -> Reading
    ensures { result ≡ reading_at l (where_is d (length marks.now) id) }
{
    booking::totals_of(d, marks.len(), l, id)
}
