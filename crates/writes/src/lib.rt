// The call that notes a write. Its contract is an equation with `write_note` of the calls: it says every returned value and every word of the marks
// afterwards.
#![tactic(auto)]

ghost use Rattle.std.specs.Prelude.{◌≡◌, ℕ, List, true, length, take, get_or, ◌+◌, ◌<◌, ◌≤◌, ◌^◌};
ghost use Rattle.rules.specs.Refusals.{refusal, refused_by};
ghost use Rattle.rules.specs.Settings.{mark_words, most_units};
ghost use Rattle.rules.specs.Units.{Unit, pending};
ghost use Rattle.rules.specs.Order.{batch_order};
ghost use Rattle.record.specs.Record.{no_controller, sound_with};
ghost use Rattle.calls.specs.Calls.{Engine, in_words, write_note, write_by, batch_change, batch_by};
ghost use Rattle.calls.specs.Inner.{written_by};
ghost use Rattle.writes.specs.Inner.{MayNote, note_tests, note_on, begin_of, is_due, tally_of};

use calls::{Batched, WriteRecord, Written};
use measures::WrittenRange;
use pieces::Rows;
use rules::{Bytes, Controller, Device, MARK_WORDS, MOST_NOTES, Refusal, Tracking};

// Whether a note to a controller is refused, in this order: 4 suspended, 14 a written range that ends past 2^64.
pub fn note_refusal(suspended: bool, at: u64, bytes: Bytes) -> Result<(), Refusal>
    ensures { refused_by result ≡ refusal (note_tests suspended (record { address = at; bytes = bytes.0 })) }
{
    if suspended {
        return Err(Refusal::Suspended);
    }
    if bytes.0 > 0 && u64::MAX - at < bytes.0 - 1 {
        return Err(Refusal::PastEnd);
    }
    Ok(())
}

// Notes a write of one controller: how many units were not pending before. Refused as `note_refusal` says.
fn note_on(c: Controller, marks: &mut [u64], at: u64, bytes: Bytes) -> Result<usize, Refusal>
    requires { MayNote c marks.old c.base }
    ensures { (written_by result ≡ (note_on c marks.old c.base (record { address = at; bytes = bytes.0 })).answer)
        × (marks.new ≡ (note_on c marks.old c.base (record { address = at; bytes = bytes.0 })).marks) }
{
    note_refusal(c.suspended, at, bytes)?;
    if bytes.0 == 0 {
        return Ok(0);
    }
    let Tracking::On(g, n) = c.tracking else {
        return Ok(0);
    };
    let last = at + (bytes.0 - 1);
    let written = WrittenRange { at, last };
    let ranges = c.ranges;
    let rows = Rows {
        granularity: g,
        count: n as usize,
        ranges,
    };
    Ok(marking::mark_ranges(marks, c.base as usize, rows, written))
}

// The controller at a place, whose ranges a note is held to.
fn controller_at(d: &Device, i: usize) -> Controller
    requires { i < 8 }
    ensures { result ≡ get_or d.now.controllers i no_controller }
{
    d.controllers[i]
}

// What a note on a record that is known to be sound comes to.
fn try_note(d: &Device, marks: &mut [u64], id: u16, at: u64, bytes: Bytes) -> Result<usize, Refusal>
    requires { sound_with d.now (length marks.old) ≡ true }
    ensures { (written_by result ≡ (write_note d.now marks.old id (record { address = at; bytes = bytes.0 })).answer)
        × (marks.new ≡ (write_note d.now marks.old id (record { address = at; bytes = bytes.0 })).marks) }
{
    let Some(i) = settings::find(d.settings, id) else {
        return Err(Refusal::Unknown);
    };
    note_on(controller_at(d, i), marks, at, bytes)
}

// Notes a write on a record that is known to be sound: the touched units of the controller's tracked ranges become pending. Refused, in this order: 2,
// then as `note_refusal` says. That the record is sound is the caller's to keep.
pub fn note(d: Device, marks: &mut [u64], id: u16, at: u64, bytes: Bytes) -> Written
    requires { sound_with d (length marks.old) ≡ true }
    ensures { (result ≡ (write_note d marks.old id (record { address = at; bytes = bytes.0 })).answer)
        × (marks.new ≡ (write_note d marks.old id (record { address = at; bytes = bytes.0 })).marks) }
{
    calls::written_by(try_note(&d, marks, id, at, bytes))
}

// Whether the record is sound and the marks have their words.
fn ready(d: Device, words: usize) -> bool
    ensures { result ≡ sound_with d words }
{
    words == MARK_WORDS && record::sound(d)
}

// What a note comes to.
fn try_write(d: Device, marks: &mut [u64], id: u16, at: u64, bytes: Bytes) -> Result<usize, Refusal>
    ensures { (written_by result ≡ (write_note d marks.old id (record { address = at; bytes = bytes.0 })).answer)
        × (marks.new ≡ (write_note d marks.old id (record { address = at; bytes = bytes.0 })).marks) }
{
    if ready(d, marks.len()) {
        try_note(&d, marks, id, at, bytes)
    } else {
        Err(Refusal::Unsound)
    }
}

// Notes that controller `id` wrote `bytes` bytes at address `at`: the touched units of its tracked ranges become pending. Answers how many were not
// pending before, 0 for a controller that is not tracked. Refused, in this order: 1, 2, 4 suspended, 14 a written range that ends past 2^64.
pub fn write(d: Device, marks: &mut [u64], id: u16, at: u64, bytes: Bytes) -> Written
    ensures { (result ≡ (write_note d marks.old id (record { address = at; bytes = bytes.0 })).answer)
        × (marks.new ≡ (write_note d marks.old id (record { address = at; bytes = bytes.0 })).marks) }
{
    calls::written_by(try_write(d, marks, id, at, bytes))
}

// ---- a batch, on any engine: what begins it, asks for its next note and tallies one is public for the batch that is logged, which has the same loop

// Whether a batch of `total` records is refused before its first note, in this order: 1, 22 more than 1,024 records.
fn batch_refusal(d: Device, words: usize, total: usize) -> Result<(), Refusal>
    ensures { refused_by result ≡ refusal (batch_order (sound_with d words) total) }
{
    if !ready(d, words) {
        return Err(Refusal::Unsound);
    }
    if total > MOST_NOTES {
        return Err(Refusal::Records);
    }
    Ok(())
}

// A batch of `total` records before its first note. Refused as `batch_refusal` says.
pub fn begin(d: Device, words: usize, total: usize) -> Batched
    ensures { result ≡ begin_of d words total }
{
    let number = match batch_refusal(d, words, total) {
        Ok(()) => 0,
        Err(refusal) => refusal.number(),
    };
    Batched {
        number,
        done: 0,
        count: 0,
        refusal: 0,
    }
}

// Whether a batch of `total` records that has come so far has a note to do.
pub fn due(b: Batched, total: usize) -> bool
    ensures { result ≡ is_due b total }
{
    if b.number != 0 {
        return false;
    }
    if b.refusal != 0 {
        return false;
    }
    b.done < total
}

// A batch after one more note: done, it is counted; refused, it cuts the batch.
pub fn tally(b: Batched, w: Written) -> Batched
    requires { (b.done + 1 < 2 ^ 64) × (b.count + w.count < 2 ^ 64) }
    ensures { result ≡ tally_of b w }
{
    if w.number != 0 {
        Batched {
            refusal: w.number,
            ..b
        }
    } else {
        Batched {
            done: b.done + 1,
            count: b.count + w.count,
            ..b
        }
    }
}

// An engine that holds marks in cells: words, or bytes.
pub trait Notes {
    type Cell;

    ghost engine: { Engine };

    ghost area: { List Self.Cell → List ℕ };

    // For how many words of marks some cells stand.
    fn words(marks: &[Self::Cell]) -> usize
        ensures { result ≡ engine.words (area marks.now) };

    // Notes a write on a record that is known to be sound.
    fn note(d: Device, marks: &mut [Self::Cell], id: u16, at: u64, bytes: Bytes) -> Written
        requires { sound_with d (engine.words (area marks.old)) ≡ true }
        ensures { (result ≡ (write_by engine d (area marks.old) id (record { address = at; bytes = bytes.0 })).answer)
            × (area marks.new ≡ (write_by engine d (area marks.old) id (record { address = at; bytes = bytes.0 })).marks)
            × (engine.words (area marks.new) ≡ engine.words (area marks.old))
            × (result.count ≤ most_units) };

    // How many of n units whose marks stand from a place on are pending.
    // Nothing is refused: that they stand there is the caller's to keep.
    fn count(marks: &[Self::Cell], base: usize, n: usize) -> usize
        requires { (engine.words (area marks.now) ≡ mark_words) × (base + n ≤ most_units) }
        ensures { (us : List Unit) → n ≡ length us → result ≡ length (pending us (engine.marks (area marks.now) base (length us))) };
}

// The engine of these calls.
pub struct InWords;

impl Notes for InWords {
    type Cell = u64;

    ghost engine = { in_words };

    ghost area = { λ ws. ws };

    fn words(marks: &[u64]) -> usize {
        marks.len()
    }

    fn note(d: Device, marks: &mut [u64], id: u16, at: u64, bytes: Bytes) -> Written {
        note(d, marks, id, at, bytes)
    }

    fn count(marks: &[u64], base: usize, n: usize) -> usize {
        bits::count_span(marks, base, base + n)
    }
}

// A batch on any engine: the writes of a list are noted one after another, up to the first that is refused; that cuts the batch, and the batch is done. Refused, in
// this order: 1, 22 more than 1,024 records.
pub fn batch_on<E: Notes>(d: Device, marks: &mut [E::Cell], list: &[WriteRecord]) -> Batched
    ensures { (result ≡ (batch_by E.engine d (E.area marks.old) list.now).answer) × (E.area marks.new ≡ (batch_by E.engine d (E.area marks.old) list.now).marks) }
{
    let mut b = begin(d, E::words(marks), list.len());
    for w in list {
        if !due(b, list.len()) {
            return b;
        }
        b = tally(b, E::note(d, marks, w.id, w.address, w.bytes));
    }
    b
}

// Notes the writes of a list one after another, as `write` would, up to the first that is refused; that cuts the batch, and the batch is done. Refused, in
// this order: 1, 22 more than 1,024 records.
pub fn batch(d: Device, marks: &mut [u64], list: &[WriteRecord]) -> Batched
    ensures { (result ≡ (batch_change d marks.old list.now).answer) × (marks.new ≡ (batch_change d marks.old list.now).marks) }
{
    batch_on::<InWords>(d, marks, list)
}

// A batch of the first n of some records, for a caller that holds them by value. There is room for one more than a batch may have, so that a list that is too
// long is seen.
pub fn batch_of(d: Device, marks: &mut [u64], list: [WriteRecord; 1025], n: usize) -> Batched
    ensures { (result ≡ (batch_change d marks.old (take n list)).answer) × (marks.new ≡ (batch_change d marks.old (take n list)).marks) }
{
    batch(d, marks, &list[..n.min(1025)])
}
