// What a log books of an answer (document 02, W13): a call that is logged does what the call itself does and answers the same, and hands back the log with the
// units that the answer tells in its controller's account. A refusal books nothing. The log of a call on either engine is said in specs/Booking.antt.
#![tactic(auto)]

ghost use Rattle.std.specs.Prelude.{◌≡◌, cond, ◌+◌, ◌*◌, ◌^◌, ◌<◌, ◌≤◌, eqb, length};
ghost use Rattle.rules.specs.Settings.{place_of};
ghost use Rattle.record.specs.Record.{where_is};
ghost use Rattle.booking.specs.Booking.{booked_by, begun_by, units_listed, reading_at};

use calls::Received;
use log_numbers::{Log, Totals};
use rules::{Device, Settings};

// A call's answer, and the log after it.
#[derive(Clone, Copy)]
pub struct Logged<A> {
    pub answer: A,
    pub log: Log,
}

// A controller's totals as they are read: a refusal's number, or 0 and the totals. Refused, they are zeros.
// No Result, as the theorems of crates/demands/specs/MigrationLog.antt speak of these fields.
#[derive(Clone, Copy)]
pub struct Reading {
    pub number: u8,
    pub totals: Option<Totals>,
}

// The log after a fresh that was answered with a number: that of a new device, or refused the log that there was.
#[tactic(auto, unfolding(crate::specs::Booking::begun_by))]
pub fn begun(l: Log, number: u8) -> Log
    ensures { result ≡ begun_by l number }
{
    if number == 0 { log_numbers::empty() } else { l }
}

// The log after a call to a controller that was answered with a number and tells so many units marked, reported and dropped.
#[tactic(auto, unfolding(crate::specs::Booking::booked_by))]
pub fn book(
    l: Log,
    s: Settings,
    id: u16,
    number: u8,
    marked: usize,
    reported: usize,
    dropped: usize,
) -> Log
    ensures { result ≡ booked_by l (place_of s id) number marked reported dropped }
{
    if number != 0 {
        return l;
    }
    let Some(i) = settings::find(s, id) else {
        return l;
    };
    log_numbers::booked(l, i, marked as u64, reported as u64, dropped as u64)
}

// How many units the first n descriptors of a report have together.
// Nothing is refused: that they are there, and that their units are not 2^64 or more, is the caller's to keep.
fn units_in(report: &[u8], n: usize) -> usize
    requires { (16 + 16 * n ≤ length report.now) × (units_listed report.now n < 2 ^ 64) }
    ensures { result ≡ units_listed report.now n }
{
    let mut units: usize = 0;
    for i in 0..n {
        units += little::read::<u32>(report, 24 + 16 * i) as usize;
    }
    units
}

// How many units a receive's answer lists in its report: none where it was refused.
// Nothing is refused: what `units_in` asks of a done one is the caller's to keep.
pub fn units_listed(r: Received, report: &[u8]) -> usize
    requires { r.number ≡ 0 → (16 + 16 * r.runs ≤ length report.now) × (units_listed report.now r.runs < 2 ^ 64) }
    ensures { result ≡ cond (eqb r.number 0) (units_listed report.now r.runs) 0 }
{
    if r.number == 0 {
        units_in(report, r.runs)
    } else {
        0
    }
}

// A controller's totals in the log of a device, for a caller that has so many words of marks. Refused, in this order: 1, 2.
pub fn totals_of(d: Device, words: usize, l: Log, id: u16) -> Reading
    ensures { result ≡ reading_at l (where_is d words id) }
{
    match record::locate(d, words, id) {
        Ok(i) => Reading {
            number: 0,
            totals: l.accounts[i].totals,
        },
        Err(refusal) => Reading {
            number: refusal.number(),
            totals: Some(Totals {
                marked: 0,
                reported: 0,
                dropped: 0,
            }),
        },
    }
}
