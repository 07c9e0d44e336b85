// The units of a list of ranges, piece by piece (document 02, W2): ranges may overlap, and a unit belongs to the earliest listed range that covers it. A
// piece is a longest stretch of one range's units that no earlier range covers; it is a range itself, with a row.
// Units of a range are counted from its first.
#![tactic(auto)]

ghost use Rattle.std.specs.Prelude.{◌≡◌, true, ◌&&◌, ◌+◌, ◌-◌, ◌^◌, ◌≤◌, ◌<◌, min, leb, ltb, take};
ghost use Rattle.rules.specs.Settings.{unit_size, bytes_of};
ghost use Rattle.rules.specs.Units.{end_of};
ghost use Rattle.rules.specs.Ranges.{row_ok};
ghost use Rattle.pieces.specs.Pieces.{row_of, Overlaps, cut_before, StretchIs, NextIs};

pub use listed::Rows;
use rules::{Bytes, Range, Units};

mod listed;

// Units of a range: those from `from` below `to`.
#[derive(Clone, Copy)]
pub struct Span {
    pub from: Units,
    pub to: Units,
}

// Units of a range from some unit on, up to `to`: all of them belong to the range, or none.
#[derive(Clone, Copy)]
pub struct Stretch {
    pub to: Units,
    pub own: bool,
}

// A piece: its row, the unit of the row's range just past it, and itself as a range.
#[derive(Clone, Copy)]
pub struct Piece {
    pub row: usize,
    pub next: Units,
    pub range: Range,
}

// How much a is above b, or 0.
fn above(a: Units, b: Units) -> Units
    ensures { result.0 ≡ a.0 - b.0 }
{
    Units(a.0.saturating_sub(b.0))
}

// The less of two lengths.
fn least(a: Units, b: Units) -> Units
    ensures { result.0 ≡ min a.0 b.0 }
{
    Units(a.0.min(b.0))
}

// Which units of a range another range covers. Both begin at a multiple of the unit, so units are counted from address 0.
fn overlap(g: u8, r: Range, q: Range) -> Span
    requires { (g ≤ 20) × (row_ok g r ≡ true) × (row_ok g q ≡ true) }
    ensures { Overlaps (unit_size g) r q result.from.0 result.to.0 }
{
    let a = measures::whole_units(g, Bytes(r.start));
    let b = measures::whole_units(g, Bytes(q.start));
    let length = measures::length_of(q);
    let from = above(b, a);
    let to = above(Units(b.0 + length.0), a);
    Span { from, to }
}

// Whether a unit is among some.
fn among(s: Span, at: Units) -> bool
    ensures { result ≡ (leb s.from.0 at.0 && ltb at.0 s.to.0) }
{
    s.from.0 <= at.0 && at.0 < s.to.0
}

// Where units from `at` to `to` are cut by some others that begin further on: at the first of these, if that is before `to`.
fn cut_before(s: Span, at: Units, to: Units) -> Units
    ensures { result.0 ≡ cut_before s.from.0 at.0 to.0 }
{
    if s.from.0 <= at.0 {
        to
    } else {
        least(s.from, to)
    }
}

// The stretch of a row's range from its unit `at` on.
fn stretch_from(rows: Rows, row: usize, at: Units) -> Stretch
    requires { (row < rows.count) × (at.0 < (row_of rows.ranges row).length) }
    ensures { StretchIs (unit_size rows.granularity) (take row rows.ranges) (row_of rows.ranges row) at.0 result.to.0 result.own }
{
    let r = rows.ranges[row];
    let mut to = measures::length_of(r);
    for i in 0..row {
        let s = overlap(rows.granularity, r, rows.ranges[i]);
        if among(s, at) {
            let end = least(s.to, to);
            return Stretch {
                to: end,
                own: false,
            };
        }
        to = cut_before(s, at, to);
    }
    Stretch { to, own: true }
}

// Some units of a range, as a range.
pub fn part(g: u8, r: Range, s: Span) -> Range
    requires { (g ≤ 20) × (end_of (unit_size g) r ≤ 2 ^ 64) × (s.from.0 < s.to.0) × (s.to.0 ≤ r.length) }
    ensures { result ≡ record { start = r.start + bytes_of g s.from.0; length = s.to.0 - s.from.0 } }
{
    let before = measures::bytes_of(g, s.from);
    let start = r.start + before.0;
    let length = (s.to.0 - s.from.0) as u32;
    Range { start, length }
}

// The next piece of listed ranges, from unit `at` of a row on. A loop by hand, as it goes on within a row as often as an earlier range cuts it: no range has such steps.
pub fn next_piece(rows: Rows, row: usize, at: Units) -> Option<Piece>
    requires { at.0 ≤ (row_of (take rows.count rows.ranges) row).length }
    ensures { NextIs (unit_size rows.granularity) (take rows.count rows.ranges) row at.0 result }
{
    let mut i = row;
    let mut j = at;
    while i < rows.count {
        let r = rows.ranges[i];
        let length = measures::length_of(r);
        if j.0 < length.0 {
            let s = stretch_from(rows, i, j);
            let to = s.to;
            if s.own {
                let range = part(rows.granularity, r, Span { from: j, to });
                return Some(Piece {
                    row: i,
                    next: to,
                    range,
                });
            }
            j = to;
        } else {
            i += 1;
            j = Units(0);
        }
    }
    None
}
