// The marking of a noted write: in each piece of a range the touched units are a span. Ranges that ascend and do not overlap, as nearly all do, are
// pieces themselves.
#![tactic(auto)]

ghost use Rattle.std.specs.Prelude.{◌≡◌, true, [], ◌∷◌, ◌+◌, ◌^◌, ◌<◌, ◌≤◌, length, take};
ghost use Rattle.bits.specs.Flat.{flat};
ghost use Rattle.bits.specs.Share.{Holds, get_share, put_share};
ghost use Rattle.rules.specs.Settings.{unit_size};
ghost use Rattle.rules.specs.Units.{units, mark, newly};
ghost use Rattle.pieces.specs.Pieces.{units_left};
ghost use Rattle.marking.specs.Note.{write_to, Touched, units_of, mark_in, newly_in};

use measures::WrittenRange;
use pieces::{Rows, Span};
use rules::{Bytes, Range, Units};

// The units of a range that a written range touches.
fn touched(g: u8, r: Range, written: WrittenRange) -> Span
    requires { g ≤ 20 }
    ensures { Touched (write_to written.at written.last) (unit_size g) r result.from.0 result.to.0 }
{
    if written.last < r.start {
        return Span {
            from: Units(0),
            to: Units(0),
        };
    }
    let whole = measures::whole_units(g, Bytes(written.last - r.start));
    let most = measures::length_of(r);
    let to = Units(whole.0.saturating_add(1).min(most.0));
    if written.at <= r.start {
        return Span { from: Units(0), to };
    }
    let from = measures::whole_units(g, Bytes(written.at - r.start));
    if to.0 <= from.0 {
        return Span {
            from: Units(0),
            to: Units(0),
        };
    }
    Span { from, to }
}

// Marks the units of a range that a written range touches, and counts those that were not pending before. Its marks stand from bit `from` on.
fn mark_range(marks: &mut [u64], from: usize, g: u8, r: Range, written: WrittenRange) -> usize
    requires { (g ≤ 20) × Holds marks.old from r.length }
    ensures { (result ≡ newly_in (write_to written.at written.last) (units_of (unit_size g) r) (flat marks.old) from)
        × (flat marks.new ≡ mark_in (write_to written.at written.last) (units_of (unit_size g) r) (flat marks.old) from) }
{
    let t = touched(g, r, written);
    let a = from + t.from.0 as usize;
    let e = from + t.to.0 as usize;
    bits::mark_span(marks, a, e)
}

// The same of a range that is listed alone, whatever its bytes: no other covers its units.
pub fn mark_one(marks: &mut [u64], base: usize, g: u8, r: Range, at: u64, last: u64) -> usize
    requires { (g ≤ 20) × (at ≤ last) × Holds marks.old base (length (units g (r ∷ []))) }
    ensures { (result ≡ newly_in (write_to at last) (units g (r ∷ [])) (flat marks.old) base)
        × (flat marks.new ≡ mark_in (write_to at last) (units g (r ∷ [])) (flat marks.old) base) }
{
    mark_range(marks, base, g, r, WrittenRange { at, last })
}

// The same as `mark_range` for listed ranges from a row on, piece by piece, as they may overlap. The marks of that row stand from bit `from` on.
fn mark_pieces(
    marks: &mut [u64],
    from: usize,
    rows: Rows,
    row: usize,
    written: WrittenRange,
) -> usize
    requires { Holds marks.old from (length (units_left (unit_size rows.granularity) (take rows.count rows.ranges) row 0)) }
    ensures { (result ≡ newly_in (write_to written.at written.last) (units_left (unit_size rows.granularity) (take rows.count rows.ranges) row 0) (flat marks.old) from)
        × (flat marks.new ≡ mark_in (write_to written.at written.last) (units_left (unit_size rows.granularity) (take rows.count rows.ranges) row 0) (flat marks.old) from) }
{
    let mut sum: usize = 0;
    let mut bit = from;
    let mut i = row;
    let mut unit = Units(0);
    while let Some(piece) = pieces::next_piece(rows, i, unit) {
        sum += mark_range(marks, bit, rows.granularity, piece.range, written);
        bit += piece.range.length as usize;
        i = piece.row;
        unit = piece.next;
    }
    sum
}

// Where a range ends that begins with unit `first`. Units are counted from address 0.
fn end_of(first: Units, r: Range) -> Units
    requires { first.0 + r.length < 2 ^ 64 }
    ensures { result.0 ≡ first.0 + r.length }
{
    let length = measures::length_of(r);
    Units(first.0 + length.0)
}

// Marks every unit of listed ranges that a written range touches, and counts those that were not pending before. The ranges' marks
// stand from bit `base` on. A row that begins at or past `end`, where all rows before it have ended, is one piece; from the first that does not on, the rows
// are cut into pieces.
pub fn mark_ranges(marks: &mut [u64], base: usize, rows: Rows, written: WrittenRange) -> usize
    requires { Holds marks.old base (length (units rows.granularity (take rows.count rows.ranges))) }
    ensures { (result ≡ newly (write_to written.at written.last) (units rows.granularity (take rows.count rows.ranges)) (get_share (flat marks.old) base (length (units rows.granularity (take rows.count rows.ranges)))))
        × (flat marks.new ≡ put_share (flat marks.old) base (mark (write_to written.at written.last) (units rows.granularity (take rows.count rows.ranges)) (get_share (flat marks.old) base (length (units rows.granularity (take rows.count rows.ranges)))))) }
{
    let mut count: usize = 0;
    let mut from = base;
    let mut end = Units(0);
    for row in 0..rows.count {
        let r = rows.ranges[row];
        let first = measures::whole_units(rows.granularity, Bytes(r.start));
        if first.0 < end.0 {
            return count + mark_pieces(marks, from, rows, row, written);
        }
        count += mark_range(marks, from, rows.granularity, r, written);
        from += r.length as usize;
        end = end_of(first, r);
    }
    count
}
