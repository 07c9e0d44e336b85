// The report's one way over a controller's marks: the next pending unit from a unit on, the run that begins there, and the loop that lists runs and makes them clear.
// Units are numbered from the controller's first, over all its ranges, piece by piece; its marks stand from bit `base` on.
#![tactic(auto)]

ghost use Rattle.std.specs.Prelude.{◌≡◌, true, false, ◌+◌, ◌-◌, ◌*◌, ◌≤◌, length, take};
ghost use Rattle.bits.specs.Flat.{flat};
ghost use Rattle.bits.specs.Next.{next};
ghost use Rattle.bits.specs.Share.{Holds, get_share};
ghost use Rattle.rules.specs.Units.{units};
ghost use Rattle.scan.specs.Scan.{Stands, NextIs, Begins, piece_end, run_of, Lists};

use pieces::{Piece, Rows, Span};
use report_data::Listed;
use rules::{Range, Units};

// A pending unit: the piece of a range that has it, the piece's own first unit, and the unit itself.
#[derive(Clone, Copy)]
pub struct Found {
    pub piece: Piece,
    pub at: usize,
    pub from: usize,
}

// The next pending unit from unit `pos` on, which is, or comes next after, unit `unit` of a row's range; where there is none, the number of all units.
// No mark behind its word is read.
fn next_pending(
    marks: &[u64],
    base: usize,
    rows: Rows,
    row: usize,
    unit: Units,
    pos: usize,
) -> Result<Found, usize>
    requires { Holds marks.now base (length (units rows.granularity (take rows.count rows.ranges))) × Stands rows.granularity (take rows.count rows.ranges) row unit.0 pos }
    ensures { NextIs rows.granularity (take rows.count rows.ranges) (get_share (flat marks.now) base (length (units rows.granularity (take rows.count rows.ranges)))) pos result }
{
    let mut i = row;
    let mut u = unit;
    let mut at = pos;
    while let Some(piece) = pieces::next_piece(rows, i, u) {
        let end = at + piece.range.length as usize;
        let from = bits::next_set(marks, base + at, base + end) - base;
        if from < end {
            return Ok(Found { piece, at, from });
        }
        i = piece.row;
        u = piece.next;
        at = end;
    }
    Err(at)
}

// A run: its row, the unit of the row's range just past it, itself as a range, its own first unit and the unit just past it.
#[derive(Clone, Copy)]
pub struct Run {
    pub row: usize,
    pub next: Units,
    pub range: Range,
    pub from: usize,
    pub to: usize,
}

// The run that begins at a pending unit: it ends with its piece, or before the next clear unit.
fn run_from(marks: &[u64], base: usize, g: u8, f: Found) -> Run
    requires { (g ≤ 20) × Begins (flat marks.now) base g f }
    ensures { result ≡ run_of g f (next false (flat marks.now) (base + f.from) (base + piece_end f) - base) }
{
    let piece = f.piece;
    let end = f.at + piece.range.length as usize;
    let to = bits::next_clear(marks, base + f.from, base + end) - base;
    let a = Units((f.from - f.at) as u64);
    let e = Units((to - f.at) as u64);
    let range = pieces::part(g, piece.range, Span { from: a, to: e });
    Run {
        row: piece.row,
        next: Units(piece.next.0 - (end - to) as u64),
        range,
        from: f.from,
        to,
    }
}

// Lists the first runs, as many as there is room for, one descriptor after another from byte 16 of the buffer on, and makes them clear.
// The groups examined are those up to and including the one where the run that stays begins, or, if there is none, all.
pub fn list_runs(
    marks: &mut [u64],
    base: usize,
    rows: Rows,
    buffer: &mut [u8],
    room: usize,
) -> Listed
    requires { Holds marks.old base (length (units rows.granularity (take rows.count rows.ranges))) × (16 + 16 * room ≤ length buffer.old) }
    ensures { Lists rows.granularity (take rows.count rows.ranges) (flat marks.old) base buffer.old room result.runs result.more result.groups (flat marks.new) buffer.new }
{
    let mut runs: usize = 0;
    let mut row: usize = 0;
    let mut unit = Units(0);
    let mut pos: usize = 0;
    loop {
        let found = match next_pending(marks, base, rows, row, unit, pos) {
            Ok(found) => found,
            Err(total) => {
                return Listed {
                    runs,
                    more: false,
                    groups: total.div_ceil(64),
                };
            }
        };
        if runs == room {
            return Listed {
                runs,
                more: true,
                groups: found.from / 64 + 1,
            };
        }
        let run = run_from(marks, base, rows.granularity, found);
        row = run.row;
        unit = run.next;
        pos = run.to;
        bits::clear_span(marks, base + run.from, base + pos);
        report_data::put_descriptor(buffer, 16 + 16 * runs, run.range.start, run.range.length);
        runs += 1;
    }
}
