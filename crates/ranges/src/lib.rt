// Checks of listed ranges: refusals 18 to 21, which name a row, and 10; and how many units they have.
#![tactic(auto)]

ghost use Rattle.std.specs.Prelude.{◌≡◌, true, false, ◌&&◌, ◌*◌, ◌^◌, ◌≤◌, length, take, [], ◌∷◌};
ghost use Rattle.rules.specs.Refusals.{refusal, refusal_at, refused_by, refused_at};
ghost use Rattle.rules.specs.Units.{units};
ghost use Rattle.rules.specs.Ranges.{row_tests, row_ok, rows_tests, is_power, powers_ok, list_tests};
ghost use Rattle.ranges.specs.Kept.{kept_of, most_in};

pub use pieces::Rows;
use rules::{MOST_UNITS, Range, Refusal, RowRefusal, Settings, Units};

// The first rule of a row that a range breaks: 19 it has no units, 20 its start is no multiple of the unit, 21 it ends past 2^64. Its last byte is
// held to the last address, so that no sum can wrap.
fn row_refusal(g: u8, r: Range) -> Result<(), Refusal>
    requires { g ≤ 20 }
    ensures { refused_by result ≡ refusal (row_tests g 0 r) }
{
    let empty = r.length < 1;
    let aligned = measures::aligned(g, r.start);
    if empty {
        return Err(Refusal::NoUnits);
    }
    if !aligned {
        return Err(Refusal::Unaligned);
    }
    let b = measures::bytes_of(g, measures::length_of(r));
    if b.0 - 1 > u64::MAX - r.start {
        return Err(Refusal::RangeEnd);
    }
    Ok(())
}

// Whether a range breaks no rule of a row.
pub fn range_ok(g: u8, r: Range) -> bool
    requires { g ≤ 20 }
    ensures { result ≡ row_ok g r }
{
    row_refusal(g, r).is_ok()
}

// The earliest of the first n ranges that breaks a rule of a row: the rule, and the row.
fn rows_refusal(g: u8, n: usize, ranges: [Range; 16]) -> Result<(), RowRefusal>
    requires { (g ≤ 20) × (n ≤ 16) }
    ensures { refused_at result ≡ refusal_at (rows_tests g 0 (take n ranges)) }
{
    for i in 0..n {
        if let Err(refusal) = row_refusal(g, ranges[i]) {
            let row = i as u8;
            return Err(RowRefusal { refusal, row });
        }
    }
    Ok(())
}

// Whether a range's length is a power of two: its lowest set bit is all of it.
fn is_power(r: Range) -> bool
    ensures { result ≡ is_power r.length }
{
    let n = r.length;
    if n == 0 {
        return false;
    }
    n == 1u32 << u32::trailing_zeros(n)
}

// Whether the first n ranges pass 10: the rule is off, or each length is a power of two.
fn powers_ok(s: Settings, n: usize, ranges: [Range; 16]) -> bool
    requires { n ≤ 16 }
    ensures { result ≡ powers_ok s (take n ranges) }
{
    if !s.powers {
        return true;
    }
    for i in 0..n {
        if !is_power(ranges[i]) {
            return false;
        }
    }
    true
}

// How many different units listed ranges have, piece by piece.
pub fn units_in(rows: Rows) -> Units
    ensures { (result.0 ≡ length (units rows.granularity (take rows.count rows.ranges))) × (result.0 ≤ 2 ^ 56) }
{
    let mut total: u64 = 0;
    let mut row: usize = 0;
    let mut unit = Units(0);
    while let Some(piece) = pieces::next_piece(rows, row, unit) {
        let u = measures::length_of(piece.range);
        total += u.0;
        row = piece.row;
        unit = piece.next;
    }
    Units(total)
}

// Why n listed ranges are refused, with the row: the first of 18 to 21 and 10 that they break. Ranges past the first n are not looked at.
pub fn list_refusal(s: Settings, g: u8, n: u8, ranges: [Range; 16]) -> Result<(), RowRefusal>
    requires { g ≤ 20 }
    ensures { refused_at result ≡ refusal_at (list_tests s g n (take n ranges)) }
{
    if n < 1 || n > 16 {
        return Err(RowRefusal::from(Refusal::Ranges));
    }
    let m = n as usize;
    rows_refusal(g, m, ranges)?;
    if !powers_ok(s, m, ranges) {
        return Err(RowRefusal::from(Refusal::Power));
    }
    Ok(())
}

// Whether a range breaks no rule of a row and passes 10.
fn row_ok(s: Settings, g: u8, r: Range) -> bool
    requires { g ≤ 20 }
    ensures { result ≡ (row_ok g r && powers_ok s (r ∷ [])) }
{
    range_ok(g, r) && (!s.powers || is_power(r))
}

// How many different units n listed ranges have at most, if they break no rule, 18 to 21 and 10: their lengths together, or where these pass the pool, as many as
// there are. Every call asks it of every controller, so it is one pass where the lengths will do.
pub fn list_kept(s: Settings, g: u8, n: u8, ranges: [Range; 16]) -> Option<Units>
    requires { g ≤ 20 }
    ensures { (result ≡ kept_of s g n (take n ranges)) × (most_in result ≤ 16 * 4294967295) }
{
    let m = n as usize;
    if m < 1 || m > 16 {
        return None;
    }
    let mut total: u64 = 0;
    for i in 0..m {
        let r = ranges[i];
        if !row_ok(s, g, r) {
            return None;
        }
        let u = measures::length_of(r);
        total += u.0;
    }
    if total <= MOST_UNITS {
        return Some(Units(total));
    }
    let rows = Rows {
        granularity: g,
        count: m,
        ranges,
    };
    Some(units_in(rows))
}
