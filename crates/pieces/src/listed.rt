// Listed ranges as the crates above hand them on.

ghost use Rattle.std.specs.Prelude.{◌≡◌, true, ◌≤◌, take};
ghost use Rattle.rules.specs.Ranges.{rows_ok};

use rules::Range;

// The first `count` of some ranges, at a granularity: each breaks no rule of a row.
#[derive(Clone, Copy)]
pub struct Rows {
    pub granularity: u8,
    pub count: usize,
    pub ranges: [Range; 16],
    pub ghost small: { granularity ≤ 20 },
    pub ghost few: { count ≤ 16 },
    pub ghost ok: { rows_ok granularity (take count ranges) ≡ true },
}
