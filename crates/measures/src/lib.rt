// The two measures, units and bytes (document 01, "Settings and sizes"), and what turns one into the other: shifts by the granularity, here and nowhere
// else.
#![tactic(auto)]

ghost use Rattle.std.specs.Prelude.{◌≡◌, ◌%◌, ◌^◌, ◌<◌, ◌≤◌, eqb};
ghost use Rattle.rules.specs.Settings.{unit_size, bytes_of, whole_units};

use rules::{Bytes, Range, Units};

// The bytes of a write that has some, from the one at `at` to the one at `last`.
#[derive(Clone, Copy)]
pub struct WrittenRange {
    pub at: u64,
    pub last: u64,
    pub ghost ordered: { at ≤ last },
}

// A length in units, in bytes: the one function of the granularity that converts.
pub fn bytes_of(g: u8, u: Units) -> Bytes
    requires { (g ≤ 20) × (bytes_of g u.0 < 2 ^ 64) }
    ensures { result.0 ≡ bytes_of g u.0 }
{
    Bytes(u.0 << (12 + g))
}

// The whole units in a length in bytes, its counterpart.
pub fn whole_units(g: u8, b: Bytes) -> Units
    requires { g ≤ 20 }
    ensures { result.0 ≡ whole_units g b.0 }
{
    Units(b.0 >> (12 + g))
}

// Whether an address is a multiple of the unit: its whole units are all of it.
pub fn aligned(g: u8, at: u64) -> bool
    requires { g ≤ 20 }
    ensures { result ≡ eqb (at % unit_size g) 0 }
{
    let u = whole_units(g, Bytes(at));
    let b = bytes_of(g, u);
    b.0 == at
}

// A range's length, as its 32-bit field has it.
pub fn length_of(r: Range) -> Units
    ensures { (result.0 ≡ r.length) × (result.0 < 2 ^ 32) }
{
    Units(r.length as u64)
}
