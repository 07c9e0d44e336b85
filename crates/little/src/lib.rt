// Little-endian numbers, read from and written to lent bytes: a u8, u16, u32 or u64, or one of any number of bytes.
// Each function's index is its caller's to keep: the bytes asked for lie in the slice. A writer leaves every other byte as it was.
#![tactic(auto)]

ghost use Rattle.std.specs.Prelude.{◌≡◌, ℕ, ◌+◌, ◌^◌, ◌<◌, ◌≤◌, length};
ghost use Rattle.std.proofs.Common.{rules};
ghost use Rattle.little.specs.Little.{number_at, number_bytes, put};

// An unsigned number that is stored in so many bytes.
pub trait Number: Copy {
    const BYTES: usize;

    ghost BYTES: { ℕ };

    ghost value: { Self → ℕ };

    // The number that `v` is, which has no more bytes.
    fn of(v: u64) -> Self
        requires { v < 256 ^ BYTES }
        ensures { value result ≡ v };

    fn wide(self) -> u64
        ensures { result ≡ value self };

    ghost few: { BYTES ≤ 8 };
}

impl Number for u8 {
    const BYTES: usize = 1;

    ghost BYTES = { 1 };

    ghost value = { λ v. v };

    ghost few = { Prim.search rules };

    fn of(v: u64) -> u8 {
        v as u8
    }

    fn wide(self) -> u64 {
        self as u64
    }
}

impl Number for u16 {
    const BYTES: usize = 2;

    ghost BYTES = { 2 };

    ghost value = { λ v. v };

    ghost few = { Prim.search rules };

    fn of(v: u64) -> u16 {
        v as u16
    }

    fn wide(self) -> u64 {
        self as u64
    }
}

impl Number for u32 {
    const BYTES: usize = 4;

    ghost BYTES = { 4 };

    ghost value = { λ v. v };

    ghost few = { Prim.search rules };

    fn of(v: u64) -> u32 {
        v as u32
    }

    fn wide(self) -> u64 {
        self as u64
    }
}

impl Number for u64 {
    const BYTES: usize = 8;

    ghost BYTES = { 8 };

    ghost value = { λ v. v };

    ghost few = { Prim.search rules };

    fn of(v: u64) -> u64 {
        v
    }

    fn wide(self) -> u64 {
        self
    }
}

// The number in the `width` bytes from index `at` on, at most 8.
fn read_number(s: &[u8], at: usize, width: usize) -> u64
    requires { (at + width ≤ length s.now) × (width ≤ 8) }
    ensures { result ≡ number_at s.now at width }
{
    let mut v: u64 = 0;
    for i in (0..width).rev() {
        v = 256 * v + (s[at + i] as u64);
    }
    v
}

// The number in its bytes from index `at` on.
pub fn read<N: Number>(s: &[u8], at: usize) -> N
    requires { at + N.BYTES ≤ length s.now }
    ensures { N.value result ≡ number_at s.now at N.BYTES }
{
    N::of(read_number(s, at, N::BYTES))
}

// Stores the lowest `width` bytes of `v` from index `at` on, lowest first. Past the eighth byte they are zeros.
pub fn put_number(buf: &mut [u8], at: usize, width: usize, v: u64)
    requires { at + width ≤ length buf.old }
    ensures { buf.new ≡ put buf.old at (number_bytes width v) }
{
    let mut rest = v;
    for i in 0..width {
        buf[at + i] = (rest % 256) as u8;
        rest /= 256;
    }
}

// Stores `v` in its bytes from index `at` on.
pub fn write<N: Number>(buf: &mut [u8], at: usize, v: N)
    requires { at + N.BYTES ≤ length buf.old }
    ensures { buf.new ≡ put buf.old at (number_bytes N.BYTES (N.value v)) }
{
    put_number(buf, at, N::BYTES, v.wide());
}
