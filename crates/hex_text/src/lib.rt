// Bytes in hex, as a shelf listing has them: two lower-case digits each, and `-` where there are none. Read from a field, and printed.
#![tactic(auto)]

ghost use Rattle.std.specs.Prelude.{◌≤◌, ◌<◌, length, IfSome};

use std::fmt;

// ---- read

// What a digit stands for, lower-case alone.
fn digit(b: u8) -> Option<u8>
    ensures { IfSome result (λ d. d < 16) }
{
    match b {
        b'0'..=b'9' => Some(b - b'0'),
        b'a'..=b'f' => Some(b - b'a' + 10),
        _ => None,
    }
}

// Reads a field's bytes into `data`, if there is room for them, and answers which they are: two digits each, and `-` where there is none.
pub fn read<'a>(field: &[u8], data: &'a mut [u8]) -> Option<&'a [u8]>
    ensures { IfSome result (λ bytes. length bytes.now ≤ length «data».old) }
{
    if field == b"-".as_slice() {
        return Some(&[]);
    }
    if field.is_empty() || field.len() % 2 != 0 {
        return None;
    }
    let data = data.get_mut(..field.len() / 2)?;
    for (byte, pair) in data.iter_mut().zip(field.chunks_exact(2)) {
        *byte = 16 * digit(pair[0])? + digit(pair[1])?;
    }
    Some(data)
}

// ---- print

// Some bytes, to be printed in hex.
#[derive(Clone, Copy)]
pub struct Hex<'a>(pub &'a [u8]);

const DIGITS: [u8; 16] = *b"0123456789abcdef";

impl fmt::Display for Hex<'_> {
    // The digits of some bytes go to the formatter at once: for each byte by itself it takes several times as long.
    fn fmt<W: fmt::Write>(&self, f: &mut fmt::Formatter<W>) -> fmt::Result {
        for some in self.0.chunks(64) {
            let mut digits = [0u8; 128];
            for (pair, b) in digits.chunks_exact_mut(2).zip(some) {
                pair[0] = DIGITS[usize::from(b / 16)];
                pair[1] = DIGITS[usize::from(b % 16)];
            }
            let Ok(text) = str::from_utf8(&digits[..2 * some.len().min(64)]) else {
                return Err(fmt::Error);
            };
            f.write_str(text)?;
        }
        Ok(())
    }
}
