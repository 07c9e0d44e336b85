// Bytes on their way to standard output: they wait in a buffer, and are written when it is full or when a program flushes it. The buffer has 65,536 bytes.
#![tactic(auto)]

ghost use Rattle.std.specs.Prelude.{◌≤◌};

use std::io::{Stdout, Write};
use std::{io, mem};

// The bytes of a buffer.
const SIZE: usize = 65536;

// What waits stands at the front of the bytes, and is written to standard output.
#[derive(Drop)]
pub struct Buffer {
    bytes: [u8; SIZE],
    used: usize,
    to: Stdout,
    ghost within: { used ≤ 65536 },
}

impl Buffer {
    // A buffer on its way to this output.
    pub fn new(to: Stdout) -> Buffer {
        Buffer {
            bytes: [0; SIZE],
            used: 0,
            to,
        }
    }
}

impl Write for Buffer {
    // Puts as many of these bytes behind those that wait as there is room for, and writes all that wait where they fill the buffer.
    fn write(&mut self, text: &[u8]) -> io::Result<usize> {
        let free = &mut self.bytes[self.used..];
        let n = text.len().min(free.len());
        free[..n].copy_from_slice(&text[..n]);
        self.used += n;
        if self.used == SIZE {
            self.flush()?;
        }
        Ok(n)
    }

    // Writes out what waits. Nothing waits after that, also where writing fails.
    fn flush(&mut self) -> io::Result<()> {
        let used = mem::take(&mut self.used);
        self.to.write_all(&self.bytes[..used])
    }
}
