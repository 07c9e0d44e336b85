// Input on its way into lines, and answered line by line. What a line says is nothing to this.
#![tactic(auto)]

ghost use Rattle.std.specs.Prelude.{◌≤◌, ◌≡◌, ◌+◌, [], length, IfOk, IfSome};

use std::io;
use std::io::{Read, Write};

// The bytes that are read at once, at most.
const SIZE: usize = 65536;

// The input that was read and is left to take in, `bytes[at..end]`, and where more comes from, unless it is over.
#[derive(Drop)]
struct Input<'a, R: Read> {
    from: &'a mut R,
    bytes: [u8; SIZE],
    at: usize,
    end: usize,
    over: bool,
    ghost left: { at ≤ end },
    ghost within: { end ≤ 65536 },
}

impl<'a, R: Read> Input<'a, R> {
    // What this reader gives, of which nothing is read yet.
    fn new(from: &'a mut R) -> Input<'a, R>
        ensures { (result.at ≡ 0) × (result.end ≡ 0) }
    {
        Input {
            from,
            bytes: [0; SIZE],
            at: 0,
            end: 0,
            over: false,
        }
    }

    // What is left to take in.
    fn left(&self) -> &[u8]
        ensures { self.now.at + length result.now ≡ self.now.end }
    {
        &self.bytes[self.at..self.end]
    }

    // Takes in some of it.
    fn skip(&mut self, n: usize)
        requires { self.old.at + n ≤ self.old.end }
        ensures at { self.new.at ≡ self.old.at + n }
        ensures end { self.new.end ≡ self.old.end }
    {
        self.at += n;
    }

    // Reads once in place of what is left, and answers whether more came. The input is over where it ends, and where reading fails.
    fn read(&mut self) -> bool {
        if !self.over {
            self.at = 0;
            self.end = 0;
            self.end = self.from.read(&mut self.bytes).unwrap_or(0);
            self.over = self.end == 0;
        }
        !self.over
    }
}

// What answers lines.
pub trait Answers {
    // Answers a line, and writes what it answers.
    fn answer<W: Write>(&mut self, line: &[u8], out: &mut W) -> io::Result<()>;
}

// Lines of at most `LINE` bytes: a longer one is cut there.
#[derive(Drop)]
pub struct Lines<'a, R: Read, const LINE: usize> {
    input: Input<'a, R>,
    line: [u8; LINE],
}

// Puts bytes behind the `used` bytes of a line that are there, as many as there is room for, and answers how many are there now.
fn append(line: &mut [u8], used: usize, part: &[u8]) -> usize
    requires { used ≤ length line.old }
    ensures { result ≤ length line.old }
{
    let room = &mut line[used..];
    let n = part.len().min(room.len());
    room[..n].copy_from_slice(&part[..n]);
    used + n
}

impl<'a, R: Read, const LINE: usize> Lines<'a, R, LINE> {
    ghost use Rattle.lines.specs.Unread.{unread};

    // The lines that this reader gives, of which nothing is read yet.
    pub fn new(from: &'a mut R) -> Lines<'a, R, LINE>
        ensures { unread result ≡ [] }
    {
        Lines {
            input: Input::new(from),
            line: [0; LINE],
        }
    }

    // The next line without its line feed, or none where the input is over: a rest that has no line feed is the last line. What was written is flushed before more
    // input is waited for.
    pub fn next_line<W: Write>(&mut self, out: &mut W) -> io::Result<Option<&[u8]>>
        ensures { IfOk result (λ some. IfSome some (λ line. length line.now ≤ LINE)) }
    {
        let line = self.line.as_mut_slice();
        let mut used = 0;
        for _ in 0..u64::MAX {
            if self.input.left().is_empty() {
                out.flush()?;
                if !self.input.read() {
                    return Ok(if used == 0 { None } else { Some(&line[..used]) });
                }
            }
            let left = self.input.left();
            match left.iter().position(|b| *b == b'\n') {
                Some(n) => {
                    used = append(line, used, &left[..n]);
                    self.input.skip(n + 1);
                    return Ok(Some(&line[..used]));
                }
                None => {
                    used = append(line, used, left);
                    let n = left.len();
                    self.input.skip(n);
                }
            }
        }
        Ok(None)
    }

    // Has each line answered, to the end of the input or until writing fails.
    pub fn answer_all<A: Answers, W: Write>(&mut self, by: &mut A, out: &mut W) -> io::Result<()> {
        for _ in 0..u64::MAX {
            let Some(line) = self.next_line(out)? else {
                break;
            };
            by.answer(line, out)?;
        }
        Ok(())
    }
}
