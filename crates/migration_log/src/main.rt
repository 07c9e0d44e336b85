// The migration log (document 02, W13): reads names of session files from standard input, one a line, and plays each file as the session program plays its input, without
// the answers. Prints a line for each controller of a file's last device, or `bad` for a file that can't be opened, and last the sums over all.
#![tactic(auto)]

use engines::Words;
use lines::{Answers, Lines};
use log_numbers::Sums;
use output::Buffer;
use rules::MARK_WORDS;
use std::fs::File;
use std::io;
use std::io::{Stdin, Write};
use std::rt::Files;

// The bytes of a name's buffer: one more than the system lets a name have, so that one which is cut is still too long.
const NAME_BYTES: usize = 4096;

// Opens the file of this name. A name that can't be one is refused by `open`, and one that is no text before that.
fn open<R: Files>(files: &R, name: &[u8]) -> Option<R::File> {
    let path = str::from_utf8(name).ok()?;
    File::open(files, path).ok()
}

// The files that names are of, and the sums over those that were played.
#[derive(Drop)]
struct Migration<'a, R: Files> {
    files: &'a R,
    sums: Sums,
}

impl<R: Files> Answers for Migration<'_, R> {
    // Plays the file of this name, puts a line for each of its controllers, and adds their totals to the sums.
    fn answer<W: Write>(&mut self, name: &[u8], out: &mut W) -> io::Result<()> {
        let Some(mut file) = open(self.files, name) else {
            return playing::put_bad(out);
        };
        let mut marks = [0u64; MARK_WORDS];
        let engine = Words { marks: &mut marks };
        let (settings, log) = listings::play_session(engine, &mut file, &mut io::sink())?;
        totals::put_log(out, settings, log)?;
        for account in log.accounts.iter().take(settings.count) {
            self.sums = log_numbers::summed(self.sums, account.totals);
        }
        Ok(())
    }
}

// Answers the names, to their end or until writing fails, and puts the last line.
fn run<R: Files>(
    files: &R,
    lines: &mut Lines<'_, Stdin, NAME_BYTES>,
    out: &mut Buffer,
) -> io::Result<()> {
    let mut migration = Migration {
        files,
        sums: log_numbers::no_sums(),
    };
    lines.answer_all(&mut migration, out)?;
    write!(out, "sum")?;
    totals::put_sums(out, migration.sums)?;
    out.flush()
}

// A failed write ends the program, and nobody is told.
fn main(rt: HostRuntime) {
    let mut from = rt.stdin();
    let mut lines = Lines::new(&mut from);
    let mut out = Buffer::new(rt.stdout());
    let _ = run(&rt, &mut lines, &mut out);
}
