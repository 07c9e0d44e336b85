// The lines of a shelf listing for the settings file: `old`, `new` and `save` (W11), read and played. They need no device and change none. Any bytes are met with
// an answer.
#![tactic(auto)]

use fields::Fields;
use hex_text::Hex;
use rules::Settings;
use std::io;
use std::io::Write;

// The most bytes of a file that a line may hold.
const FILE_BYTES: usize = 64;

// The bytes of a file of version 1, and of version 2.
const OLD_BYTES: usize = 29;

const NEW_BYTES: usize = 35;

// ---- answers

// Puts what a done reader answers first: the numbers that both versions have.
fn put_numbers<W: Write>(out: &mut W, s: &Settings) -> io::Result<()> {
    let powers = u8::from(s.powers);
    write!(
        out,
        "0 {} {} {} {powers} {}",
        s.manager, s.least, s.greatest, s.limit
    )
}

// Puts what version 2 alone has: the second manager and its limit, or where there is none the first manager and 0, and the shelf's limit.
fn put_limits<W: Write>(out: &mut W, s: &Settings) -> io::Result<()> {
    let place = settings_file::second_place(s.manager, s.second);
    let limit = settings::second_limit(s.second);
    write!(out, " {place} {limit} {}", s.shelf)
}

// Puts the identifiers in use, and ends the line.
fn put_identifiers<W: Write>(out: &mut W, s: &Settings) -> io::Result<()> {
    for id in s.identifiers.iter().take(s.count) {
        write!(out, " {id}")?;
    }
    writeln!(out)
}

// ---- played

// The file in the last field of a line, in hex: it is read into `file`.
fn read<'a>(fields: Fields<'_>, file: &'a mut [u8]) -> Option<&'a [u8]> {
    hex_text::read(fields.rest()?, file)
}

// Plays an `old` with these fields: puts the answer of the reader of version 1 to a file.
pub fn old<W: Write>(fields: Fields<'_>, out: &mut W) -> io::Result<()> {
    let mut file = [0u8; FILE_BYTES];
    let Some(file) = read(fields, &mut file) else {
        return playing::put_bad(out);
    };
    let read = settings_file::read_v1(file);
    if read.number != 0 {
        return playing::put_number(out, read.number);
    }
    put_numbers(out, &read.settings)?;
    put_identifiers(out, &read.settings)
}

// Plays a `new` with these fields: puts the answer of the reader of both versions to a file.
pub fn new<W: Write>(fields: Fields<'_>, out: &mut W) -> io::Result<()> {
    let mut file = [0u8; FILE_BYTES];
    let Some(file) = read(fields, &mut file) else {
        return playing::put_bad(out);
    };
    let read = settings_file::read_file(file);
    if read.number != 0 {
        return playing::put_number(out, read.number);
    }
    put_numbers(out, &read.settings)?;
    put_limits(out, &read.settings)?;
    put_identifiers(out, &read.settings)
}

// The version and the settings in the fields of a `save`.
fn read_save(mut fields: Fields<'_>) -> Option<(u16, Settings)> {
    let version = fields.number(65535)? as u16;
    let s = settings_line::take(fields)?;
    Some((version, s))
}

// Plays a `save` with these fields: puts the answer of the writer to a buffer as long as the file, a refused one's number alone.
pub fn save<W: Write>(fields: Fields<'_>, out: &mut W) -> io::Result<()> {
    let Some((version, s)) = read_save(fields) else {
        return playing::put_bad(out);
    };
    let mut file = [0u8; NEW_BYTES];
    let bytes = if version == 1 { OLD_BYTES } else { NEW_BYTES };
    let file = &mut file[..bytes];
    match settings_file::write_file(file, version, s) {
        0 => writeln!(out, "0 {}", Hex(file)),
        number => playing::put_number(out, number),
    }
}
