// The line of a shelf listing for the migration log (document 02, W13): `log`, which asks for a controller's totals, read and played; and totals and their sums as text.
// Any bytes are met with an answer.
#![tactic(auto)]

use engines::Engine;
use fields::Fields;
use log_numbers::{Log, Sums, Totals};
use playing::Player;
use rules::Settings;
use std::io::Write;
use std::{fmt, io};

// ---- text

// A sum, to be printed.
#[derive(Clone, Copy)]
struct Shown(Option<u64>);

impl fmt::Display for Shown {
    fn fmt<W: fmt::Write>(&self, f: &mut fmt::Formatter<W>) -> fmt::Result {
        match self.0 {
            Some(n) => write!(f, "{n}"),
            None => write!(f, "unknown"),
        }
    }
}

// Puts three sums, each behind its name, and ends the line.
pub fn put_sums<W: Write>(out: &mut W, s: Sums) -> io::Result<()> {
    let marked = Shown(s.marked);
    let reported = Shown(s.reported);
    let dropped = Shown(s.dropped);
    writeln!(
        out,
        " marked {marked} reported {reported} dropped {dropped}"
    )
}

// Puts a number, and behind it a controller's totals: they are the sums over it alone.
pub fn put_totals<W: Write>(out: &mut W, number: u64, t: Option<Totals>) -> io::Result<()> {
    write!(out, "{number}")?;
    put_sums(out, log_numbers::summed(log_numbers::no_sums(), t))
}

// Puts a line for each controller in the settings: what the log says of it. The settings before a done `dev` have none.
pub fn put_log<W: Write>(out: &mut W, s: Settings, l: Log) -> io::Result<()> {
    for (id, account) in s.identifiers.iter().zip(&l.accounts).take(s.count) {
        put_totals(out, u64::from(*id), account.totals)?;
    }
    Ok(())
}

// ---- `log`

// The identifier that is a line's only field.
fn read(mut fields: Fields<'_>) -> Option<u16> {
    let id = fields.number(65535)? as u16;
    if fields.is_empty() { Some(id) } else { None }
}

// Plays a `log` with these fields, and puts its answer: a refused one's number alone. It changes nothing.
pub fn log<E: Engine, W: Write>(
    player: &Player<E>,
    fields: Fields<'_>,
    out: &mut W,
) -> io::Result<()> {
    let Some(id) = read(fields) else {
        return playing::put_bad(out);
    };
    let reading = player.engine.totals(player.log, player.device, id);
    if reading.number != 0 {
        return playing::put_number(out, reading.number);
    }
    put_totals(out, 0, reading.totals)
}
