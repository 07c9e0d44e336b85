// The lines of a shelf listing for two managers (document 02, W12): `dev2`, which makes a device, and `by`, which says that a manager makes a call.
// Any bytes are met with an answer.
#![tactic(auto)]

ghost use Rattle.std.specs.Prelude.{◌≡◌, ℕ, drop, IfSome};

use engines::Engine;
use fields::Fields;
use playing::Player;
use std::io;
use std::io::Write;

// ---- `dev2`

// Plays a `dev2` with these fields, and puts its answer.
pub fn dev2<E: Engine, W: Write>(
    player: &mut Player<E>,
    fields: Fields<'_>,
    out: &mut W,
) -> io::Result<()> {
    match settings_line::take(fields) {
        Some(s) => player.dev(s, out),
        None => playing::put_bad(out),
    }
}

// ---- `by`

// Who makes the call of a line that begins with `by`, and the call's own line, the end of it: behind a manager, where the word of a call follows that a manager makes.
fn by(line: &[u8]) -> Option<(u16, &[u8])>
    ensures { IfSome result (λ by. (n : ℕ) × (by.1.now ≡ drop n line.now)) }
{
    let (b"by", mut fields) = fields::split(line) else {
        return None;
    };
    let manager = fields.number(65535)? as u16;
    let call = fields.rest()?;
    match fields::split(call).0 {
        b"start" | b"stop" | b"recv" | b"susp" | b"resume" | b"part" => {
            let from = line.len().checked_sub(call.len())?;
            Some((manager, line.get(from..)?))
        }
        _ => None,
    }
}

// Who makes the call of a line, and the call's own line. A line that begins otherwise is played whole, by the first manager; so a `by` before anything else is bad, as a
// word that no line begins with.
pub fn caller_of(first: u16, line: &[u8]) -> (u16, &[u8])
    ensures { (n : ℕ) × (result.1.now ≡ drop n line.now) }
{
    by(line).unwrap_or((first, line))
}
