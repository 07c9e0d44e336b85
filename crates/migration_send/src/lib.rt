// The calls that suspend and resume a controller (NVMe: Migration Send). Each contract is an equation with a function of the calls: it says every
// returned value and every field of the record afterwards; marks are only read.
#![tactic(auto)]

ghost use Rattle.std.specs.Prelude.{◌≡◌, length};
ghost use Rattle.calls.specs.Calls.{dropped, suspend_change, resume_change};
ghost use Rattle.calls.specs.Inner.{changed_by};

use calls::Changed;
use rules::{Device, Refusal, Sequence};

// What a suspend makes of the record.
fn try_suspend(d: Device, words: usize, manager: u16, id: u16, kind: u8) -> Result<Device, Refusal>
    ensures { changed_by d result ≡ suspend_change d words manager id kind }
{
    let i = record::locate_by(d, words, manager, id)?;
    if kind > 1 {
        return Err(Refusal::Kind);
    }
    if kind == 0 {
        return Ok(d);
    }
    let mut e = d;
    e.controllers[i].suspended = true;
    Ok(e)
}

// `suspend` on marks of so many words, however they are held.
pub fn suspend_on(d: Device, words: usize, manager: u16, id: u16, kind: u8) -> Changed
    ensures { result ≡ suspend_change d words manager id kind }
{
    calls::changed_by(d, try_suspend(d, words, manager, id, kind))
}

// Suspends a controller, whichever manager asks: type 1 suspends, also where it is suspended already; type 0 is a notice and changes nothing. Pending units stay. Refused, in
// this order: 1, 2 (also an unknown manager), 15 another type.
pub fn suspend(d: Device, marks: &[u64], manager: u16, id: u16, kind: u8) -> Changed
    ensures { result ≡ suspend_change d (length marks.now) manager id kind }
{
    suspend_on(d, marks.len(), manager, id, kind)
}

// The sequence without one of this controller's own.
fn without(sequence: Option<Sequence>, id: u16) -> Option<Sequence>
    ensures { result ≡ dropped id sequence }
{
    sequence.filter(|q| q.owner != id)
}

// What a resume makes of the record.
fn try_resume(d: Device, words: usize, manager: u16, id: u16) -> Result<Device, Refusal>
    ensures { changed_by d result ≡ resume_change d words manager id }
{
    let i = record::locate_by(d, words, manager, id)?;
    if !d.controllers[i].suspended {
        return Err(Refusal::Running);
    }
    let mut e = d;
    e.controllers[i].suspended = false;
    e.sequence = without(d.sequence, id);
    Ok(e)
}

// `resume` on marks of so many words, however they are held.
pub fn resume_on(d: Device, words: usize, manager: u16, id: u16) -> Changed
    ensures { result ≡ resume_change d words manager id }
{
    calls::changed_by(d, try_resume(d, words, manager, id))
}

// Resumes a controller, whichever manager asks: a state of its own that arrives in parts is dropped. Pending units stay. Refused, in this order: 1, 2 (also an unknown
// manager), 13 not suspended.
pub fn resume(d: Device, marks: &[u64], manager: u16, id: u16) -> Changed
    ensures { result ≡ resume_change d (length marks.now) manager id }
{
    resume_on(d, marks.len(), manager, id)
}
