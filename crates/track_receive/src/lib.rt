// The call that reports what is pending (NVMe: Track Receive). Its contract is an equation with `receive_receipt` of the calls: it says every returned
// value, every word of the marks and every byte of the buffer afterwards.
#![tactic(auto)]

ghost use Rattle.std.specs.Prelude.{◌≡◌};
ghost use Rattle.calls.specs.Calls.{receive_receipt};
ghost use Rattle.calls.specs.Inner.{received_by};

use calls::Received;
use pieces::Rows;
use rules::{Device, Refusal, Tracking};

// What a receive comes to.
fn try_receive(
    d: Device,
    marks: &mut [u64],
    manager: u16,
    id: u16,
    buffer: &mut [u8],
) -> Result<Received, Refusal>
    ensures { (received_by result ≡ (receive_receipt d marks.old manager id buffer.old).answer)
        × (marks.new ≡ (receive_receipt d marks.old manager id buffer.old).marks)
        × (buffer.new ≡ (receive_receipt d marks.old manager id buffer.old).buffer) }
{
    let i = record::locate_by(d, marks.len(), manager, id)?;
    let c = d.controllers[i];
    let Tracking::On(g, n) = calls::tracking_by(c, manager) else {
        return Err(Refusal::Untracked);
    };
    let size = buffer.len();
    if size < 32 {
        return Err(Refusal::Short);
    }
    let ranges = calls::ranges_of(c);
    let rows = Rows {
        granularity: g,
        count: n as usize,
        ranges,
    };
    let listed = scan::list_runs(marks, c.base as usize, rows, buffer, (size - 16) / 16);
    report_data::put_header(buffer, id, c.suspended, listed.more, listed.runs as u32, g);
    Ok(Received {
        number: 0,
        suspended: c.suspended,
        more: listed.more,
        granularity: g,
        runs: listed.runs,
        groups: listed.groups,
    })
}

// Reports to the manager that tracks it the controller's first pending runs into the buffer, as many as it holds, and makes them clear; later ones stay. More To Report is set exactly
// if a run stays. Bytes after the last descriptor are unchanged. The answer also says how many groups of 64 units were examined (W10). Refused, in this
// order: 1, 2 (also an unknown manager), 5 not tracked by this manager, 8 a buffer below 32 bytes.
pub fn receive(d: Device, marks: &mut [u64], manager: u16, id: u16, buffer: &mut [u8]) -> Received
    ensures { (result ≡ (receive_receipt d marks.old manager id buffer.old).answer)
        × (marks.new ≡ (receive_receipt d marks.old manager id buffer.old).marks)
        × (buffer.new ≡ (receive_receipt d marks.old manager id buffer.old).buffer) }
{
    calls::received_by(try_receive(d, marks, manager, id, buffer))
}
