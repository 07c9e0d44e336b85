// A controller's state (NVMe: Set Controller State), which arrives in parts: the whole is judged before its last part is stored.
// The bytes before `offset` are the area's, those from there on the part's. Which part is accepted is the caller's matter.
#![tactic(auto)]

ghost use Rattle.std.specs.Prelude.{◌≡◌, ◌+◌, ◌≤◌, length, get_or};
ghost use Rattle.little.specs.Little.{number_at, put};
ghost use Rattle.rules.specs.ControllerState.{state_ok};
ghost use Rattle.state_bytes.specs.Parts.{assembled};

// Byte `i` of the whole, 0 past its end.
fn byte_of(area: &[u8], offset: usize, data: &[u8], i: usize) -> u8
    requires { offset ≤ length area.now }
    ensures { result ≡ get_or (assembled area.now offset «data».now) i 0 }
{
    if i < offset {
        return area[i];
    }
    let k = i - offset;
    if k < data.len() {
        return data[k];
    }
    0
}

// The number in the `width` bytes of a header from index `at` on, at most 8 bytes; a byte past the end of the whole counts 0.
fn number_of(area: &[u8], offset: usize, data: &[u8], at: usize, width: usize) -> u64
    requires { (offset ≤ length area.now) × (at + width ≤ 48) × (width ≤ 8) }
    ensures { result ≡ number_at (assembled area.now offset «data».now) at width }
{
    let mut v: u64 = 0;
    for i in (0..width).rev() {
        v = 256 * v + (byte_of(area, offset, data, at + i) as u64);
    }
    v
}

// Whether the whole is a finished state: at least its header, of version 0, and as long as the header and its two size fields say. A size is a number
// of 16 bytes: one whose higher 8 are not all 0 is more than any slice holds.
pub fn judge(area: &[u8], offset: usize, data: &[u8]) -> bool
    requires { offset ≤ length area.now }
    ensures { result ≡ state_ok (assembled area.now offset «data».now) }
{
    let whole = offset + data.len();
    if whole < 48
        || number_of(area, offset, data, 0, 2) != 0
        || number_of(area, offset, data, 24, 8) != 0
        || number_of(area, offset, data, 40, 8) != 0
    {
        return false;
    }
    let behind = whole - 48;
    let dwords = (behind / 4) as u64;
    let nvme = number_of(area, offset, data, 16, 8);
    if behind % 4 != 0 || dwords < nvme {
        return false;
    }
    let vendor = number_of(area, offset, data, 32, 8);
    dwords - nvme == vendor
}

// Stores a part in the area from `offset` on, and leaves every other byte as it was.
pub fn store(area: &mut [u8], offset: usize, data: &[u8])
    requires { offset + length «data».now ≤ length area.old }
    ensures { area.new ≡ put area.old offset «data».now }
{
    area[offset..offset + data.len()].copy_from_slice(data);
}
