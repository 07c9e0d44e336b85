// The report (NVMe: Tracked Memory Changed data structure): its header and its descriptors, stored into a lent buffer.
// A loop that finds runs writes one descriptor after another from index 16 on, and the header last, when their number and More To Report are known.
#![tactic(auto)]

ghost use Rattle.std.specs.Prelude.{◌≡◌, ◌+◌, ◌≤◌, length};
ghost use Rattle.little.specs.Little.{put};
ghost use Rattle.rules.specs.Report.{flag, report_header, descriptor_bytes};

// How many runs were listed, whether one stays, and how many groups of 64 units were examined (W10).
#[derive(Clone, Copy)]
pub struct Listed {
    pub runs: usize,
    pub more: bool,
    pub groups: usize,
}

// An attribute's bit where it is set, else 0.
fn attribute(set: bool, bit: u8) -> u8
    ensures { (result ≡ flag set bit) × (result ≤ bit) }
{
    if set { bit } else { 0 }
}

// Stores the report's header in the first 16 bytes: version 0, the attributes suspended and More To Report, the identifier, the number of
// descriptors, the granularity with which the controller was started, and zeros. Every other byte stays as it was.
// Nothing is refused: that the 16 bytes are there is the caller's to keep.
pub fn put_header(
    buffer: &mut [u8],
    id: u16,
    suspended: bool,
    more: bool,
    count: u32,
    granularity: u8,
)
    requires { 16 ≤ length buffer.old }
    ensures { buffer.new ≡ put buffer.old 0 (report_header id suspended more count granularity) }
{
    let attributes = attribute(suspended, 2) + attribute(more, 1);
    little::write(buffer, 0, 0u8);
    little::write(buffer, 1, attributes);
    little::write(buffer, 2, id);
    little::write(buffer, 4, count);
    little::write(buffer, 8, granularity as u16);
    little::put_number(buffer, 10, 6, 0);
}

// Stores a descriptor in the 16 bytes from index `at` on: a run's first address, its length in units, and zeros. Every other byte stays as it was.
// Nothing is refused: that the 16 bytes are there is the caller's to keep.
pub fn put_descriptor(buffer: &mut [u8], at: usize, address: u64, units: u32)
    requires { at + 16 ≤ length buffer.old }
    ensures { buffer.new ≡ put buffer.old at (descriptor_bytes (record { address = address; length = units })) }
{
    little::write(buffer, at, address);
    little::write(buffer, at + 8, units);
    little::write(buffer, at + 12, 0u32);
}
