// The start structure (NVMe: Track Memory Changes data structure): its reader and its writer, over lent bytes.
// What they answer is said by rules' definitions, so that both round trips of the rules speak of this code.
#![tactic(auto)]

ghost use Rattle.std.specs.Prelude.{◌≡◌, ◌+◌, ◌≤◌, length, take, replicate};
ghost use Rattle.little.specs.Little.{put, records, records_at};
ghost use Rattle.rules.specs.Refusals.{refusal, refused_by};
ghost use Rattle.start_data.specs.Answer.{header_by, HeaderRead, StartRead, ranges_read};
ghost use Rattle.rules.specs.StartData.{header_of, range_at, start_size, no_range, placed, range_bytes, header_bytes, write_tests, start_written};

use rules::{Header, Range, Refusal, StartData};

// The header's granularity and count of ranges, whatever that is. Refused where the 8 bytes are not there, then where the version is not 0. Reserved bytes
// and all bytes after the header are not looked at.
pub fn try_header(s: &[u8]) -> Result<(u8, u32), Refusal>
    ensures { header_by result ≡ header_of s.now }
{
    if s.len() < 8 {
        return Err(Refusal::Short);
    }
    if s[0] != 0 {
        return Err(Refusal::Version);
    }
    Ok((s[3], little::read::<u32>(s, 4)))
}

// The header: its granularity and its count of ranges, or its refusal's number, both 8 and 6 at place 0.
pub fn read_header(s: &[u8]) -> Header
    ensures { HeaderRead s.now result }
{
    match try_header(s) {
        Ok((granularity, count)) => Header::Is(granularity, count),
        Err(refusal) => Header::Refused(refusal.number(), 0),
    }
}

// The range at index `at`.
fn read_range(s: &[u8], at: usize) -> Range
    requires { at + 12 ≤ length s.now }
    ensures { result ≡ range_at s.now at }
{
    let start = little::read::<u64>(s, at);
    let length = little::read::<u32>(s, at + 8);
    Range { start, length }
}

// The first `n` ranges of a structure that is known to have them, and zeros in the places after them.
fn listed_ranges(s: &[u8], n: usize) -> [Range; 16]
    requires { (n ≤ 16) × (start_size n ≤ length s.now) }
    ensures { result ≡ placed (records_at range_at 12 s.now 8 n) }
{
    let mut a = rules::no_ranges();
    for i in 0..n {
        a[i] = read_range(s, 8 + 12 * i);
    }
    a
}

// The first `count` ranges, with zeros in the places after them; none where `count` is over 16 or they are not wholly there.
pub fn read_ranges(s: &[u8], count: usize) -> [Range; 16]
    ensures { result ≡ ranges_read s.now count }
{
    if count > 16 || s.len() < 8 + 12 * count {
        return rules::no_ranges();
    }
    listed_ranges(s, count)
}

// What the reader answers with a header that is a refusal: no range.
fn refused(header: Header) -> StartData
    ensures { result ≡ record { header = header; ranges = replicate 16 no_range } }
{
    StartData {
        header,
        ranges: rules::no_ranges(),
    }
}

// The structure: its header and its listed ranges. Refused as the header is, then with 18 at place 4, the count's, where more than 16 ranges are
// listed, then with 8 at the place of the first range that is not wholly there. A refusal comes with no range: zeros in all places.
pub fn read_start(s: &[u8]) -> StartData
    ensures { StartRead s.now result }
{
    let header = read_header(s);
    let Header::Is(_, listed) = header else {
        return refused(header);
    };
    if 16 < listed {
        return refused(Header::Refused(18, 4));
    }
    let n = listed as usize;
    if s.len() < 8 + 12 * n {
        let stop = 8 + 12 * ((s.len() - 8) / 12);
        return refused(Header::Refused(8, stop));
    }
    let ranges = listed_ranges(s, n);
    StartData { header, ranges }
}

// Stores the header of a structure with `count` ranges: version 0, zeros in the reserved bytes, the granularity and the count.
fn put_header(buffer: &mut [u8], granularity: u8, count: u32)
    requires { 8 ≤ length buffer.old }
    ensures { buffer.new ≡ put buffer.old 0 (header_bytes granularity count) }
{
    little::write(buffer, 0, 0u8);
    little::write(buffer, 1, 0u16);
    little::write(buffer, 3, granularity);
    little::write(buffer, 4, count);
}

// Stores a range at index `at`.
fn put_range(buffer: &mut [u8], at: usize, range: Range)
    requires { at + 12 ≤ length buffer.old }
    ensures { buffer.new ≡ put buffer.old at (range_bytes range) }
{
    little::write(buffer, at, range.start);
    little::write(buffer, at + 8, range.length);
}

// Stores the first `n` ranges one after another, behind the header.
fn put_ranges(buffer: &mut [u8], n: usize, ranges: [Range; 16])
    requires { (n ≤ 16) × (start_size n ≤ length buffer.old) }
    ensures { buffer.new ≡ put buffer.old 8 (records range_bytes (take n ranges)) }
{
    for (i, range) in ranges[..n].iter().enumerate() {
        put_range(buffer, 8 + 12 * i, *range);
    }
}

// Writes the structure of the first `count` ranges to the front of the buffer, or refuses it and changes no byte.
fn try_write(
    buffer: &mut [u8],
    granularity: u8,
    count: u32,
    ranges: [Range; 16],
) -> Result<(), Refusal>
    ensures number { refused_by result ≡ refusal (write_tests (length buffer.old) count) }
    ensures bytes { buffer.new ≡ start_written buffer.old granularity count (take count ranges) }
{
    if 16 < count {
        return Err(Refusal::Ranges);
    }
    let n = count as usize;
    if buffer.len() < 8 + 12 * n {
        return Err(Refusal::Short);
    }
    put_header(buffer, granularity, count);
    put_ranges(buffer, n, ranges);
    Ok(())
}

// Writes the structure with version 0, this granularity and the first `count` ranges to the front of the buffer, zeros in its reserved bytes, and
// answers 0; bytes after it stay as they were. Refused, in this order: 18 for more than 16 ranges, 8 for a buffer too short; then no byte changes.
// The number is no Result, as `CallsAre` has it; inside it is one (`try_write`).
pub fn write_start(buffer: &mut [u8], granularity: u8, count: u32, ranges: [Range; 16]) -> u8
    ensures number { result ≡ refusal (write_tests (length buffer.old) count) }
    ensures bytes { buffer.new ≡ start_written buffer.old granularity count (take count ranges) }
{
    match try_write(buffer, granularity, count, ranges) {
        Ok(()) => 0,
        Err(refusal) => refusal.number(),
    }
}
