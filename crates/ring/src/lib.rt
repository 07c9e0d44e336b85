// A ring of n places of 32 bytes in lent bytes: entries stored after the newest, entries taken from the oldest on, and the two totals, which pass 2^32.
// Nothing is refused here: that the area has n places, that a place lies in it and that there is room is each caller's to keep.
//
// The contracts cite specs/; the laws that a caller's proof needs are in proofs/: Places, Entries, Totals.
#![tactic(auto)]

ghost use Rattle.std.specs.Prelude.{◌≡◌, ◌+◌, ◌*◌, ◌<◌, ◌≤◌, length};
ghost use Rattle.little.specs.Little.{put};
ghost use Rattle.rules.specs.Queue.{joined, closing_entry, total_after, fill_of};
ghost use Rattle.ring.specs.Ring.{part, place_after, queued};

// How many entries are queued, by the totals of entries posted and taken. Right also where either has passed 2^32.
pub fn fill(posted: u32, taken: u32) -> u32
    ensures { result ≡ fill_of posted taken }
{
    std::num::wrapping_sub_u32(posted, taken)
}

// The total after `by` more entries: past 2^32 - 1 it goes on from 0.
pub fn next_total(total: u32, by: u32) -> u32
    ensures { result ≡ total_after total by }
{
    std::num::wrapping_add_u32(total, by)
}

// The place `by` places after `place` in a ring of n, where `by` is at most n.
pub fn place_after(n: usize, place: usize, by: usize) -> usize
    requires { (place < n) × (by ≤ n) }
    ensures { (result ≡ place_after n place by) × (result < n) }
{
    let left = n - place;
    if by < left { place + by } else { by - left }
}

// Stores an entry of 32 bytes after the `fill` entries that are queued from `place` on. Every byte of the other places stays as it was.
pub fn put_entry(area: &mut [u8], n: usize, place: usize, fill: usize, entry: &[u8])
    requires { (length area.old ≡ 32 * n) × (place < n) × (fill < n) × (length entry.now ≡ 32) }
    ensures { area.new ≡ put area.old (32 * place_after n place fill) entry.now }
{
    let free = place_after(n, place, fill);
    area[32 * free..32 * free + 32].copy_from_slice(entry);
}

// Stores the closing entry after the `fill` entries that are queued from `place` on. Every byte of the other places stays as it was.
pub fn put_closing(area: &mut [u8], n: usize, place: usize, fill: usize)
    requires { (length area.old ≡ 32 * n) × (place < n) × (fill < n) }
    ensures { area.new ≡ put area.old (32 * place_after n place fill) closing_entry }
{
    let closing: [u8; 32] = [255; 32];
    put_entry(area, n, place, fill, &closing);
}

// Copies the m entries from `place` on to the buffer's front, oldest first. Its other bytes stay as they were.
pub fn take_entries(area: &[u8], n: usize, place: usize, m: usize, buffer: &mut [u8])
    requires { (length area.now ≡ 32 * n) × (place < n) × (m ≤ n) × (32 * m ≤ length buffer.old) }
    ensures { buffer.new ≡ put buffer.old 0 (joined (queued area.now n place m)) }
{
    for i in 0..m {
        let oldest = place_after(n, place, i);
        buffer[32 * i..32 * i + 32].copy_from_slice(&area[32 * oldest..32 * oldest + 32]);
    }
}
