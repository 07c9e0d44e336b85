// The plain engine's way over marks (document 02, W9): one byte a unit, 0 clear and all else pending, one unit at a time. For each range in its order, for
// each unit of it by address: where an earlier range covers the unit it is not this range's, else it is the controller's next unit. The bytes of the
// controller's units stand in the area from `base` on, in that order.
#![tactic(auto)]

ghost use Rattle.std.specs.Prelude.{◌≡◌, cond, [], ◌+◌, ◌*◌, ◌^◌, ◌≤◌, ◌<◌, eqb, length, take};
ghost use Rattle.little.specs.Little.{put};
ghost use Rattle.rules.specs.Report.{descriptor_bytes};
ghost use Rattle.rules.specs.Units.{covers, touches, units_from};
ghost use Rattle.plain_marks.specs.Plain.{marks_of, marks_set, covered_by, Ends, write_to, Marked, Lists};

use measures::WrittenRange;
use report_data::Listed;
use rules::Range;

// Whether a range covers the byte at an address.
fn covers(r: Range, address: u64, size: u64) -> bool
    requires { 0 < size }
    ensures { result ≡ covers size r address }
{
    address >= r.start && (address - r.start) / size < r.length as u64
}

// Whether a range that is listed before a row covers the byte at an address.
pub fn covered(ranges: [Range; 16], row: usize, address: u64, size: u64) -> bool
    requires { (0 < size) × (row ≤ 16) }
    ensures { result ≡ covered_by size (take row ranges) address }
{
    for i in 0..row {
        if covers(ranges[i], address, size) {
            return true;
        }
    }
    false
}

// Whether a written range touches the unit at an address.
fn touches(address: u64, size: u64, written: WrittenRange) -> bool
    requires { (0 < size) × (address + size ≤ 2 ^ 64) }
    ensures { result ≡ touches (write_to written.at written.last) (record { row = 0; address = address; size = size }) }
{
    address <= written.last && written.at <= address + (size - 1)
}

// Marks every unit of the first n ranges that a written range touches, and counts those that were clear. A clear byte becomes 1, one that is
// not 0 stays as it is.
// Nothing is refused: that the ranges pass the rules of a row, and that the area has a byte for each unit, is the caller's to keep.
pub fn mark_units(
    area: &mut [u8],
    base: usize,
    size: u64,
    n: usize,
    ranges: [Range; 16],
    written: WrittenRange,
) -> usize
    requires { (0 < size) × (n ≤ 16) × (base + length (units_from size 0 [] (take n ranges)) ≤ length area.old) × Ends size ranges n }
    ensures { Marked (write_to written.at written.last) (units_from size 0 [] (take n ranges)) area.old base result area.new }
{
    let mut count: usize = 0;
    let mut place = base;
    for row in 0..n {
        let r = ranges[row];
        for unit in 0..r.length as u64 {
            let address = r.start + unit * size;
            if !covered(ranges, row, address, size) {
                if touches(address, size, written) && area[place] == 0 {
                    area[place] = 1;
                    count += 1;
                }
                place += 1;
            }
        }
    }
    count
}

// How many of the n units whose bytes stand in the area from `base` on are pending.
// Nothing is refused: that the area has a byte for each of them is the caller's to keep.
pub fn count_units(area: &[u8], base: usize, n: usize) -> usize
    requires { base + n ≤ length area.now }
    ensures { result ≡ marks_set (marks_of area.now base n) }
{
    let mut count: usize = 0;
    for i in 0..n {
        if area[base + i] != 0 {
            count += 1;
        }
    }
    count
}

// Puts the descriptor of a run that has ended after those of `runs` others, and answers how many there are then. Where no run was growing, of 0 units,
// nothing is put.
fn end_run(buffer: &mut [u8], runs: usize, start: u64, units: u32) -> usize
    requires { 0 < units → 16 + 16 * runs + 16 ≤ length buffer.old }
    ensures { (result ≡ cond (eqb units 0) runs (runs + 1))
        × (buffer.new ≡ cond (eqb units 0) buffer.old (put buffer.old (16 + 16 * runs) (descriptor_bytes (record { address = start; length = units })))) }
{
    if units == 0 {
        return runs;
    }
    report_data::put_descriptor(buffer, 16 + 16 * runs, start, units);
    runs + 1
}

// Lists the first runs, as many as there is room for, one descriptor after another from byte 16 of the buffer on, and makes their units' bytes 0. A run
// grows while the row's next unit is the controller's and pending. The groups examined are those up to the first unit of a run that there is no room for,
// or all.
// Nothing is refused: what `mark_units` leaves to the caller, and that the buffer has the room, is the caller's to keep.
pub fn list_units(
    area: &mut [u8],
    base: usize,
    size: u64,
    n: usize,
    ranges: [Range; 16],
    buffer: &mut [u8],
    room: usize,
) -> Listed
    requires { (0 < size) × (n ≤ 16) × (base + length (units_from size 0 [] (take n ranges)) ≤ length area.old) × Ends size ranges n × (16 + 16 * room ≤ length buffer.old) }
    ensures { Lists (units_from size 0 [] (take n ranges)) area.old base buffer.old room result.runs result.more result.groups area.new buffer.new }
{
    let mut runs: usize = 0;
    let mut place = base;
    for row in 0..n {
        let r = ranges[row];
        // The run that is growing: its first address, and its units so far, 0 where none is.
        let mut start: u64 = 0;
        let mut units: u32 = 0;
        for unit in 0..r.length as u64 {
            let address = r.start + unit * size;
            if covered(ranges, row, address, size) {
                runs = end_run(buffer, runs, start, units);
                units = 0;
            } else {
                if area[place] == 0 {
                    runs = end_run(buffer, runs, start, units);
                    units = 0;
                } else {
                    if units == 0 {
                        if runs == room {
                            return Listed {
                                runs,
                                more: true,
                                groups: (place - base) / 64 + 1,
                            };
                        }
                        start = address;
                    }
                    area[place] = 0;
                    units += 1;
                }
                place += 1;
            }
        }
        runs = end_run(buffer, runs, start, units);
    }
    Listed {
        runs,
        more: false,
        groups: (place - base + 63) / 64,
    }
}
