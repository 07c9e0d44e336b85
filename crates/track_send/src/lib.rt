// The calls that start and stop the tracking of a controller (NVMe: Track Send). Each contract is an equation with a function of the calls: it says
// every returned value, every field of the record and every word of the marks afterwards.
#![tactic(auto)]

ghost use Rattle.std.specs.Prelude.{◌≡◌, true, cond, eqb, ◌++◌, map, ◌+◌, ◌<◌, ◌≤◌, length, get_or, set};
ghost use Rattle.rules.specs.Lists.{sum};
ghost use Rattle.rules.specs.Refusals.{number_of, refused_at, refusal_at};
ghost use Rattle.rules.specs.Settings.{mark_words, is_manager, place_of};
ghost use Rattle.rules.specs.StartData.{header_of};
ghost use Rattle.rules.specs.declared.Header.TheVariants.{Is};
ghost use Rattle.rules.specs.Device.{sound_device};
ghost use Rattle.record.specs.Record.{no_controller, with_controller, seen_in, managed_of, counts_of, units_of};
ghost use Rattle.calls.specs.Calls.{with_clear, bases_of, sizes_of, packed_from, packed_device, packed_words, stopped, start_change, stop_change};
ghost use Rattle.calls.specs.Inner.{changed_by, started_by};
ghost use Rattle.pool.specs.Pool.{new_base, new_bases};
ghost use Rattle.start_data.specs.Answer.{header_says};
ghost use Rattle.track_send.specs.Inner.{tracking, Admits, Installs};
ghost use Rattle.rules.specs.Order.{start_listed, start_shared, start_order};

use calls::{Changed, Started};
use pieces::Rows;
use rules::{Controller, Device, Header, MOST_UNITS, Range, Refusal, RowRefusal, Share, Tracking};

// ---- start

// What a start that passes its table records: where the controller stands, its granularity, and its count of ranges with these.
#[derive(Clone, Copy)]
pub struct Admitted {
    pub place: usize,
    pub granularity: u8,
    pub count: u8,
    pub ranges: [Range; 16],
}

// How many bits some shares have, together.
fn together(shares: [Share; 8]) -> usize
    requires { sum (map (λ a. a.size) shares) ≤ 16384 }
    ensures { result ≡ sum (map (λ a. a.size) shares) }
{
    let mut total: usize = 0;
    for share in shares {
        total += share.size;
    }
    total
}

// The first of 7, 8 (listed ranges), 18 to 21, 10, 11, 12 and 34 that a start by this manager, from a structure with this granularity and count, breaks, with its row.
pub fn listed_refusal(d: Device, manager: u16, g: u8, n: u32, data: &[u8]) -> Result<(), RowRefusal>
    requires { (sound_device d ≡ true) × (is_manager d.settings manager ≡ true) × (header_of «data».now ≡ Is g n) }
    ensures { refused_at result
        ≡ refusal_at
        (start_listed d.settings «data».now
        ++ start_shared d.settings manager (units_of d) (managed_of d manager) (counts_of d) «data».now) }
{
    let s = d.settings;
    if !settings::granularity_ok(s, g) {
        return Err(RowRefusal::from(Refusal::Granularity));
    }
    let count = n as usize;
    if data.len() < 8 + 12 * count {
        return Err(RowRefusal::from(Refusal::Short));
    }
    if count > 16 {
        return Err(RowRefusal::from(Refusal::Ranges));
    }
    let ranges = start_data::read_ranges(data, count);
    ranges::list_refusal(s, g, count as u8, ranges)?;
    let rows = Rows {
        granularity: g,
        count: count,
        ranges,
    };
    let units = ranges::units_in(rows);
    let held = together(record::shares(d));
    if units.0 > MOST_UNITS - held as u64 {
        return Err(RowRefusal::from(Refusal::Units));
    }
    let limit = settings::limit_of(s, manager);
    if count + record::managed(d, manager) > limit as usize {
        return Err(RowRefusal::from(Refusal::Limit));
    }
    if count + record::weights(d) > s.shelf as usize {
        return Err(RowRefusal::from(Refusal::Shelf));
    }
    Ok(())
}

// Where some shares begin.
pub fn bases_of(shares: [Share; 8]) -> [usize; 8]
    ensures { result ≡ map (λ a. a.base) shares }
{
    shares.map(|a| a.base)
}

// How many bits some shares have, where the one at place i has `size`.
pub fn sizes_with(shares: [Share; 8], i: usize, size: usize) -> [usize; 8]
    requires { i < 8 }
    ensures { result ≡ set (map (λ a. a.size) shares) i size }
{
    let mut sizes = shares.map(|a| a.size);
    sizes[i] = size;
    sizes
}

// The record in which the shares of these sizes begin at these bits. A controller that has none is as it was.
fn based(d: Device, sizes: [usize; 8], bases: [usize; 8]) -> Device
    requires { (bases ≡ new_bases sizes) × (new_base sizes 8 ≤ 16384) }
    ensures { result ≡ record { settings = d.settings; controllers = packed_from sizes 0 d.controllers; sequence = d.sequence } }
{
    let mut e = d;
    for i in 0..8 {
        if sizes[i] != 0 {
            e.controllers[i].base = bases[i] as u16;
        }
    }
    e
}

// Records that a controller is tracked by a manager, its queue as it was, and where the shares, which with its own have these sizes, begin once packed.
pub fn recorded(d: Device, manager: u16, start: Admitted, sizes: [usize; 8]) -> Device
    requires { (start.place < 8) × (sizes ≡ sizes_of (tracking d manager start)) × (new_base sizes 8 ≤ 16384) }
    ensures { result ≡ packed_device (tracking d manager start) }
{
    let ranges = start.ranges;
    let mut e = d;
    e.controllers[start.place] = Controller {
        tracking: Tracking::On(start.granularity, start.count),
        manager,
        base: 0,
        suspended: false,
        ranges,
        queue: d.controllers[start.place].queue,
    };
    based(e, sizes, pool::new_bases(sizes))
}

// Records that a controller is tracked by a manager, and packs the shares: they stand one after another from bit 0 on, in the order of the settings, with their marks; the new
// one is clear.
fn install(d: Device, marks: &mut [u64], manager: u16, start: Admitted) -> Device
    requires { Installs d marks.old start }
    ensures { (result ≡ packed_device (tracking d manager start)) × (marks.new ≡ packed_words marks.old (bases_of d) (sizes_of (tracking d manager start)) start.place) }
{
    let shares = record::shares(d);
    let ranges = start.ranges;
    let rows = Rows {
        granularity: start.granularity,
        count: start.count as usize,
        ranges,
    };
    let units = ranges::units_in(rows);
    let sizes = sizes_with(shares, start.place, units.0 as usize);
    pool::pack(marks, bases_of(shares), sizes, start.place);
    recorded(d, manager, start, sizes)
}

// Why a header is refused, by name: of the two numbers that its reader refuses with, 6 is the version's.
fn header_refusal(header: Header) -> Refusal
    ensures { number_of result ≡ cond (eqb (header_says header).number 6) 6 8 }
{
    match header {
        Header::Refused(6, _) => Refusal::Version,
        _ => Refusal::Short,
    }
}

// What a start records, where it passes its table, on marks of so many words, however they are held.
pub fn admit(
    d: Device,
    words: usize,
    manager: u16,
    id: u16,
    data: &[u8],
) -> Result<Admitted, RowRefusal>
    ensures refusal { refused_at result ≡ refusal_at (start_order d.settings manager (seen_in d words (place_of d.settings id)) «data».now) }
    ensures admits { Admits d words manager id «data».now result }
{
    let place = record::locate_by(d, words, manager, id)?;
    let c = d.controllers[place];
    if c.suspended {
        return Err(RowRefusal::from(Refusal::Suspended));
    }
    let Tracking::Off = c.tracking else {
        return Err(RowRefusal::from(Refusal::Tracked));
    };
    let header = start_data::read_header(data);
    let Header::Is(granularity, count) = header else {
        return Err(RowRefusal::from(header_refusal(header)));
    };
    listed_refusal(d, manager, granularity, count, data)?;
    Ok(Admitted {
        place,
        granularity,
        count: count as u8,
        ranges: start_data::read_ranges(data, count as usize),
    })
}

// What a start makes of the record and of the marks.
fn try_start(
    d: Device,
    marks: &mut [u64],
    manager: u16,
    id: u16,
    data: &[u8],
) -> Result<Device, RowRefusal>
    ensures { (started_by d result ≡ (start_change d marks.old manager id «data».now).answer) × (marks.new ≡ (start_change d marks.old manager id «data».now).marks) }
{
    let start = admit(d, marks.len(), manager, id, data)?;
    Ok(install(d, marks, manager, start))
}

// Starts tracking a controller for a manager from a start structure: its granularity and ranges are recorded, and the shares of the pool are packed, its own clear among them. Refused, in this
// order: 1, 2 (also an unknown manager), 4 suspended, 3 already tracked, by either manager, 8 no whole header, 6 version, 7 granularity, 8 listed ranges not there, 18 no range or more than 16, then row
// by row 19 length 0, 20 unaligned, 21 past 2^64, then 10 power of two, 11 too many units, 12 the manager's descriptor limit passed, 34 the shelf's passed. A refusal
// with 19 to 21 names its row.
pub fn start(d: Device, marks: &mut [u64], manager: u16, id: u16, data: &[u8]) -> Started
    ensures { (result ≡ (start_change d marks.old manager id «data».now).answer) × (marks.new ≡ (start_change d marks.old manager id «data».now).marks) }
{
    calls::started_by(d, try_start(d, marks, manager, id, data))
}

// ---- stop

// Makes a share clear.
fn clear_share(marks: &mut [u64], base: usize, n: usize)
    requires { (base + n ≤ 16384) × (length marks.old ≡ mark_words) }
    ensures { marks.new ≡ with_clear marks.old base n }
{
    bits::clear_span(marks, base, base + n);
}

// The record with the ranges of the controller at place i forgotten, and its share and its manager with them. Its queue stays.
pub fn forgotten(d: Device, i: usize) -> Device
    requires { i < 8 }
    ensures { result ≡ with_controller d i (stopped (get_or d.controllers i no_controller)) }
{
    let mut e = d;
    e.controllers[i] = Controller {
        tracking: Tracking::Off,
        manager: 0,
        base: 0,
        suspended: d.controllers[i].suspended,
        ranges: rules::no_ranges(),
        queue: d.controllers[i].queue,
    };
    e
}

// What a stop makes of the record and of the marks.
fn try_stop(d: Device, marks: &mut [u64], manager: u16, id: u16) -> Result<Device, Refusal>
    ensures { (changed_by d result ≡ (stop_change d marks.old manager id).answer) × (marks.new ≡ (stop_change d marks.old manager id).marks) }
{
    let i = record::locate_by(d, marks.len(), manager, id)?;
    let c = d.controllers[i];
    if c.suspended {
        return Err(Refusal::Suspended);
    }
    let Tracking::On(g, n) = calls::tracking_by(c, manager) else {
        return Err(Refusal::Untracked);
    };
    let ranges = calls::ranges_of(c);
    let rows = Rows {
        granularity: g,
        count: n as usize,
        ranges,
    };
    let units = ranges::units_in(rows);
    clear_share(marks, c.base as usize, units.0 as usize);
    Ok(forgotten(d, i))
}

// Stops tracking a controller: its ranges are forgotten and its share of the marks is clear. Refused, in this order: 1, 2 (also an unknown
// manager), 4 suspended, 5 not tracked by this manager.
pub fn stop(d: Device, marks: &mut [u64], manager: u16, id: u16) -> Changed
    ensures { (result ≡ (stop_change d marks.old manager id).answer) × (marks.new ≡ (stop_change d marks.old manager id).marks) }
{
    calls::changed_by(d, try_stop(d, marks, manager, id))
}
