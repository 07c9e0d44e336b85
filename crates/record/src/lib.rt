// Checks of the device record: its soundness, and where a call finds its controller. What is public is the library's interface. sound, locate and locate_by
// take any values whatever; the others say what they require. No sum here can wrap.
#![tactic(auto)]

ghost use Rattle.std.specs.Prelude.{◌≡◌, true, ◌&&◌, cond, is_some, map, ◌+◌, ◌*◌, ◌<◌, ◌≤◌, leb, eqb, get_or, drop};
ghost use Rattle.rules.specs.Lists.{all, sum};
ghost use Rattle.rules.specs.Settings.{most_units, settings_ok, is_manager};
ghost use Rattle.rules.specs.Queue.{ring_ok, queue_ok};
ghost use Rattle.rules.specs.Device.{held_of, held_ok, held_count, share_of, shares_of, is_inside, are_apart, shares_ok, front_ok, controllers_of, sequence_ok, sound_device};
ghost use Rattle.ranges.specs.Kept.{most_in};
ghost use Rattle.record.specs.Record.{no_controller, managed_of, units_of, weights_of, where_is, where_by};
ghost use Rattle.record.specs.Inner.{kept_in, end_after, walked_by, walk_of, within_limits, Countable};

use pieces::Rows;
use rules::{
    Controller, Device, MARK_WORDS, MOST_UNITS, Refusal, Ring, Settings, Share, Tracking, Units,
};

// How far a walk over the controllers has come: the weights together, and of these those of the controllers that the first manager tracks; where the shares so far
// end, as long as each begins at or behind the end of those before it; and whether the queues so far are as they may be.
#[derive(Clone, Copy)]
pub struct Walked {
    pub weight: usize,
    pub first: usize,
    pub end: u64,
    pub queues: bool,
}

// How many ranges a controller holds: none where it is off, whatever stands in its places for them.
fn count_of(c: Controller) -> usize
    ensures { (result ≡ held_count (held_of c)) × (result ≤ 255) }
{
    match c.tracking {
        Tracking::Off => 0,
        Tracking::On(_, n) => n as usize,
    }
}

// How many different units a controller has at most, if it is off, or its manager is in the settings and its granularity and ranges pass 7, 18 to 21 and 10.
fn controller_kept(s: Settings, c: Controller) -> Option<Units>
    requires { s.greatest ≤ 20 }
    ensures { (result ≡ kept_in s (held_of c)) × (most_in result ≤ 16 * 4294967295) }
{
    let Tracking::On(g, n) = c.tracking else {
        return Some(Units(0));
    };
    if !settings::is_manager(s, c.manager) {
        return None;
    }
    if !settings::granularity_ok(s, g) {
        return None;
    }
    ranges::list_kept(s, g, n, c.ranges)
}

// What a controller weighs: how many ranges it holds, or 65,536 where it may not hold what it does, which is above every limit.
fn weight(kept: Option<Units>, c: Controller) -> usize
    ensures { (result ≡ cond (is_some kept) (held_count (held_of c)) 65536) × (result ≤ 65536) }
{
    match kept {
        Some(_) => count_of(c),
        None => 65536,
    }
}

// How many units it has at most: none where it may not hold what it does.
fn most(kept: Option<Units>) -> Units
    ensures { result.0 ≡ most_in kept }
{
    kept.unwrap_or(Units(0))
}

// So much of a controller's weight as counts for the first manager: all of it, or none.
fn first_of(s: Settings, c: Controller, own: usize) -> usize
    ensures { (result ≡ cond (eqb c.manager s.manager) own 0) × (result ≤ own) }
{
    if c.manager == s.manager { own } else { 0 }
}

// Where shares end that lie one behind the other, with one more from its base on. One of no bits is nowhere; one that begins before the end of those so far
// makes it 131,072, which is above every base.
fn end_after(end: u64, base: u16, size: Units) -> u64
    requires { size.0 ≤ 16 * 4294967295 }
    ensures { result ≡ end_after end base size.0 }
{
    if size.0 == 0 {
        return end;
    }
    let b = base as u64;
    if b < end {
        return 131072;
    }
    b + size.0
}

// Whether a ring's fill is not above its size, its place is in it, and it has stopped if it is full.
fn ring_ok(r: Ring) -> bool
    ensures { result ≡ ring_ok r }
{
    let fill = ring::fill(r.posted, r.taken);
    let size = r.size as u32;
    fill <= size && r.place < r.size && (fill < size || r.stopped)
}

// Whether a controller has no queue, or one that is as it may be.
fn queue_ok(q: Option<Ring>) -> bool
    ensures { result ≡ queue_ok q }
{
    match q {
        None => true,
        Some(r) => ring_ok(r),
    }
}

// The walk over the controllers, one more. Its share is taken to have as many bits as it has at most.
fn walk_on(s: Settings, w: Walked, c: Controller) -> Walked
    requires { (s.greatest ≤ 20) × (w.weight ≤ 458752) × (w.first ≤ w.weight) }
    ensures { (result ≡ walked_by s w c) × (result.weight ≤ w.weight + 65536) × (result.first ≤ result.weight) }
{
    let kept = controller_kept(s, c);
    let own = weight(kept, c);
    let first = first_of(s, c, own);
    let end = end_after(w.end, c.base, most(kept));
    let queues = w.queues && queue_ok(c.queue);
    Walked {
        weight: w.weight + own,
        first: w.first + first,
        end,
        queues,
    }
}

// The walk over all controllers in use.
fn walk(d: Device) -> Walked
    requires { settings_ok d.settings ≡ true }
    ensures { (result ≡ walk_of d) × (result.first ≤ result.weight) }
{
    let s = d.settings;
    let mut w = Walked {
        weight: 0,
        first: 0,
        end: 0,
        queues: true,
    };
    for i in 0..s.count {
        w = walk_on(s, w, d.controllers[i]);
    }
    w
}

// The weights of all controllers in use, together.
pub fn weights(d: Device) -> usize
    requires { settings_ok d.settings ≡ true }
    ensures { result ≡ weights_of d }
{
    walk(d).weight
}

// The counts of all controllers that a manager tracks, together: what the first one does not track, the second does.
pub fn managed(d: Device, m: u16) -> usize
    requires { (sound_device d ≡ true) × (is_manager d.settings m ≡ true) }
    ensures { result ≡ managed_of d m }
{
    let w = walk(d);
    let s = d.settings;
    if m == s.manager {
        w.first
    } else {
        w.weight - w.first
    }
}

// Whether the counts of each manager, by their weights, are within its limit, and all within the shelf's.
fn counts_ok(s: Settings, w: Walked) -> bool
    requires { w.first ≤ w.weight }
    ensures { result ≡ within_limits s w.first w.weight }
{
    w.weight <= s.shelf as usize
        && w.first <= s.limit as usize
        && w.weight - w.first <= settings::second_limit(s.second) as usize
}

// Where the marks of a controller lie: as many bits as it has different units, from its base on; nowhere where it is off.
fn share_of(c: Controller) -> Share
    requires { Countable (held_of c) }
    ensures { result ≡ share_of c }
{
    let Tracking::On(g, n) = c.tracking else {
        return Share { base: 0, size: 0 };
    };
    let ranges = c.ranges;
    let rows = Rows {
        granularity: g,
        count: n as usize,
        ranges,
    };
    let u = ranges::units_in(rows);
    let base = c.base as usize;
    let size = u.0 as usize;
    Share { base, size }
}

// The shares of the eight places, by the different units that the controllers have; one that is not in use has none.
pub fn shares(d: Device) -> [Share; 8]
    requires { (settings_ok d.settings ≡ true) × (all (λ c. held_ok d.settings (held_of c)) (controllers_of d) ≡ true) }
    ensures { result ≡ shares_of d }
{
    let n = d.settings.count;
    let mut shares = [Share { base: 0, size: 0 }; 8];
    for i in 0..n {
        shares[i] = share_of(d.controllers[i]);
    }
    shares
}

// Whether a share does not leave the pool. No sum is made, so that none can wrap.
fn is_inside(a: Share) -> bool
    ensures { result ≡ is_inside a }
{
    let most = MOST_UNITS as usize;
    a.size == 0 || (a.size <= most && a.base <= most - a.size)
}

// Whether a share ends where another begins, or before.
fn ends_before(a: Share, b: Share) -> bool
    ensures { result ≡ leb (a.base + a.size) b.base }
{
    a.base <= b.base && a.size <= b.base - a.base
}

// Whether two shares do not overlap.
fn are_apart(a: Share, b: Share) -> bool
    ensures { result ≡ are_apart a b }
{
    a.size == 0 || b.size == 0 || ends_before(a, b) || ends_before(b, a)
}

// Whether a share overlaps none of those from a place on.
fn apart_from(a: Share, shares: [Share; 8], from: usize) -> bool
    ensures { result ≡ all (are_apart a) (drop from shares) }
{
    for i in from..8 {
        if !are_apart(a, shares[i]) {
            return false;
        }
    }
    true
}

// Whether no share leaves the pool, and no two overlap.
fn shares_ok(shares: [Share; 8]) -> bool
    ensures { result ≡ shares_ok shares }
{
    for i in 0..8 {
        let a = shares[i];
        if !is_inside(a) {
            return false;
        }
        if !apart_from(a, shares, i + 1) {
            return false;
        }
    }
    true
}

// Whether shares together have no more bits than the pool.
fn sizes_ok(shares: [Share; 8]) -> bool
    ensures { result ≡ leb (sum (map (λ a. a.size) shares)) most_units }
{
    let mut left = MOST_UNITS as usize;
    for i in 0..8 {
        let a = shares[i];
        if a.size > left {
            return false;
        }
        left -= a.size;
    }
    true
}

// Whether the shares are as they may be, by the units that the controllers have.
fn pool_ok(d: Device) -> bool
    requires { (settings_ok d.settings ≡ true) × (all (λ c. held_ok d.settings (held_of c)) (controllers_of d) ≡ true) }
    ensures { result ≡ (leb (units_of d) most_units && shares_ok (shares_of d)) }
{
    let all = shares(d);
    if !sizes_ok(all) {
        return false;
    }
    shares_ok(all)
}

// Whether so many bytes can be there of a state that is not whole yet: whole dwords, 4 to 4,096 bytes.
fn front_ok(end: u16) -> bool
    ensures { result ≡ front_ok end }
{
    4 <= end && end <= 4096 && end % 4 == 0
}

// Whether the controller at a place is suspended.
fn suspended_at(d: Device, i: usize) -> bool
    requires { i < 8 }
    ensures { result ≡ (get_or d.controllers i no_controller).suspended }
{
    d.controllers[i].suspended
}

// Whether no state is arriving in parts, or one of a controller in the settings that is suspended, up to an end that parts can have.
fn sequence_ok(d: Device) -> bool
    requires { settings_ok d.settings ≡ true }
    ensures { result ≡ sequence_ok d.settings (controllers_of d) d.sequence }
{
    let Some(q) = d.sequence else {
        return true;
    };
    let Some(i) = settings::find(d.settings, q.owner) else {
        return false;
    };
    suspended_at(d, i) && front_ok(q.end)
}

// Whether a record is sound: its settings pass 16, each controller in use is off or holds what it may, the counts of each manager are within its limit and all within
// the shelf's, their shares lie apart within the pool, and a state that arrives in parts and the queues are as they may be. Unused places are not looked at. Units are
// counted only where the shares do not already lie one behind the other by as many as they have at most.
pub fn sound(d: Device) -> bool
    ensures { result ≡ sound_device d }
{
    let s = d.settings;
    if !settings::settings_ok(s) {
        return false;
    }
    if !sequence_ok(d) {
        return false;
    }
    let w = walk(d);
    if !counts_ok(s, w) {
        return false;
    }
    if !w.queues {
        return false;
    }
    if w.end <= MOST_UNITS {
        return true;
    }
    pool_ok(d)
}

// Where a call that lends so many words of marks finds its controller. Refused, in this order: 1 where there are not as many as marks have or the record is
// unsound, 2 where the identifier is not in the settings.
pub fn locate(d: Device, words: usize, id: u16) -> Result<usize, Refusal>
    ensures { result ≡ where_is d words id }
{
    if words != MARK_WORDS {
        return Err(Refusal::Unsound);
    }
    if !sound(d) {
        return Err(Refusal::Unsound);
    }
    let Some(i) = settings::find(d.settings, id) else {
        return Err(Refusal::Unknown);
    };
    Ok(i)
}

// The same for a call by a manager: 2 also where that manager is not in the settings.
pub fn locate_by(d: Device, words: usize, m: u16, id: u16) -> Result<usize, Refusal>
    ensures { result ≡ where_by d words m id }
{
    let place = locate(d, words, id)?;
    if !settings::is_manager(d.settings, m) {
        return Err(Refusal::Unknown);
    }
    Ok(place)
}
