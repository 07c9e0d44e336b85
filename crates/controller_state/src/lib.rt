// The call that takes a part of a controller's state (NVMe: Migration Send, Set Controller State). Its contract is an equation with `part_change` of the calls: it
// says every returned value, every field of the record and every byte of the area afterwards. The whole is judged before anything is stored.
#![tactic(auto)]

ghost use Rattle.std.specs.Prelude.{◌≡◌, ◌+◌, ◌*◌, ◌^◌, ◌≤◌, length};
ghost use Rattle.rules.specs.Refusals.{refusal, refused_by};
ghost use Rattle.rules.specs.Order.{first_by, last_by, is_offset, are_counted, part_tests};
ghost use Rattle.std.specs.declared.option.Option.TheVariants.{Some};
ghost use Rattle.record.specs.Record.{others_in, arriving_in};
ghost use Rattle.calls.specs.Calls.{part_change};
ghost use Rattle.calls.specs.Inner.{state_set_by};
ghost use Rattle.controller_state.specs.Inner.{part_of, is_next, ended_at};

use calls::StateSet;
use rules::{Device, Refusal, STATE_BYTES, Sequence};

// ---- a part by itself

// A part of a state, as it is sent.
#[derive(Clone, Copy)]
pub struct Part<'a> {
    pub indicator: u8,
    pub low: u32,
    pub high: u32,
    pub count: u32,
    pub bytes: &'a [u8],
}

impl Part<'_> {
    // Whether it is a first or only part.
    fn is_first(self) -> bool
        ensures { result ≡ first_by self.entry.indicator }
    {
        self.indicator == 1 || self.indicator == 3
    }

    // Whether it is a last or only part.
    fn is_last(self) -> bool
        ensures { result ≡ last_by self.entry.indicator }
    {
        self.indicator == 2 || self.indicator == 3
    }

    // Whether its offset, in two words, is whole dwords and within the area. With its higher word set it is past any area.
    fn offset_ok(self) -> bool
        ensures { result ≡ is_offset (self.entry.low + 2 ^ 32 * self.entry.high) }
    {
        self.high == 0 && self.low <= 4096 && self.low % 4 == 0
    }

    // Whether its indicator has two bits, no dwords come with 10b alone, and its bytes are the dwords that are counted.
    fn data_ok(self) -> bool
        ensures { result ≡ are_counted self.entry.indicator self.entry.count (length self.entry.bytes.now) }
    {
        self.indicator <= 3
            && (self.count != 0 || self.indicator == 2)
            && self.bytes.len() == 4 * (self.count as usize)
    }
}

// ---- a part and the sequence

// Whether a sequence is another controller's.
fn is_others(q: Option<Sequence>, id: u16) -> bool
    ensures { result ≡ others_in id q }
{
    q.is_some_and(|open| open.owner != id)
}

// Whether a part follows: a first or only one begins at 0, any other where the controller's own sequence ends.
fn is_next(q: Option<Sequence>, id: u16, part: Part<'_>) -> bool
    ensures { result ≡ is_next q id part.entry.indicator part.entry.low }
{
    if part.is_first() {
        part.low == 0
    } else {
        q.is_some_and(|open| open.owner == id && part.low == open.end as u32)
    }
}

// Why a part is refused by itself or by the sequence, the first of 23 to 27: another's sequence, offset, data, out of sequence, past the area or no finished state.
fn part_refusal(q: Option<Sequence>, id: u16, area: &[u8], part: Part<'_>) -> Result<(), Refusal>
    requires { (length area.now ≡ 4096) × ((owner end : _) → q ≡ Some (record { owner = owner; end = end }) → end ≤ 4096) }
    ensures { refused_by result ≡ refusal (part_tests (arriving_in q area.now id) (part_of part.entry)) }
{
    if is_others(q, id) {
        return Err(Refusal::Others);
    }
    if !part.offset_ok() {
        return Err(Refusal::Offset);
    }
    if !part.data_ok() {
        return Err(Refusal::Data);
    }
    if !is_next(q, id, part) {
        return Err(Refusal::Order);
    }
    let offset = part.low as usize;
    if part.bytes.len() > STATE_BYTES - offset {
        return Err(Refusal::State);
    }
    if part.is_last() && !state_bytes::judge(area, offset, part.bytes) {
        return Err(Refusal::State);
    }
    Ok(())
}

// ---- the call

// The answer to an accepted part that ends at byte `end`.
fn accepted(d: Device, id: u16, part: Part<'_>, end: usize) -> StateSet
    requires { end ≤ 4096 }
    ensures { result ≡ ended_at d id part.entry.indicator end }
{
    let (whole, sequence) = if part.is_last() {
        (end, None)
    } else {
        let end = end as u16;
        (0, Some(Sequence { owner: id, end }))
    };
    StateSet {
        number: 0,
        whole,
        device: Device { sequence, ..d },
    }
}

// What a part comes to.
fn try_set_state(
    d: Device,
    words: usize,
    area: &mut [u8],
    manager: u16,
    id: u16,
    part: Part<'_>,
) -> Result<StateSet, Refusal>
    ensures { (state_set_by d result ≡ (part_change d words area.old manager id (part_of part.entry)).answer)
        × (area.new ≡ (part_change d words area.old manager id (part_of part.entry)).area) }
{
    if area.len() != STATE_BYTES {
        return Err(Refusal::Unsound);
    }
    let i = record::locate_by(d, words, manager, id)?;
    if !d.controllers[i].suspended {
        return Err(Refusal::Running);
    }
    part_refusal(d.sequence, id, area, part)?;
    let offset = part.low as usize;
    state_bytes::store(area, offset, part.bytes);
    Ok(accepted(d, id, part, offset + part.bytes.len()))
}

// `set_state` on marks of so many words, however they are held.
pub fn set_state_on(
    d: Device,
    words: usize,
    area: &mut [u8],
    manager: u16,
    id: u16,
    indicator: u8,
    low: u32,
    high: u32,
    count: u32,
    data: &[u8],
) -> StateSet
    ensures { (result
        ≡ (part_change d words area.old manager id (record { indicator = indicator; low = low; high = high; count = count; bytes = «data».now })).answer)
        × (area.new
        ≡ (part_change d words area.old manager id (record { indicator = indicator; low = low; high = high; count = count; bytes = «data».now })).area) }
{
    let part = Part {
        indicator,
        low,
        high,
        count,
        bytes: data,
    };
    let outcome = try_set_state(d, words, area, manager, id, part);
    calls::state_set_by(d, outcome)
}

// Takes a part of a controller's state, whichever manager sends it: its data go into the area at their offset. The last or only part of a sequence ends it, and answers how many bytes the state
// has: the area's first so many. Refused, in this order: 1 (also an area of another size), 2 (also an unknown manager), 13 running, 23 another controller's sequence, 24 offset, 25 indicator,
// count or data, 26 out of sequence, 27 past the area or no finished state.
pub fn set_state(
    d: Device,
    marks: &[u64],
    area: &mut [u8],
    manager: u16,
    id: u16,
    indicator: u8,
    low: u32,
    high: u32,
    count: u32,
    data: &[u8],
) -> StateSet
    ensures { (result
        ≡ (part_change d (length marks.now) area.old manager id (record { indicator = indicator; low = low; high = high; count = count; bytes = «data».now })).answer)
        × (area.new
        ≡ (part_change d (length marks.now) area.old manager id (record { indicator = indicator; low = low; high = high; count = count; bytes = «data».now })).area) }
{
    set_state_on(
        d,
        marks.len(),
        area,
        manager,
        id,
        indicator,
        low,
        high,
        count,
        data,
    )
}
