// What the calls answer with, and what each answers and leaves, in specs/Calls.antt: any record, marks of any length, any bytes and any numbers are met
// with an answer, and nothing is required of the caller. A refused call returns its number with zeros for everything else, and changes neither record,
// marks nor buffer. The order of refusals is document 01's, first hit answers.
#![tactic(auto)]

ghost use Rattle.std.specs.Prelude.{◌≡◌, length};
ghost use Rattle.calls.specs.Inner.{tracking_by, changed_by, started_by, written_by, received_by, state_set_by, posted_by, taken_by};

use rules::{Bytes, Controller, Device, Range, Refusal, RowRefusal, Tracking};

// ---- The answers. Each has its number beside its values and is no Result, as `CallsAre` and `Determinacy` of crates/demands/specs speak of these fields, and document 01 asks for
// the number with zeros. What a call comes to inside is a Result (`changed_by` and its like, below).

// The answer of a call that may change the record: its number, and the record as it is afterwards.
#[derive(Clone, Copy)]
pub struct Changed {
    pub number: u8,
    pub device: Device,
}

// The answer of a start: its number, the row of the range that it was refused for (W3), and the record as it is afterwards.
#[derive(Clone, Copy)]
pub struct Started {
    pub number: u8,
    pub row: u8,
    pub device: Device,
}

// The answer to a noted write: its number, and how many units were not pending before.
#[derive(Clone, Copy)]
pub struct Written {
    pub number: u8,
    pub count: usize,
}

// A record of a batch: a write that controller `id` made.
#[derive(Clone, Copy)]
pub struct WriteRecord {
    pub id: u16,
    pub address: u64,
    pub bytes: Bytes,
}

// The answer to a batch of notes: its number, how many notes were done, how many units they made pending, and the refusal of the note that cut it, or 0.
#[derive(Clone, Copy)]
pub struct Batched {
    pub number: u8,
    pub done: usize,
    pub count: usize,
    pub refusal: u8,
}

// The answer to a receive: its number, what the report's header says, and how many groups of 64 units were examined (W10).
#[derive(Clone, Copy)]
pub struct Received {
    pub number: u8,
    pub suspended: bool,
    pub more: bool,
    pub granularity: u8,
    pub runs: usize,
    pub groups: usize,
}

// The answer to a part of a state: its number, how many bytes the state has where this was its last part, else 0, and the record as it is afterwards.
#[derive(Clone, Copy)]
pub struct StateSet {
    pub number: u8,
    pub whole: usize,
    pub device: Device,
}

// The answer to a post to a queue: its number, whether it found only one place free, so that logging has stopped, and the record as it is afterwards.
#[derive(Clone, Copy)]
pub struct Posted {
    pub number: u8,
    pub stopped: bool,
    pub device: Device,
}

// The answer to a take from a queue: its number, how many entries were taken, whether the last of them is the closing one, and the record as it is afterwards.
#[derive(Clone, Copy)]
pub struct Taken {
    pub number: u8,
    pub count: usize,
    pub closing: bool,
    pub device: Device,
}

// The ranges of a controller: all sixteen places.
pub fn ranges_of(c: Controller) -> [Range; 16]
    ensures { (result ≡ c.ranges) × (length result ≡ 16) }
{
    c.ranges
}

// How a manager finds a controller tracked: as it is, or not at all where another manager tracks it (W12).
pub fn tracking_by(c: Controller, manager: u16) -> Tracking
    ensures { result ≡ tracking_by manager c.tracking c.manager }
{
    if c.manager == manager {
        c.tracking
    } else {
        Tracking::Off
    }
}

// ---- What a call answers, by its outcome: of a refused one its refusal's number, the record as it was, and zeros for everything else.

// Of a call that changes the record.
pub fn changed_by(d: Device, outcome: Result<Device, Refusal>) -> Changed
    ensures { result ≡ changed_by d outcome }
{
    match outcome {
        Ok(device) => Changed { number: 0, device },
        Err(refusal) => Changed {
            number: refusal.number(),
            device: d,
        },
    }
}

// Of a start.
pub fn started_by(d: Device, outcome: Result<Device, RowRefusal>) -> Started
    ensures { result ≡ started_by d outcome }
{
    match outcome {
        Ok(device) => Started {
            number: 0,
            row: 0,
            device,
        },
        Err(refused) => Started {
            number: refused.refusal.number(),
            row: refused.row,
            device: d,
        },
    }
}

// Of a noted write, which made so many units pending.
pub fn written_by(outcome: Result<usize, Refusal>) -> Written
    ensures { result ≡ written_by outcome }
{
    match outcome {
        Ok(count) => Written { number: 0, count },
        Err(refusal) => Written {
            number: refusal.number(),
            count: 0,
        },
    }
}

// Of a receive.
pub fn received_by(outcome: Result<Received, Refusal>) -> Received
    ensures { result ≡ received_by outcome }
{
    match outcome {
        Ok(answer) => answer,
        Err(refusal) => Received {
            number: refusal.number(),
            suspended: false,
            more: false,
            granularity: 0,
            runs: 0,
            groups: 0,
        },
    }
}

// Of a part of a state.
pub fn state_set_by(d: Device, outcome: Result<StateSet, Refusal>) -> StateSet
    ensures { result ≡ state_set_by d outcome }
{
    match outcome {
        Ok(answer) => answer,
        Err(refusal) => StateSet {
            number: refusal.number(),
            whole: 0,
            device: d,
        },
    }
}

// Of a post.
pub fn posted_by(d: Device, outcome: Result<Posted, Refusal>) -> Posted
    ensures { result ≡ posted_by d outcome }
{
    match outcome {
        Ok(answer) => answer,
        Err(refusal) => Posted {
            number: refusal.number(),
            stopped: false,
            device: d,
        },
    }
}

// Of a take.
pub fn taken_by(d: Device, outcome: Result<Taken, Refusal>) -> Taken
    ensures { result ≡ taken_by d outcome }
{
    match outcome {
        Ok(answer) => answer,
        Err(refusal) => Taken {
            number: refusal.number(),
            count: 0,
            closing: false,
            device: d,
        },
    }
}
