// The types that the tracking core shares, in the forms that document 01 names. What the rules say of them stands in specs/.
#![tactic(auto)]

ghost use Rattle.std.specs.Prelude.{◌≡◌, replicate};
ghost use Rattle.rules.specs.Refusals.{number_of};
ghost use Rattle.rules.specs.StartData.{no_range};

// The lent words of marks: one pool.
pub const MARK_WORDS: usize = 256;

// The most units that the ranges of all tracked controllers may have together, a bit of the pool each.
pub const MOST_UNITS: u64 = 16384;

// The most records of a batch.
pub const MOST_NOTES: usize = 1024;

// The bytes of the lent area for a controller's state, and the most that a state may have.
pub const STATE_BYTES: usize = 4096;

// The bytes of an entry of a queue, and so of each of its places.
pub const ENTRY_BYTES: usize = 32;

// The most places of a queue.
pub const MOST_PLACES: usize = 1024;

// A length in units.
#[derive(Clone, Copy)]
pub struct Units(pub u64);

// A length in bytes.
#[derive(Clone, Copy)]
pub struct Bytes(pub u64);

// A listed range: its start address, and its length in units as the start structure's 32-bit field holds it.
#[derive(Clone, Copy)]
pub struct Range {
    pub start: u64,
    pub length: u32,
}

// Either not tracked, or tracked with a granularity and a number of ranges. No Option, as document 01 names this enum.
#[derive(Clone, Copy)]
pub enum Tracking {
    Off,
    On(u8, u8),
}

// A queue of user-data changes: its places; the totals of entries posted and taken since it was made, which go on from 0 past 2^32 - 1; the place of the oldest
// queued entry; and whether logging has stopped, so that the newest entry is the closing one.
#[derive(Clone, Copy)]
pub struct Ring {
    pub size: u16,
    pub posted: u32,
    pub taken: u32,
    pub place: u16,
    pub stopped: bool,
}

// A migratable controller. Tracked, it says which manager tracks it; its marks stand from bit `base` of the pool on, and of its ranges the first so many are in use as its
// tracking says. Of one that is off, none of these is looked at. Its queue is there once it was made.
#[derive(Clone, Copy)]
pub struct Controller {
    pub tracking: Tracking,
    pub manager: u16,
    pub base: u16,
    pub suspended: bool,
    pub ranges: [Range; 16],
    pub queue: Option<Ring>,
}

// Where a controller's marks lie in the pool: as many bits as it has units, from its base on. A share of no bits is nowhere.
#[derive(Clone, Copy)]
pub struct Share {
    pub base: usize,
    pub size: usize,
}

// A managing controller beside the first (document 02, W12): its identifier and its descriptor limit.
#[derive(Clone, Copy)]
pub struct Second {
    pub id: u16,
    pub limit: u16,
}

// The settings: the first manager and its limit, a second one if there is one, the limit over both. Of the identifiers the first `count` are in use.
#[derive(Clone, Copy)]
pub struct Settings {
    pub manager: u16,
    pub least: u8,
    pub greatest: u8,
    pub powers: bool,
    pub limit: u16,
    pub second: Option<Second>,
    pub shelf: u16,
    pub count: usize,
    pub identifiers: [u16; 8],
}

// A controller's state that arrives in parts: the identifier of its controller, and the byte at which the parts so far end.
#[derive(Clone, Copy)]
pub struct Sequence {
    pub owner: u16,
    pub end: u16,
}

// The device record. The controllers stand in the order of their identifiers in the settings; a sequence of parts is there while one is under way.
#[derive(Clone, Copy)]
pub struct Device {
    pub settings: Settings,
    pub controllers: [Controller; 8],
    pub sequence: Option<Sequence>,
}

// A start structure's header: its granularity and its count of ranges, or a refusal's number and the byte where reading stopped. No Result, as document 01 names the reader's
// enum, and the definition `header_of` with the theorems over it (`Structures`) speaks of its number and byte.
#[derive(Clone, Copy)]
pub enum Header {
    Is(u8, u32),
    Refused(u8, usize),
}

// A start structure as its reader answers it: zeros stand in the ranges that it does not list.
#[derive(Clone, Copy)]
pub struct StartData {
    pub header: Header,
    pub ranges: [Range; 16],
}

// Why something is refused, with the number that document 01 or 02 gives it.
#[derive(Clone, Copy, Debug, PartialEq, Eq)]
pub enum Refusal {
    // the record is unsound, or the marks or the area have another size
    Unsound = 1,
    // an identifier that the settings lack
    Unknown = 2,
    // the controller is tracked already
    Tracked = 3,
    // the controller is suspended
    Suspended = 4,
    // the controller is not tracked, or by the other manager
    Untracked = 5,
    // a structure of another version
    Version = 6,
    // a granularity outside the settings
    Granularity = 7,
    // too few bytes
    Short = 8,
    // more to report, and no descriptor
    Empty = 9,
    // a length that is no power of two
    Power = 10,
    // more units than the pool has
    Units = 11,
    // past the manager's descriptor limit
    Limit = 12,
    // the controller is not suspended
    Running = 13,
    // a written range that ends past 2^64
    PastEnd = 14,
    // another type of suspend
    Kind = 15,
    // settings that break their rules
    Settings = 16,
    // a bad descriptor
    Descriptor = 17,
    // no range, or more than 16
    Ranges = 18,
    // a range of length 0
    NoUnits = 19,
    // a range off its unit
    Unaligned = 20,
    // a range that ends past 2^64
    RangeEnd = 21,
    // a batch of more than 1,024 records
    Records = 22,
    // another controller's sequence
    Others = 23,
    // an offset that is no whole dwords of the area
    Offset = 24,
    // an indicator, a count or data that do not fit
    Data = 25,
    // a part out of sequence
    Order = 26,
    // past the area, or no finished state
    State = 27,
    // no area of a queue's size
    Area = 28,
    // no queue was made
    NoQueue = 29,
    // logging has stopped
    Stopped = 30,
    // a file with another mark
    Mark = 31,
    // a file of another version
    FileVersion = 32,
    // an index past the last descriptor
    Index = 33,
    // past the shelf's descriptor limit
    Shelf = 34,
    // a file of another length
    FileLength = 35,
}

impl Refusal {
    // Its number.
    pub fn number(self) -> u8
        ensures { result ≡ number_of self }
    {
        self as u8
    }
}

// Why listed ranges are refused, and the row that this is about, 0 where it is about them all.
#[derive(Clone, Copy, Debug, PartialEq, Eq)]
pub struct RowRefusal {
    pub refusal: Refusal,
    pub row: u8,
}

impl From<Refusal> for RowRefusal {
    ghost from_gives = { λ r at. at ≡ record { refusal = r; row = 0 } };

    fn from(refusal: Refusal) -> RowRefusal {
        RowRefusal { refusal, row: 0 }
    }
}

// No range: zeros in all places.
pub fn no_ranges() -> [Range; 16]
    ensures { result ≡ replicate 16 no_range }
{
    [Range {
        start: 0,
        length: 0,
    }; 16]
}
