// A line of the session listing of document 01, read: the call that it asks for, or that it is bad.
// Any bytes are met with an answer. Nothing here plays a call.
#![tactic(auto)]

ghost use Rattle.std.specs.Prelude.{◌≡◌, [], ◌+◌, ◌*◌, ◌/◌, ◌≤◌, ◌<◌, length, get_or, replicate};
ghost use Rattle.little.specs.Little.{put, records_at};
ghost use Rattle.rules.specs.StartData.{placed};
ghost use Rattle.listing.specs.Listing.{word_of, most_at, plain_line, pair_at, line_of};
ghost use Rattle.listing.specs.Inner.{gathered, Fit, taken_line};

use fields::Fields;
use rules::Range;

// What a line asks for. `Dev` has its number of identifiers last, `Start` its number of pairs: they stand beside the call. `Bad` is no None, as it is the
// listing's own word, and `CallsAre` speaks of `line_of`, which has it.
#[derive(Clone, Copy)]
pub enum Call {
    Bad,
    Dev {
        manager: u16,
        least: u8,
        greatest: u8,
        powers: bool,
        limit: u16,
        count: usize,
    },
    Start {
        id: u16,
        granularity: u8,
        count: usize,
    },
    Stop(u16),
    Write {
        id: u16,
        address: u64,
        bytes: u64,
    },
    Recv {
        id: u16,
        size: usize,
    },
    Susp {
        id: u16,
        kind: u8,
    },
    Resume(u16),
}

// A line: its call, the identifiers of a `dev` and the pairs of a `start`; zeros in the places after them.
#[derive(Clone, Copy)]
pub struct Line {
    pub call: Call,
    pub identifiers: [u16; 8],
    pub ranges: [Range; 16],
}

// The word that a line starts with. `Other` is no None, as `most_at`, `takes_count` and `call_line` of specs/Listing.antt name it.
#[derive(Clone, Copy)]
pub enum Word {
    Dev,
    Start,
    Stop,
    Write,
    Recv,
    Susp,
    Resume,
    Other,
}

// ---- words

// The word that a field is.
#[tactic(auto, using(crate::proofs::WordLaws::word_of_reads, std::proofs::lemmas::Bool::Decides::nat_tests))]
fn word_of(field: &[u8]) -> Word
    ensures { result ≡ word_of field.now }
{
    match field {
        b"dev" => Word::Dev,
        b"start" => Word::Start,
        b"stop" => Word::Stop,
        b"write" => Word::Write,
        b"recv" => Word::Recv,
        b"susp" => Word::Susp,
        b"resume" => Word::Resume,
        _ => Word::Other,
    }
}

// The greatest number that the place `i` after a word takes.
fn greatest(word: Word, i: usize) -> u64
    ensures { result ≡ most_at word i }
{
    match (word, i) {
        (Word::Dev, 0 | 4..) => 65535,
        (Word::Dev, 1 | 2) => 255,
        (Word::Dev, 3) => 1,
        (Word::Start | Word::Write | Word::Recv | Word::Susp, 0) => 65535,
        (Word::Start, 1) => 255,
        (Word::Start, 2..) if i % 2 == 0 => u64::MAX,
        (Word::Start, 2..) => 4294967295,
        (Word::Write, 1..) => u64::MAX,
        (Word::Recv, 1..) => 4096,
        (Word::Susp, 1..) => 255,
        (Word::Stop | Word::Resume, _) => 65535,
        (Word::Other, _) => 0,
    }
}

// Puts the numbers that the fields after a word spell into `values`, up to the first that is none, or does not fit, or has no place; how many there are, where
// each field is a number that fits.
fn read_numbers(fields: Fields, word: Word, values: &mut [u64; 34]) -> Option<usize>
    ensures answer { result ≡ (gathered word 0 values.old fields.entry).answer }
    ensures values { values.new ≡ (gathered word 0 values.old fields.entry).values }
{
    let mut count = 0;
    for field in fields {
        if count == values.len() {
            return None;
        }
        values[count] = fields::read_number(field, greatest(word, count))?;
        count += 1;
    }
    Some(count)
}

// ---- calls

// The identifiers of a `dev`.
fn identifiers_of(numbers: &[u64]) -> [u16; 8]
    requires few { length numbers.now ≤ 8 }
    requires fit { (k : _) → k < length numbers.now → get_or numbers.now k 0 ≤ 65535 }
    ensures { result ≡ put (replicate 8 0) 0 numbers.now }
{
    let mut identifiers = [0; 8];
    for (i, number) in numbers.iter().enumerate() {
        identifiers[i] = *number as u16;
    }
    identifiers
}

// The pairs of a `start`.
fn ranges_of(numbers: &[u64]) -> [Range; 16]
    requires few { length numbers.now ≤ 32 }
    requires fit { (k : _) → k < length numbers.now / 2 → get_or numbers.now (2 * k + 1) 0 ≤ 4294967295 }
    ensures { result ≡ placed (records_at pair_at 2 numbers.now 0 (length numbers.now / 2)) }
{
    let mut ranges = rules::no_ranges();
    for i in 0..numbers.len() / 2 {
        ranges[i] = Range {
            start: numbers[2 * i],
            length: numbers[2 * i + 1] as u32,
        };
    }
    ranges
}

// A line with a call that neither lists identifiers nor pairs.
fn plain(call: Call) -> Line
    ensures { result ≡ plain_line call }
{
    Line {
        call,
        identifiers: [0; 8],
        ranges: rules::no_ranges(),
    }
}

// The line of a word with its numbers, if it takes so many.
fn line_of(word: Word, numbers: &[u64]) -> Line
    requires { Fit word numbers.now }
    ensures { result ≡ taken_line word numbers.now }
{
    match (word, numbers) {
        (Word::Dev, [manager, least, greatest, powers, limit, identifiers @ ..])
            if identifiers.len() <= 8 => {
            Line {
                call: Call::Dev {
                    manager: *manager as u16,
                    least: *least as u8,
                    greatest: *greatest as u8,
                    powers: *powers == 1,
                    limit: *limit as u16,
                    count: identifiers.len(),
                },
                identifiers: identifiers_of(identifiers),
                ranges: rules::no_ranges(),
            }
        }
        (Word::Start, [id, granularity, pairs @ ..]) if pairs.len() <= 32 && pairs.len() % 2 == 0 =>
            {
                Line {
                    call: Call::Start {
                        id: *id as u16,
                        granularity: *granularity as u8,
                        count: pairs.len() / 2,
                    },
                    identifiers: [0; 8],
                    ranges: ranges_of(pairs),
                }
            }
        (Word::Stop, [id]) => plain(Call::Stop(*id as u16)),
        (Word::Write, [id, address, bytes]) => plain(Call::Write {
            id: *id as u16,
            address: *address,
            bytes: *bytes,
        }),
        (Word::Recv, [id, size]) => plain(Call::Recv {
            id: *id as u16,
            size: *size as usize,
        }),
        (Word::Susp, [id, kind]) => plain(Call::Susp {
            id: *id as u16,
            kind: *kind as u8,
        }),
        (Word::Resume, [id]) => plain(Call::Resume(*id as u16)),
        _ => plain(Call::Bad),
    }
}

// What a line asks for, the line feed not among its bytes. Bad: more than 1,023 bytes, a word that is none of the seven, a field that is no number or one
// that does not fit, too few or too many of them.
pub fn read_line(line: &[u8]) -> Line
    ensures { result ≡ line_of line.now }
{
    if line.len() > 1023 {
        return plain(Call::Bad);
    }
    let (first, fields) = fields::split(line);
    let word = word_of(first);
    let mut values = [0; 34];
    match read_numbers(fields, word, &mut values) {
        Some(count) => line_of(word, &values[..count]),
        None => plain(Call::Bad),
    }
}
