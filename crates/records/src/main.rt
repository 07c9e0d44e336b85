// The records program: reads cases from standard input to its end, and answers each on standard output. A case is a device record of any kind, sound
// or not, with lent marks, lent bytes and one call. The calls are those of `engines`, for either engine; here stand only the bytes of a case and of its answer, little-endian.
//
// A case has 3056 bytes: the record (1755 bytes: settings, from 38 on 8 controllers of 214 bytes, from 1750 on the sequence), how many mark words are lent (2)
// and their mark (8), the call (1, at 1765), which manager makes it (2), its identifier (2), address (8), length in bytes (8) and type (1), how many bytes are
// lent (2), these (1024; those past them are zeros), how many records a batch has (2), a part's indicator (1), low and high (4 each) and count (4), how many bytes of
// area are lent (2), what is in those past the first 64 (1), these 64, how many entries a take asks for (4), from which byte on an area is shown (2), whether the
// engine is the plain one (1, at 2901), how many bytes are lent to that in place of mark words (2) and what pending ones hold (1), zeros.
// An answer has 11131: the number (1), a start's row (1), the count of a write or a batch (8), a receive's suspended, more and granularity (1 each) and runs (8),
// how many notes a batch did (8) and what cut it (1), how many bytes a part yields (8), whether a post has stopped its queue (1), how many entries a take took
// (8) and whether the closing one (1), how many groups a receive examined (8), then the record (1755), 512 mark words (of the plain engine a bit for each byte, set where it is pending), 1024 lent bytes
// and 4200 bytes of area as they are after the call, with zeros past the lent ones.
#![tactic(auto)]

ghost use Rattle.std.specs.Prelude.{◌≤◌};

use calls::{Changed, Posted, Received, Started, StateSet, WriteRecord};
use engines::{Engine, Plain, Words};
use output::Buffer;
use rules::{Bytes, Controller, Device, Range, Ring, Second, Sequence, Settings, Tracking};
use std::io;
use std::io::{Read, Write};

// The bytes of a case.
const CASE: usize = 3056;

// The most records of a batch that a case may have: one more than a batch may.
const RECORDS: usize = 1025;

// The bytes of a row of the lent bytes, a record of a batch; and of all rows that begin in those that a case has room for.
const ROW: usize = 18;

const ROWS: usize = 1026;

// The lent bytes that a case has room for and an answer shows, and the bytes of an area that an answer shows, zeros where it has fewer.
const LENT: usize = 1024;

const SHOWN: usize = 4200;

const ZEROS: [u8; SHOWN] = [0; SHOWN];

// The call of a case.
#[derive(Clone, Copy, Debug, PartialEq, Eq)]
enum Call {
    Fresh,
    Start,
    Stop,
    Write,
    Receive,
    Suspend,
    Resume,
    Batch,
    Part,
    Make,
    Post,
    Take,
}

impl From<u8> for Call {
    // A call past the form is taken for the last one.
    fn from(code: u8) -> Call {
        match code {
            0 => Call::Fresh,
            1 => Call::Start,
            2 => Call::Stop,
            3 => Call::Write,
            4 => Call::Receive,
            5 => Call::Suspend,
            6 => Call::Resume,
            7 => Call::Batch,
            8 => Call::Part,
            9 => Call::Make,
            10 => Call::Post,
            _ => Call::Take,
        }
    }
}

impl Call {
    // Whether it is one to a queue.
    fn is_to_queue(self) -> bool {
        matches!(self, Call::Make | Call::Post | Call::Take)
    }

    // Whether it has an area of its own, beside the marks.
    fn has_area(self) -> bool {
        self == Call::Part || self.is_to_queue()
    }
}

// A case, in the order of its bytes. How many are lent: `words` of marks, the plain engine's `units` in their place, `size` bytes and an `area`; a batch has so many
// `records`. An area is shown `from` a byte on.
#[derive(Drop)]
struct Case {
    device: Device,
    words: usize,
    mark: u64,
    call: Call,
    by: u16,
    id: u16,
    address: u64,
    length: Bytes,
    kind: u8,
    size: usize,
    lent: [u8; LENT],
    records: usize,
    indicator: u8,
    low: u32,
    high: u32,
    count: u32,
    area: usize,
    fill: u8,
    front: [u8; 64],
    asked: u32,
    from: usize,
    plain: bool,
    units: usize,
    pending: u8,
}

// What a call answers, and the record after it. The row is a start's, the count a write's or a batch's, `done` and `cut` a batch's, `whole` a part's, `stopped` a
// post's, `taken` and `closing` a take's, and what was received is a receive's: zeros, beside the number, where it is none.
#[derive(Drop)]
struct Answer {
    received: Received,
    row: u8,
    count: usize,
    done: usize,
    cut: u8,
    whole: usize,
    stopped: bool,
    taken: usize,
    closing: bool,
    device: Device,
}

// ---- a case, read

// What is left to read of some bytes.
#[derive(Drop)]
struct Rest<'a> {
    bytes: &'a [u8],
}

impl Rest<'_> {
    // The next bytes, of a number mostly: zeros, where fewer are left.
    fn next<const N: usize>(&mut self) -> [u8; N] {
        let Some((next, rest)) = self.bytes.split_first_chunk() else {
            return [0; N];
        };
        self.bytes = rest;
        *next
    }

    // The next byte.
    fn byte(&mut self) -> u8 {
        u8::from_le_bytes(self.next())
    }

    // A flag: every byte but 0 sets it.
    fn flag(&mut self) -> bool {
        self.byte() != 0
    }

    // A number of 2 bytes.
    fn short(&mut self) -> u16 {
        u16::from_le_bytes(self.next())
    }

    // A number of 4 bytes.
    fn word(&mut self) -> u32 {
        u32::from_le_bytes(self.next())
    }

    // A number of 8 bytes.
    fn long(&mut self) -> u64 {
        u64::from_le_bytes(self.next())
    }

    // How many there are.
    fn count(&mut self) -> usize {
        usize::from(self.short())
    }

    fn settings(&mut self) -> Settings {
        Settings {
            manager: self.short(),
            least: self.byte(),
            greatest: self.byte(),
            powers: self.flag(),
            limit: self.short(),
            second: self.second(),
            shelf: self.short(),
            count: self.long() as usize,
            identifiers: self.identifiers(),
        }
    }

    // The second manager. Where there is none, its bytes say nothing.
    fn second(&mut self) -> Option<Second> {
        let there = self.flag();
        let second = Second {
            id: self.short(),
            limit: self.short(),
        };
        there.then_some(second)
    }

    fn identifiers(&mut self) -> [u16; 8] {
        let mut identifiers = [0; 8];
        for id in &mut identifiers {
            *id = self.short();
        }
        identifiers
    }

    fn controller(&mut self) -> Controller {
        let tracking = self.tracking();
        let suspended = self.flag();
        let base = self.short();
        let manager = self.short();
        let queue = self.queue();
        let ranges = self.ranges();
        Controller {
            tracking,
            manager,
            base,
            suspended,
            ranges,
            queue,
        }
    }

    fn tracking(&mut self) -> Tracking {
        let there = self.flag();
        let granularity = self.byte();
        let count = self.byte();
        if there {
            Tracking::On(granularity, count)
        } else {
            Tracking::Off
        }
    }

    fn queue(&mut self) -> Option<Ring> {
        let there = self.flag();
        let ring = Ring {
            size: self.short(),
            posted: self.word(),
            taken: self.word(),
            place: self.short(),
            stopped: self.flag(),
        };
        there.then_some(ring)
    }

    fn ranges(&mut self) -> [Range; 16] {
        let mut ranges = rules::no_ranges();
        for range in &mut ranges {
            *range = Range {
                start: self.long(),
                length: self.word(),
            };
        }
        ranges
    }

    fn sequence(&mut self) -> Option<Sequence> {
        let there = self.flag();
        let sequence = Sequence {
            owner: self.short(),
            end: self.short(),
        };
        there.then_some(sequence)
    }

    fn device(&mut self) -> Device {
        let settings = self.settings();
        let first = self.controller();
        let mut controllers = [first; 8];
        for controller in &mut controllers[1..] {
            *controller = self.controller();
        }
        let sequence = self.sequence();
        Device {
            settings,
            controllers,
            sequence,
        }
    }

    fn case(&mut self) -> Case {
        Case {
            device: self.device(),
            words: self.count(),
            mark: self.long(),
            call: Call::from(self.byte()),
            by: self.short(),
            id: self.short(),
            address: self.long(),
            length: Bytes(self.long()),
            kind: self.byte(),
            size: self.count(),
            lent: self.next(),
            records: self.count(),
            indicator: self.byte(),
            low: self.word(),
            high: self.word(),
            count: self.word(),
            area: self.count(),
            fill: self.byte(),
            front: self.next(),
            asked: self.word(),
            from: self.count(),
            plain: self.flag(),
            units: self.count(),
            pending: self.byte(),
        }
    }

    // A record of a batch.
    fn record(&mut self) -> WriteRecord {
        WriteRecord {
            id: self.short(),
            address: self.long(),
            bytes: Bytes(self.long()),
        }
    }
}

// As many records as a batch can be handed: the rows of the lent bytes, again and again.
fn records_of(lent: &[u8]) -> [WriteRecord; RECORDS] {
    let none = Rest { bytes: &[] }.record();
    let mut records = [none; RECORDS];
    let rows = &lent[..lent.len().min(ROWS)];
    for (record, row) in records.iter_mut().zip(rows.chunks(ROW).cycle()) {
        *record = Rest { bytes: row }.record();
    }
    records
}

// ---- an answer, written

// Writes the bytes of a number, or of some. A write takes longer than its bytes, so what is many is written some at once.
fn put<W: Write, const N: usize>(out: &mut W, bytes: [u8; N]) -> io::Result<()> {
    out.write_all(&bytes)
}

fn put_settings<W: Write>(out: &mut W, s: &Settings) -> io::Result<()> {
    put(out, s.manager.to_le_bytes())?;
    put(out, [s.least, s.greatest, u8::from(s.powers)])?;
    put(out, s.limit.to_le_bytes())?;
    put_second(out, s.second)?;
    put(out, s.shelf.to_le_bytes())?;
    put(out, s.count.to_le_bytes())?;
    for id in &s.identifiers {
        put(out, id.to_le_bytes())?;
    }
    Ok(())
}

fn put_second<W: Write>(out: &mut W, second: Option<Second>) -> io::Result<()> {
    match second {
        None => put(out, [0; 5]),
        Some(Second { id, limit }) => {
            put(out, [1])?;
            put(out, id.to_le_bytes())?;
            put(out, limit.to_le_bytes())
        }
    }
}

fn put_controller<W: Write>(out: &mut W, c: &Controller) -> io::Result<()> {
    put_tracking(out, c.tracking)?;
    put(out, [u8::from(c.suspended)])?;
    put(out, c.base.to_le_bytes())?;
    put(out, c.manager.to_le_bytes())?;
    put_queue(out, c.queue)?;
    for range in &c.ranges {
        let mut bytes = [0u8; 12];
        bytes[..8].copy_from_slice(&range.start.to_le_bytes());
        bytes[8..].copy_from_slice(&range.length.to_le_bytes());
        put(out, bytes)?;
    }
    Ok(())
}

fn put_tracking<W: Write>(out: &mut W, tracking: Tracking) -> io::Result<()> {
    match tracking {
        Tracking::Off => put(out, [0; 3]),
        Tracking::On(granularity, count) => put(out, [1, granularity, count]),
    }
}

fn put_queue<W: Write>(out: &mut W, queue: Option<Ring>) -> io::Result<()> {
    match queue {
        None => put(out, [0; 14]),
        Some(ring) => {
            put(out, [1])?;
            put(out, ring.size.to_le_bytes())?;
            put(out, ring.posted.to_le_bytes())?;
            put(out, ring.taken.to_le_bytes())?;
            put(out, ring.place.to_le_bytes())?;
            put(out, [u8::from(ring.stopped)])
        }
    }
}

fn put_sequence<W: Write>(out: &mut W, sequence: Option<Sequence>) -> io::Result<()> {
    match sequence {
        None => put(out, [0; 5]),
        Some(Sequence { owner, end }) => {
            put(out, [1])?;
            put(out, owner.to_le_bytes())?;
            put(out, end.to_le_bytes())
        }
    }
}

fn put_device<W: Write>(out: &mut W, d: &Device) -> io::Result<()> {
    put_settings(out, &d.settings)?;
    for controller in &d.controllers {
        put_controller(out, controller)?;
    }
    put_sequence(out, d.sequence)
}

// Writes what a call answers, and the record after it.
fn put_answer<W: Write>(out: &mut W, a: &Answer) -> io::Result<()> {
    let r = &a.received;
    put(out, [r.number, a.row])?;
    put(out, a.count.to_le_bytes())?;
    put(
        out,
        [u8::from(r.suspended), u8::from(r.more), r.granularity],
    )?;
    put(out, r.runs.to_le_bytes())?;
    put(out, a.done.to_le_bytes())?;
    put(out, [a.cut])?;
    put(out, a.whole.to_le_bytes())?;
    put(out, [u8::from(a.stopped)])?;
    put(out, a.taken.to_le_bytes())?;
    put(out, [u8::from(a.closing)])?;
    put(out, r.groups.to_le_bytes())?;
    put_device(out, &a.device)
}

// Writes `count` bytes of those that were lent, from a place on. Past their end are zeros.
fn put_shown<W: Write>(out: &mut W, bytes: &[u8], from: usize, count: usize) -> io::Result<()>
    requires { count ≤ 4200 }
{
    let rest = bytes.get(from..).unwrap_or(&[]);
    let n = rest.len().min(count);
    out.write_all(&rest[..n])?;
    out.write_all(&ZEROS[n..count])
}

// Writes the plain engine's bytes as the bits of 512 words, each set where a byte is not 0.
fn put_bits<W: Write>(out: &mut W, bytes: &[u8]) -> io::Result<()> {
    for some in bytes.chunks(512) {
        let mut bits = [0u8; 64];
        for (bits, eight) in bits.iter_mut().zip(some.chunks(8)) {
            for byte in eight.iter().rev() {
                *bits = (*bits << 1) | u8::from(*byte != 0);
            }
        }
        out.write_all(&bits[..some.len().div_ceil(8).min(64)])?;
    }
    Ok(())
}

// Writes the marks of a case's engine.
fn put_marks<W: Write>(out: &mut W, case: &Case, marks: &[u64], bytes: &[u8]) -> io::Result<()> {
    if case.plain {
        return put_bits(out, bytes);
    }
    for some in marks.chunks(64) {
        let mut bytes = [0u8; 512];
        for (at, word) in bytes.chunks_exact_mut(8).zip(some) {
            at.copy_from_slice(&word.to_le_bytes());
        }
        out.write_all(&bytes[..8 * some.len().min(64)])?;
    }
    Ok(())
}

// Writes what an answer shows of an area: the plain engine's bytes, where its call has no other. A state's is shown from its first byte on.
fn put_area<W: Write>(out: &mut W, case: &Case, bytes: &[u8], area: &[u8]) -> io::Result<()> {
    if case.plain && !case.call.has_area() {
        return put_shown(out, bytes, case.from, SHOWN);
    }
    let from = if case.call.is_to_queue() {
        case.from
    } else {
        0
    };
    put_shown(out, area, from, SHOWN)
}

// ---- the calls

// A number with zeros in a receive's places, for a call that is none.
fn not_received(number: u8) -> Received {
    Received {
        number,
        suspended: false,
        more: false,
        granularity: 0,
        runs: 0,
        groups: 0,
    }
}

impl Answer {
    // That of a call with this number, and zeros beside it.
    fn new(number: u8, device: Device) -> Answer {
        Answer {
            received: not_received(number),
            row: 0,
            count: 0,
            done: 0,
            cut: 0,
            whole: 0,
            stopped: false,
            taken: 0,
            closing: false,
            device,
        }
    }
}

impl From<Changed> for Answer {
    fn from(changed: Changed) -> Answer {
        Answer::new(changed.number, changed.device)
    }
}

impl From<Started> for Answer {
    fn from(started: Started) -> Answer {
        Answer {
            row: started.row,
            ..Answer::new(started.number, started.device)
        }
    }
}

impl From<StateSet> for Answer {
    fn from(set: StateSet) -> Answer {
        Answer {
            whole: set.whole,
            ..Answer::new(set.number, set.device)
        }
    }
}

impl From<Posted> for Answer {
    fn from(posted: Posted) -> Answer {
        Answer {
            stopped: posted.stopped,
            ..Answer::new(posted.number, posted.device)
        }
    }
}

impl From<calls::Taken> for Answer {
    fn from(taken: calls::Taken) -> Answer {
        Answer {
            taken: taken.count,
            closing: taken.closing,
            ..Answer::new(taken.number, taken.device)
        }
    }
}

impl Case {
    // Makes a write: the record stays as given.
    fn write<E: Engine>(&self, engine: &mut E) -> Answer {
        let written = engine.write(self.device, self.id, self.address, self.length);
        Answer {
            count: written.count,
            ..Answer::new(written.number, self.device)
        }
    }

    // Makes a receive: the record stays as given.
    fn receive<E: Engine>(&self, engine: &mut E, buffer: &mut [u8]) -> Answer {
        let received = engine.receive(self.device, self.by, self.id, buffer);
        Answer {
            received,
            ..Answer::new(received.number, self.device)
        }
    }

    // Makes a batch: the record stays as given.
    fn batch<E: Engine>(&self, engine: &mut E, lent: &[u8]) -> Answer {
        let n = self.records.min(RECORDS);
        let batched = engine.batch_of(self.device, records_of(lent), n);
        Answer {
            count: batched.count,
            done: batched.done,
            cut: batched.refusal,
            ..Answer::new(batched.number, self.device)
        }
    }

    // Makes a part.
    fn part<E: Engine>(&self, engine: &E, lent: &[u8], area: &mut [u8]) -> Answer {
        engine
            .set_state(
                self.device,
                area,
                self.by,
                self.id,
                self.indicator,
                self.low,
                self.high,
                self.count,
                lent,
            )
            .into()
    }

    // Makes a case's call on what is lent to it.
    fn answer<E: Engine>(&self, engine: &mut E, lent: &mut [u8], area: &mut [u8]) -> Answer {
        let d = self.device;
        let by = self.by;
        let id = self.id;
        match self.call {
            Call::Fresh => engine.fresh(d.settings).into(),
            Call::Start => engine.start(d, by, id, lent).into(),
            Call::Stop => engine.stop(d, by, id).into(),
            Call::Write => self.write(engine),
            Call::Receive => self.receive(engine, lent),
            Call::Suspend => engine.suspend(d, by, id, self.kind).into(),
            Call::Resume => engine.resume(d, by, id).into(),
            Call::Batch => self.batch(engine, lent),
            Call::Part => self.part(engine, lent, area),
            Call::Make => engine.make_queue(d, id, area).into(),
            Call::Post => engine.post(d, area, id, lent).into(),
            Call::Take => engine.take(d, area, id, self.asked, lent).into(),
        }
    }
}

// ---- what is lent

// The lent mark word `i`: the mark rotated left by `i` modulo 64 bits, so that a share that moves by whole words is seen too.
fn mark_word(mark: u64, i: usize) -> u64 {
    mark.rotate_left((i % 64) as u32)
}

impl Case {
    // Makes the lent mark words.
    fn fill_marks(&self, marks: &mut [u64]) {
        for (i, word) in marks.iter_mut().enumerate() {
            *word = mark_word(self.mark, i);
        }
    }

    // What the plain engine's byte `i` holds: 0 where the mark's bit is clear, else one of the other 255 values, each byte another than those near it.
    fn plain_byte(&self, i: usize) -> u8 {
        let word = mark_word(self.mark, i / 64);
        if (word >> (i % 64)) % 2 == 0 {
            return 0;
        }
        let value = usize::from(self.pending);
        ((value + i % 255) % 255 + 1) as u8
    }

    // Makes the plain engine's lent bytes.
    fn fill_bytes(&self, bytes: &mut [u8]) {
        for (i, byte) in bytes.iter_mut().enumerate() {
            *byte = self.plain_byte(i);
        }
    }

    // Makes the lent bytes, of zeros: those past the ones that a case has room for stay.
    fn fill_lent(&self, lent: &mut [u8]) {
        let n = lent.len().min(self.lent.len());
        lent[..n].copy_from_slice(&self.lent[..n]);
    }

    // A byte of an area past its first ones: a state's are all the same, and a queue's go up by one from place to place.
    fn later_byte(&self, i: usize) -> u8 {
        if !self.call.is_to_queue() {
            return self.fill;
        }
        let place = (i / 32 % 256) as u8;
        self.fill.wrapping_add(place)
    }

    // Makes an area: the first bytes are told one by one.
    fn fill_area(&self, area: &mut [u8]) {
        for (i, byte) in area.iter_mut().enumerate() {
            *byte = self.front.get(i).copied().unwrap_or(self.later_byte(i));
        }
    }

    // Makes a case's call on marks of either engine, in room for all that it lends. As many of each are lent as a case says, and no more than there is room for.
    fn play_on<W: Write>(&self, out: &mut W) -> io::Result<()> {
        let mut marks = [0; 512];
        let mut bytes = [0; 32768];
        let mut lent = [0; 4100];
        let mut area = [0; 32800];
        let size = self.size.min(lent.len());
        let long = self.area.min(area.len());
        self.fill_lent(&mut lent[..size]);
        self.fill_area(&mut area[..long]);
        let answer = if self.plain {
            let n = self.units.min(bytes.len());
            let units = &mut bytes[..n];
            self.fill_bytes(units);
            self.answer(
                &mut Plain { area: units },
                &mut lent[..size],
                &mut area[..long],
            )
        } else {
            let n = self.words.min(marks.len());
            let words = &mut marks[..n];
            self.fill_marks(words);
            self.answer(
                &mut Words { marks: words },
                &mut lent[..size],
                &mut area[..long],
            )
        };
        put_answer(out, &answer)?;
        put_marks(out, self, &marks, &bytes)?;
        put_shown(out, &lent, 0, LENT)?;
        put_area(out, self, &bytes, &area)
    }
}

// ---- input and output

// Plays the cases, to their end or until writing fails; a rest that is no whole case is none, and where reading fails the input is over. What was answered is written
// out before more input is waited for. A proved loop has to end, and nothing says that the input does: so its turns are counted, to a number that no run reaches.
fn run<R: Read, W: Write>(from: &mut R, out: &mut W) -> io::Result<()> {
    let mut case = [0; CASE];
    let mut there = 0;
    let mut input = [0; 65536];
    for _ in 0..u64::MAX {
        let n = from.read(&mut input).unwrap_or(0);
        if n == 0 {
            return Ok(());
        }
        for byte in &input[..n] {
            case[there] = *byte;
            there += 1;
            if there == CASE {
                Rest { bytes: &case }.case().play_on(out)?;
                there = 0;
            }
        }
        out.flush()?;
    }
    Ok(())
}

// Where writing fails the program ends, as at the end of its input.
fn main(rt: HostRuntime) {
    let mut out = Buffer::new(rt.stdout());
    let _ = run(&mut rt.stdin(), &mut out);
}
