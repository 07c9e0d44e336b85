// A line of a listing, played on a device with its log, and its answer as text. What a line asks for is said by `listing`, what a call answers by `engines`.
#![tactic(auto)]

ghost use Rattle.std.specs.Prelude.{◌≡◌, ◌+◌, ◌*◌, ◌≤◌, length};
ghost use Rattle.listing.specs.Listing.{Bounded};

use calls::{Received, Started, Written};
use engines::Engine;
use lines::Answers;
use listing::{Call, Line};
use log_numbers::Log;
use rules::{Bytes, Device, Range, Settings};
use std::io;
use std::io::Write;

// What lines are played on: a device and its log, and the engine that has its marks.
#[derive(Drop)]
pub struct Player<E: Engine> {
    pub engine: E,
    pub device: Device,
    pub log: Log,
}

// ---- text

// Puts a line that is a number alone.
pub fn put_number<W: Write>(out: &mut W, number: u8) -> io::Result<()> {
    writeln!(out, "{number}")
}

// Puts the answer to a bad line.
pub fn put_bad<W: Write>(out: &mut W) -> io::Result<()> {
    writeln!(out, "bad")
}

// Puts a start's answer: where a rule of ranges is broken, 18 to 21, the row stands after the number.
fn put_started<W: Write>(out: &mut W, started: Started) -> io::Result<()> {
    let number = started.number;
    match number {
        18..=21 => writeln!(out, "{number} {}", started.row),
        _ => put_number(out, number),
    }
}

// Puts a write's answer: a done one's count too.
fn put_written<W: Write>(out: &mut W, written: Written) -> io::Result<()> {
    match written.number {
        0 => writeln!(out, "0 {}", written.count),
        number => put_number(out, number),
    }
}

// Puts a line for each of a report's first `runs` descriptors: its address and its length in units.
fn put_descriptors<W: Write>(out: &mut W, report: &[u8], runs: usize) -> io::Result<()>
    requires { 16 + 16 * runs ≤ length report.now }
{
    for i in 0..runs {
        let at = 16 + 16 * i;
        let address = little::read::<u64>(report, at);
        let length = little::read::<u32>(report, at + 8);
        writeln!(out, "{address} {length}")?;
    }
    Ok(())
}

// Puts a receive's answer: a refused one's number alone; what a done one's header says, how many groups it examined (W10), where these are shown, and its descriptors.
fn put_received<W: Write>(
    out: &mut W,
    received: Received,
    report: &[u8],
    groups: bool,
) -> io::Result<()>
    requires { received.number ≡ 0 → 16 + 16 * received.runs ≤ length report.now }
{
    if received.number != 0 {
        return put_number(out, received.number);
    }
    let suspended = u8::from(received.suspended);
    let more = u8::from(received.more);
    let granularity = received.granularity;
    let runs = received.runs;
    write!(
        out,
        "0 susp {suspended} more {more} gran {granularity} runs {runs}"
    )?;
    if groups {
        write!(out, " groups {}", received.groups)?;
    }
    writeln!(out)?;
    put_descriptors(out, report, runs)
}

// ---- calls

impl<E: Engine> Player<E> {
    // On a device of which every call answers 1, as before a done `dev`.
    pub fn new(mut engine: E) -> Player<E> {
        let made = engine.fresh(settings::no_settings());
        Player {
            engine,
            device: made.device,
            log: log_numbers::empty(),
        }
    }

    // Plays a line that makes a device with these settings: refused, it keeps the device there was, and its log.
    pub fn dev<W: Write>(&mut self, s: Settings, out: &mut W) -> io::Result<()> {
        let logged = self.engine.fresh_logged(self.log, s);
        self.log = logged.log;
        let made = logged.answer;
        if made.number == 0 {
            self.device = made.device;
        }
        put_number(out, made.number)
    }

    // Plays a `start` of `count` ranges, by way of the bytes of a start structure.
    fn start<W: Write>(
        &mut self,
        manager: u16,
        id: u16,
        granularity: u8,
        count: usize,
        ranges: [Range; 16],
        out: &mut W,
    ) -> io::Result<()>
        requires { count ≤ 16 }
    {
        let mut data = [0u8; 200];
        start_data::write_start(&mut data, granularity, count as u32, ranges);
        let started = self.engine.start(self.device, manager, id, &data);
        self.device = started.device;
        put_started(out, started)
    }

    // Plays a `stop`.
    fn stop<W: Write>(&mut self, manager: u16, id: u16, out: &mut W) -> io::Result<()> {
        let logged = self.engine.stop_logged(self.log, self.device, manager, id);
        self.log = logged.log;
        let changed = logged.answer;
        self.device = changed.device;
        put_number(out, changed.number)
    }

    // Plays a `susp`.
    fn suspend<W: Write>(
        &mut self,
        manager: u16,
        id: u16,
        kind: u8,
        out: &mut W,
    ) -> io::Result<()> {
        let changed = self.engine.suspend(self.device, manager, id, kind);
        self.device = changed.device;
        put_number(out, changed.number)
    }

    // Plays a `resume`.
    fn resume<W: Write>(&mut self, manager: u16, id: u16, out: &mut W) -> io::Result<()> {
        let changed = self.engine.resume(self.device, manager, id);
        self.device = changed.device;
        put_number(out, changed.number)
    }

    // Plays a `write`.
    fn write<W: Write>(&mut self, id: u16, at: u64, length: Bytes, out: &mut W) -> io::Result<()> {
        let logged = self
            .engine
            .write_logged(self.log, self.device, id, at, length);
        self.log = logged.log;
        put_written(out, logged.answer)
    }

    // Plays a `recv` with a buffer of `size` bytes.
    fn receive<W: Write>(
        &mut self,
        manager: u16,
        id: u16,
        size: usize,
        groups: bool,
        out: &mut W,
    ) -> io::Result<()>
        requires { size ≤ 4096 }
    {
        let mut report = [0u8; 4096];
        let report = &mut report[..size];
        let logged = self
            .engine
            .receive_logged(self.log, self.device, manager, id, report);
        self.log = logged.log;
        put_received(out, logged.answer, report, groups)
    }

    // Plays a line of document 01, whose call this manager makes, and shows the groups of a `recv` or not. A `dev` has one manager, and the shelf limit 128 (document
    // 02, W12).
    pub fn play<W: Write>(
        &mut self,
        caller: u16,
        line: Line,
        groups: bool,
        out: &mut W,
    ) -> io::Result<()>
        requires { Bounded line.call }
    {
        match line.call {
            Call::Bad => put_bad(out),
            Call::Dev {
                manager,
                least,
                greatest,
                powers,
                limit,
                count,
            } => {
                let identifiers = line.identifiers;
                let s = Settings {
                    manager,
                    least,
                    greatest,
                    powers,
                    limit,
                    second: None,
                    shelf: 128,
                    count,
                    identifiers,
                };
                self.dev(s, out)
            }
            Call::Start {
                id,
                granularity,
                count,
            } => self.start(caller, id, granularity, count, line.ranges, out),
            Call::Stop(id) => self.stop(caller, id, out),
            Call::Write { id, address, bytes } => self.write(id, address, Bytes(bytes), out),
            Call::Recv { id, size } => self.receive(caller, id, size, groups, out),
            Call::Susp { id, kind } => self.suspend(caller, id, kind, out),
            Call::Resume(id) => self.resume(caller, id, out),
        }
    }

    // Reads and plays a line of document 01.
    pub fn play_line<W: Write>(
        &mut self,
        caller: u16,
        line: &[u8],
        groups: bool,
        out: &mut W,
    ) -> io::Result<()> {
        self.play(caller, listing::read_line(line), groups, out)
    }
}

impl<E: Engine> Answers for Player<E> {
    // Plays a line of document 01's listing, whose calls the first manager makes, and shows no groups.
    fn answer<W: Write>(&mut self, line: &[u8], out: &mut W) -> io::Result<()> {
        self.play_line(self.device.settings.manager, line, false, out)
    }
}
