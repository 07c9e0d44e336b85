// The calls of either engine (document 02, W9), so that a program's lines are played by the same code on both: those of `tracker` on lent mark words, and the plain
// engine's on lent bytes. What is lent has any length: every call on marks of a wrong size is answered 1.
#![tactic(auto)]

ghost use Rattle.std.specs.Prelude.{◌≡◌, ◌+◌, ◌*◌, ◌≤◌, length};

use booking::{Logged, Reading};
use calls::{Batched, Changed, Posted, Received, Started, StateSet, Taken, WriteRecord, Written};
use log_numbers::Log;
use rules::{Bytes, Device, Settings};

// An engine, with the marks that were lent for it.
pub trait Engine: Drop {
    // Makes a fresh device.
    fn fresh(&mut self, s: Settings) -> Changed;

    // Starts tracking a controller for a manager.
    fn start(&mut self, d: Device, manager: u16, id: u16, data: &[u8]) -> Started;

    // Stops a manager's tracking of a controller.
    fn stop(&mut self, d: Device, manager: u16, id: u16) -> Changed;

    // Notes a write of so many bytes, the length, at an address.
    fn write(&mut self, d: Device, id: u16, at: u64, length: Bytes) -> Written;

    // Notes the first n of some writes.
    fn batch_of(&mut self, d: Device, list: [WriteRecord; 1025], n: usize) -> Batched;

    // Reports a controller's pending runs: those of a done report stand in the buffer.
    fn receive(&mut self, d: Device, manager: u16, id: u16, buffer: &mut [u8]) -> Received
        ensures { result.number ≡ 0 → 16 + 16 * result.runs ≤ length buffer.old };

    // Suspends a controller, or gives notice.
    fn suspend(&self, d: Device, manager: u16, id: u16, kind: u8) -> Changed;

    // Resumes a controller.
    fn resume(&self, d: Device, manager: u16, id: u16) -> Changed;

    // Takes a part of a controller's state into the area for it.
    fn set_state(
        &self,
        d: Device,
        area: &mut [u8],
        manager: u16,
        id: u16,
        indicator: u8,
        low: u32,
        high: u32,
        count: u32,
        data: &[u8],
    ) -> StateSet;

    // Makes a controller's queue in its area.
    fn make_queue(&self, d: Device, id: u16, area: &[u8]) -> Changed;

    // Posts an entry to a controller's queue.
    fn post(&self, d: Device, area: &mut [u8], id: u16, entry: &[u8]) -> Posted;

    // Takes the oldest entries of a controller's queue into a buffer, where those that were taken stand.
    fn take(&self, d: Device, area: &[u8], id: u16, asked: u32, buffer: &mut [u8]) -> Taken
        ensures { 32 * result.count ≤ length buffer.old };

    // ---- the calls that are logged (document 02, W13)

    // Makes a fresh device, and its log.
    fn fresh_logged(&mut self, l: Log, s: Settings) -> Logged<Changed>;

    // Stops a manager's tracking of a controller.
    fn stop_logged(&mut self, l: Log, d: Device, manager: u16, id: u16) -> Logged<Changed>;

    // Notes a write of so many bytes, the length, at an address.
    fn write_logged(
        &mut self,
        l: Log,
        d: Device,
        id: u16,
        at: u64,
        length: Bytes,
    ) -> Logged<Written>;

    // Notes the first n of some writes.
    fn batch_logged(
        &mut self,
        l: Log,
        d: Device,
        list: [WriteRecord; 1025],
        n: usize,
    ) -> Logged<Batched>;

    // Reports a controller's pending runs: those of a done report stand in the buffer.
    fn receive_logged(
        &mut self,
        l: Log,
        d: Device,
        manager: u16,
        id: u16,
        buffer: &mut [u8],
    ) -> Logged<Received>
        ensures { result.answer.number ≡ 0 → 16 + 16 * result.answer.runs ≤ length buffer.old };

    // A controller's totals.
    fn totals(&self, l: Log, d: Device, id: u16) -> Reading;
}

// The engine of `tracker`, on lent mark words.
#[derive(Drop)]
pub struct Words<'a> {
    pub marks: &'a mut [u64],
}

impl Engine for Words<'_> {
    fn fresh(&mut self, s: Settings) -> Changed {
        tracker::fresh(s, self.marks)
    }

    fn start(&mut self, d: Device, manager: u16, id: u16, data: &[u8]) -> Started {
        tracker::start(d, self.marks, manager, id, data)
    }

    fn stop(&mut self, d: Device, manager: u16, id: u16) -> Changed {
        tracker::stop(d, self.marks, manager, id)
    }

    fn write(&mut self, d: Device, id: u16, at: u64, length: Bytes) -> Written {
        tracker::write(d, self.marks, id, at, length)
    }

    fn batch_of(&mut self, d: Device, list: [WriteRecord; 1025], n: usize) -> Batched {
        tracker::batch_of(d, self.marks, list, n)
    }

    fn receive(&mut self, d: Device, manager: u16, id: u16, buffer: &mut [u8]) -> Received {
        tracker::receive(d, self.marks, manager, id, buffer)
    }

    fn suspend(&self, d: Device, manager: u16, id: u16, kind: u8) -> Changed {
        tracker::suspend(d, self.marks, manager, id, kind)
    }

    fn resume(&self, d: Device, manager: u16, id: u16) -> Changed {
        tracker::resume(d, self.marks, manager, id)
    }

    fn set_state(
        &self,
        d: Device,
        area: &mut [u8],
        manager: u16,
        id: u16,
        indicator: u8,
        low: u32,
        high: u32,
        count: u32,
        data: &[u8],
    ) -> StateSet {
        tracker::set_state(
            d, self.marks, area, manager, id, indicator, low, high, count, data,
        )
    }

    fn make_queue(&self, d: Device, id: u16, area: &[u8]) -> Changed {
        tracker::make_queue(d, self.marks, id, area)
    }

    fn post(&self, d: Device, area: &mut [u8], id: u16, entry: &[u8]) -> Posted {
        tracker::post(d, self.marks, area, id, entry)
    }

    fn take(&self, d: Device, area: &[u8], id: u16, asked: u32, buffer: &mut [u8]) -> Taken {
        tracker::take(d, self.marks, area, id, asked, buffer)
    }

    fn fresh_logged(&mut self, l: Log, s: Settings) -> Logged<Changed> {
        logged::fresh(l, s, self.marks)
    }

    fn stop_logged(&mut self, l: Log, d: Device, manager: u16, id: u16) -> Logged<Changed> {
        logged::stop(l, d, self.marks, manager, id)
    }

    fn write_logged(
        &mut self,
        l: Log,
        d: Device,
        id: u16,
        at: u64,
        length: Bytes,
    ) -> Logged<Written> {
        logged::write(l, d, self.marks, id, at, length)
    }

    fn batch_logged(
        &mut self,
        l: Log,
        d: Device,
        list: [WriteRecord; 1025],
        n: usize,
    ) -> Logged<Batched> {
        logged::batch_of(l, d, self.marks, list, n)
    }

    fn receive_logged(
        &mut self,
        l: Log,
        d: Device,
        manager: u16,
        id: u16,
        buffer: &mut [u8],
    ) -> Logged<Received> {
        logged::receive(l, d, self.marks, manager, id, buffer)
    }

    fn totals(&self, l: Log, d: Device, id: u16) -> Reading {
        logged::totals(l, d, self.marks, id)
    }
}

// The plain engine, on a lent area of one byte a unit.
#[derive(Drop)]
pub struct Plain<'a> {
    pub area: &'a mut [u8],
}

impl Engine for Plain<'_> {
    fn fresh(&mut self, s: Settings) -> Changed {
        plain::fresh(s, self.area)
    }

    fn start(&mut self, d: Device, manager: u16, id: u16, data: &[u8]) -> Started {
        plain::start(d, self.area, manager, id, data)
    }

    fn stop(&mut self, d: Device, manager: u16, id: u16) -> Changed {
        plain::stop(d, self.area, manager, id)
    }

    fn write(&mut self, d: Device, id: u16, at: u64, length: Bytes) -> Written {
        plain::write(d, self.area, id, at, length)
    }

    fn batch_of(&mut self, d: Device, list: [WriteRecord; 1025], n: usize) -> Batched {
        plain::batch_of(d, self.area, list, n)
    }

    fn receive(&mut self, d: Device, manager: u16, id: u16, buffer: &mut [u8]) -> Received {
        plain::receive(d, self.area, manager, id, buffer)
    }

    fn suspend(&self, d: Device, manager: u16, id: u16, kind: u8) -> Changed {
        plain::suspend(d, self.area, manager, id, kind)
    }

    fn resume(&self, d: Device, manager: u16, id: u16) -> Changed {
        plain::resume(d, self.area, manager, id)
    }

    fn set_state(
        &self,
        d: Device,
        area: &mut [u8],
        manager: u16,
        id: u16,
        indicator: u8,
        low: u32,
        high: u32,
        count: u32,
        data: &[u8],
    ) -> StateSet {
        plain::set_state(
            d, self.area, area, manager, id, indicator, low, high, count, data,
        )
    }

    fn make_queue(&self, d: Device, id: u16, area: &[u8]) -> Changed {
        plain::make_queue(d, self.area, id, area)
    }

    fn post(&self, d: Device, area: &mut [u8], id: u16, entry: &[u8]) -> Posted {
        plain::post(d, self.area, area, id, entry)
    }

    fn take(&self, d: Device, area: &[u8], id: u16, asked: u32, buffer: &mut [u8]) -> Taken {
        plain::take(d, self.area, area, id, asked, buffer)
    }

    fn fresh_logged(&mut self, l: Log, s: Settings) -> Logged<Changed> {
        plain_logged::fresh(l, s, self.area)
    }

    fn stop_logged(&mut self, l: Log, d: Device, manager: u16, id: u16) -> Logged<Changed> {
        plain_logged::stop(l, d, self.area, manager, id)
    }

    fn write_logged(
        &mut self,
        l: Log,
        d: Device,
        id: u16,
        at: u64,
        length: Bytes,
    ) -> Logged<Written> {
        plain_logged::write(l, d, self.area, id, at, length)
    }

    fn batch_logged(
        &mut self,
        l: Log,
        d: Device,
        list: [WriteRecord; 1025],
        n: usize,
    ) -> Logged<Batched> {
        plain_logged::batch_of(l, d, self.area, list, n)
    }

    fn receive_logged(
        &mut self,
        l: Log,
        d: Device,
        manager: u16,
        id: u16,
        buffer: &mut [u8],
    ) -> Logged<Received> {
        plain_logged::receive(l, d, self.area, manager, id, buffer)
    }

    fn totals(&self, l: Log, d: Device, id: u16) -> Reading {
        plain_logged::totals(l, d, self.area, id)
    }
}
