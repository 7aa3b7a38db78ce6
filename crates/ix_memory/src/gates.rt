//! Gates for tests: two that record or count what they hear, and three that a run gets past only
//! where its workers are at work at the same time. No contract can say what such a gate has heard,
//! since several threads tell it; its calls return what they read.
//!
//! A line that waits in vain is let go after 4,000,000 turns, in each of which it lets other threads
//! go on: after about a second of a processor's time. The gate is late then, and no line waits any more.
use ix_outside::Gate;
use std::sync::atomic::{AtomicU64, Ordering};
use std::thread;

/// How often a waiting gate looks before it is late.
const MOST_TURNS: u64 = 4_000_000;

/// Eight numbers, all 0.
fn zeros() -> [AtomicU64; 8] {
    [
        AtomicU64::new(0),
        AtomicU64::new(0),
        AtomicU64::new(0),
        AtomicU64::new(0),
        AtomicU64::new(0),
        AtomicU64::new(0),
        AtomicU64::new(0),
        AtomicU64::new(0),
    ]
}

/// Waits until the number isn't below `least`, for 4,000,000 turns at most, past which it is late. Where
/// it was late before, it doesn't wait.
fn wait_for(number: &AtomicU64, least: u64, late: &AtomicU64) {
    for _ in 0..MOST_TURNS {
        let is_due = number.load(Ordering::SeqCst) >= least;
        if is_due || late.load(Ordering::SeqCst) != 0 {
            return;
        }
        thread::yield_now();
    }
    late.store(1, Ordering::SeqCst);
}

/// A gate that records the first eight things that it hears, in order.
#[derive(Drop)]
pub struct RecordingGate {
    lines: [AtomicU64; 8],
    numbers: [AtomicU64; 8],
    count: AtomicU64,
}

impl RecordingGate {
    /// A gate that has heard nothing.
    pub fn new() -> RecordingGate {
        RecordingGate {
            lines: zeros(),
            numbers: zeros(),
            count: AtomicU64::new(0),
        }
    }

    /// How many things it has heard.
    pub fn count(&self) -> u64 {
        self.count.load(Ordering::SeqCst)
    }

    /// What it heard at this place, from 0: a line with the sequence number that it got, or with 0
    /// before it was tried. Two times 0 where there is nothing, and past the first eight.
    pub fn heard(&self, place: usize) -> (u64, u64) {
        match (self.lines.get(place), self.numbers.get(place)) {
            (Some(line), Some(number)) => {
                let line = line.load(Ordering::SeqCst);
                (line, number.load(Ordering::SeqCst))
            }
            _ => (0, 0),
        }
    }

    fn hear(&self, line: u32, number: u64) {
        let place = self.count.fetch_add(1, Ordering::SeqCst);
        if place < 8 {
            self.lines[place as usize].store(u64::from(line), Ordering::SeqCst);
            self.numbers[place as usize].store(number, Ordering::SeqCst);
        }
    }
}

impl Gate for RecordingGate {
    fn before(&self, line: u32) {
        self.hear(line, 0);
    }

    fn told(&self, line: u32, number: u64) {
        self.hear(line, number);
    }
}

/// A gate that counts how often it hears of one line, and of all.
#[derive(Drop)]
pub struct CountingGate {
    line: u32,
    befores: AtomicU64,
    tolds: AtomicU64,
    all: AtomicU64,
}

impl CountingGate {
    /// A gate for this line that has heard nothing.
    pub fn new(line: u32) -> CountingGate {
        CountingGate {
            line,
            befores: AtomicU64::new(0),
            tolds: AtomicU64::new(0),
            all: AtomicU64::new(0),
        }
    }

    /// How often it heard of its line before it was tried, and how often that it got a number.
    pub fn counts(&self) -> (u64, u64) {
        let befores = self.befores.load(Ordering::SeqCst);
        (befores, self.tolds.load(Ordering::SeqCst))
    }

    /// How often it heard of a line, whichever, before it was tried.
    pub fn all(&self) -> u64 {
        self.all.load(Ordering::SeqCst)
    }
}

impl Gate for CountingGate {
    fn before(&self, line: u32) {
        self.all.fetch_add(1, Ordering::SeqCst);
        if line == self.line {
            self.befores.fetch_add(1, Ordering::SeqCst);
        }
    }

    fn told(&self, line: u32, _number: u64) {
        if line == self.line {
            self.tolds.fetch_add(1, Ordering::SeqCst);
        }
    }
}

/// A gate for a script of four lines by two callers in turn: line 1 is tried only after line 4 was
/// told, and line 2 only after the gate has heard of line 1. So neither worker gets past it before the
/// other has begun, and the lines get the numbers 3, 1, 4 and 2.
#[derive(Drop)]
pub struct MeetingGate {
    begun: AtomicU64,
    told: AtomicU64,
    late: AtomicU64,
}

impl MeetingGate {
    /// A gate that has heard nothing.
    pub fn new() -> MeetingGate {
        MeetingGate {
            begun: AtomicU64::new(0),
            told: AtomicU64::new(0),
            late: AtomicU64::new(0),
        }
    }

    /// Whether a line waited for 4,000,000 turns, and was then let go.
    pub fn is_late(&self) -> bool {
        self.late.load(Ordering::SeqCst) != 0
    }
}

impl Gate for MeetingGate {
    fn before(&self, line: u32) {
        if line == 1 {
            self.begun.store(1, Ordering::SeqCst);
            wait_for(&self.told, 1, &self.late);
        } else {
            wait_for(&self.begun, 1, &self.late);
        }
    }

    fn told(&self, line: u32, _number: u64) {
        if line == 4 {
            self.told.store(1, Ordering::SeqCst);
        }
    }
}

/// A gate for a script of up to eight groups of lines, in each of which every caller has one: a line
/// is tried only after the gate has heard of all lines of its group. So fewer workers than callers
/// don't get past it.
#[derive(Drop)]
pub struct GroupsGate {
    callers: u32,
    heard: [AtomicU64; 8],
    late: AtomicU64,
}

impl GroupsGate {
    /// A gate for so many callers, or for one where there is none, that has heard nothing.
    pub fn new(callers: u32) -> GroupsGate {
        GroupsGate {
            callers: callers.max(1),
            heard: zeros(),
            late: AtomicU64::new(0),
        }
    }

    /// Whether a line waited for 4,000,000 turns, and was then let go.
    pub fn is_late(&self) -> bool {
        self.late.load(Ordering::SeqCst) != 0
    }
}

impl Gate for GroupsGate {
    fn before(&self, line: u32) {
        let group = (line.saturating_sub(1) / self.callers.max(1)).min(7) as usize;
        self.heard[group].fetch_add(1, Ordering::SeqCst);
        wait_for(&self.heard[group], u64::from(self.callers), &self.late);
    }

    fn told(&self, _line: u32, _number: u64) {}
}

/// A gate for a script of up to seven lines: a line is tried only after the line before it got its
/// number. So the lines are done in their order, whoever does them. It counts what it hears of each.
#[derive(Drop)]
pub struct InOrderGate {
    befores: [AtomicU64; 8],
    tolds: [AtomicU64; 8],
    last: AtomicU64,
    late: AtomicU64,
}

impl InOrderGate {
    /// A gate that has heard nothing.
    pub fn new() -> InOrderGate {
        InOrderGate {
            befores: zeros(),
            tolds: zeros(),
            last: AtomicU64::new(0),
            late: AtomicU64::new(0),
        }
    }

    /// How often it heard of the line before it was tried, and how often that it got a number.
    pub fn counts(&self, line: usize) -> (u64, u64) {
        match (self.befores.get(line), self.tolds.get(line)) {
            (Some(befores), Some(tolds)) => {
                let befores = befores.load(Ordering::SeqCst);
                (befores, tolds.load(Ordering::SeqCst))
            }
            _ => (0, 0),
        }
    }

    /// Whether a line waited for 4,000,000 turns, and was then let go.
    pub fn is_late(&self) -> bool {
        self.late.load(Ordering::SeqCst) != 0
    }
}

impl Gate for InOrderGate {
    fn before(&self, line: u32) {
        self.befores[line.min(7) as usize].fetch_add(1, Ordering::SeqCst);
        wait_for(&self.last, u64::from(line.saturating_sub(1)), &self.late);
    }

    fn told(&self, line: u32, _number: u64) {
        self.tolds[line.min(7) as usize].fetch_add(1, Ordering::SeqCst);
        self.last.store(u64::from(line), Ordering::SeqCst);
    }
}
