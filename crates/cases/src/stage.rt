//! Which step of a case is made, where several seats take part: each thread waits for the steps of its seat.

use case_files::{Run, Step, StepKind};
use std::alloc::{AllocError, Global};
use std::sync::atomic::{AtomicBool, AtomicUsize, Ordering};
use std::thread::yield_now;

/// How often a thread looks whether it is its turn before it gives up.
const MOST_LOOKS: u32 = 100_000_000;

/// What all seats share: the number of the step that is made, the clock, the dice, and what the steps came to.
#[derive(Drop)]
pub struct Stage {
    step: AtomicUsize,
    reading: AtomicUsize,
    clock: Vec<u64>,
    drawn: AtomicUsize,
    dice: Vec<u64>,
    turns: Vec<Turn>,
}

/// A step's end, where it begins what its seat ends by a later one; and whether anything was granted by it.
#[derive(Drop)]
struct Turn {
    end: Option<usize>,
    granted: AtomicBool,
}

impl Stage {
    pub fn new(alloc: Global, case: &Run) -> Result<Stage, AllocError> {
        let mut turns = Vec::new(alloc);
        for (index, step) in case.steps.iter().enumerate() {
            turns.push(Turn {
                end: end_of(&case.steps, index, *step),
                granted: AtomicBool::new(false),
            })?;
        }
        Ok(Stage {
            step: AtomicUsize::new(0),
            reading: AtomicUsize::new(0),
            clock: case.clock.as_slice().to_vec(alloc)?,
            drawn: AtomicUsize::new(0),
            dice: case.dice.as_slice().to_vec(alloc)?,
            turns,
        })
    }

    /// The number of the step that is made.
    pub fn step(&self) -> usize {
        self.step.load(Ordering::SeqCst)
    }

    /// The step that ends what this one begins.
    pub fn end_of(&self, step: usize) -> Option<usize> {
        self.turns.get(step)?.end
    }

    /// The step is answered at once, and wasn't yet.
    pub fn is_owed(&self, step: usize) -> bool {
        self.step() == step && self.end_of(step).is_none()
    }

    /// The next reading of the clock; the last is repeated.
    pub fn now(&self) -> u64 {
        next_of(&self.clock, &self.reading)
    }

    /// The next word of the dice; the last is repeated.
    pub fn draw(&self) -> u64 {
        next_of(&self.dice, &self.drawn)
    }

    /// Waits until the steps before this one were made. It may never come: then false.
    pub fn wait_for(&self, step: usize) -> bool {
        for _ in 0..MOST_LOOKS {
            if self.step() >= step {
                return true;
            }
            yield_now();
        }
        false
    }

    /// This step was made, if it wasn't before: the next one may be.
    pub fn leave(&self, step: usize) {
        if self.step() <= step && self.wait_for(step) {
            self.step.store(step.saturating_add(1), Ordering::SeqCst);
        }
    }

    /// This step was made, and its seat's next one is that which ends what it began, if there is one.
    pub fn go_to_end(&self, step: usize) {
        if let Some(end) = self.end_of(step) {
            self.leave(step);
            self.wait_for(end);
        }
    }

    /// Something was granted by this step.
    pub fn grant(&self, step: usize) {
        if let Some(turn) = self.turns.get(step) {
            turn.granted.store(true, Ordering::SeqCst);
        }
    }

    pub fn was_granted(&self, step: usize) -> bool {
        match self.turns.get(step) {
            Some(turn) => turn.granted.load(Ordering::SeqCst),
            None => false,
        }
    }
}

// The number behind those that were taken, and it is taken. The last is repeated, and without any it is 0.
fn next_of(numbers: &[u64], taken: &AtomicUsize) -> u64 {
    let taken = taken.fetch_add(1, Ordering::SeqCst);
    match numbers.get(taken).or(numbers.last()) {
        Some(number) => *number,
        None => 0,
    }
}

// The next step of the same seat, where this one is to be ended.
fn end_of(steps: &[Step], index: usize, step: Step) -> Option<usize> {
    if step.kind != StepKind::Begin {
        return None;
    }
    for (later, one) in steps.iter().enumerate() {
        if later > index && one.seat == step.seat {
            return Some(later);
        }
    }
    None
}
