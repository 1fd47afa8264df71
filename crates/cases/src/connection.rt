//! The connections of a case of several seats: one for each message, which gives its bytes and takes its answer as the steps come.

ghost use Rattle.std.specs.Prelude.{None};

use crate::stage::Stage;
use nf_outside::{Clock, Dice, Ends, Failed, MemSink, MemSource, Sink, Source};
use nf_server::Link;

/// A connection with one message.
pub type Message<'s> = Link<Sent<'s>, Answered<'s>>;

/// What a message sends: its head when its step comes, and what is behind it when that comes which ends it. Where the seat goes away
/// instead, reading fails then. A message that is answered at once has its body in no file: it has as many bytes as are read.
#[derive(Drop)]
pub struct Sent<'s> {
    pub stage: &'s Stage,
    pub step: usize,
    pub head: MemSource,
    pub body: MemSource,
    pub goes: bool,
    pub faults: u64,
}

impl<'s> Ends for Sent<'s> {
    ghost left = { λ _. None };

    ghost written = { λ _. None };

    ghost begun = { λ _. None };

    ghost read_faults = { λ sent. sent.faults };

    ghost write_faults = { λ _. 0 };
}

impl<'s> Source for Sent<'s> {
    fn read(&mut self, room: &mut [u8]) -> Result<usize, Failed> {
        if self.stage.wait_for(self.step)
            && let Ok(count) = self.head.read(room)
            && count > 0
        {
            return Ok(count);
        }
        if self.stage.is_owed(self.step) {
            room[0] = b'-';
            return Ok(1);
        }
        self.stage.go_to_end(self.step);
        if !self.goes
            && let Ok(count) = self.body.read(room)
        {
            return Ok(count);
        }
        self.faults = self.faults.saturating_add(1);
        Err(Failed)
    }
}

/// What a message is answered. Where the seat goes away, writing fails.
#[derive(Drop)]
pub struct Answered<'s> {
    pub stage: &'s Stage,
    pub step: usize,
    pub sink: MemSink,
    pub goes: bool,
    pub faults: u64,
}

impl<'s> Ends for Answered<'s> {
    ghost left = { λ _. None };

    ghost written = { λ _. None };

    ghost begun = { λ _. None };

    ghost read_faults = { λ _. 0 };

    ghost write_faults = { λ answered. answered.faults };
}

impl<'s> Sink for Answered<'s> {
    fn write(&mut self, bytes: &[u8]) -> Result<usize, Failed> {
        if !self.goes
            && let Ok(count) = self.sink.write(bytes)
        {
            return Ok(count);
        }
        self.faults = self.faults.saturating_add(1);
        Err(Failed)
    }

    fn begin_answer(&mut self, _method: &[u8], _target: &[u8]) {}

    // Whatever became of the message, its steps are over.
    fn end_answer(&mut self) {
        self.stage.leave(self.step);
        if let Some(end) = self.stage.end_of(self.step) {
            self.stage.leave(end);
        }
    }
}

/// The clock of a seat. A message's first reading is that of its Begin; a second one is that of the End of what was granted, and waits
/// for the step by which it ends.
#[derive(Drop)]
pub struct SeatClock<'s> {
    pub stage: &'s Stage,
    pub begun: Option<usize>,
}

impl<'s> SeatClock<'s> {
    // The step of the Begin whose End this is.
    fn ended(&self) -> Option<usize> {
        let begun = self.begun?;
        let step = self.stage.step();
        if begun == step || self.stage.end_of(begun) == Some(step) {
            Some(begun)
        } else {
            None
        }
    }
}

impl<'s> Clock for SeatClock<'s> {
    ghost reads = { λ _ _ _. Unit {0} };

    fn now(&mut self) -> u64 {
        match self.ended() {
            Some(begun) => {
                self.stage.grant(begun);
                self.stage.go_to_end(begun);
                self.begun = None;
            }
            None => self.begun = Some(self.stage.step()),
        }
        self.stage.now()
    }
}

/// The dice of a seat, which all seats share: words are drawn in the order of the steps.
#[derive(Drop)]
pub struct SeatDice<'s> {
    pub stage: &'s Stage,
}

impl<'s> Dice for SeatDice<'s> {
    ghost draws = { λ _ _ _. Unit {0} };

    fn draw(&mut self) -> u64 {
        self.stage.draw()
    }
}
