ghost use Rattle.std.specs.Prelude.{◌≡◌};

use crate::{Messages, TakesNow};
use cd_outside::{Given, Sink};
use std::sync::Wait;

/// A sink that is written to after the messages that wait, so that they are read in the order in which they came.
pub struct AfterMessages<'m, R: Wait, S, W: TakesNow> {
    rt: &'m R,
    pub sink: S,
    messages: &'m Messages<W>,
}

impl<'m, R: Wait, S: Drop, W: TakesNow> Drop for AfterMessages<'m, R, S, W> {
    fn drop(self) {
        let Self {
            rt: _,
            sink: _,
            messages: _,
        } = self;
    }
}

impl<'m, R: Wait, S: Sink, W: TakesNow> AfterMessages<'m, R, S, W> {
    /// This sink, after messages of here.
    pub fn new(rt: &'m R, sink: S, messages: &'m Messages<W>) -> AfterMessages<'m, R, S, W>
        ensures { result.sink ≡ sink }
    {
        AfterMessages { rt, sink, messages }
    }
}

impl<'m, R: Wait, S: Sink, W: TakesNow> Sink for AfterMessages<'m, R, S, W> {
    ghost faults = { λ after. S.faults after.sink };

    ghost holds = { λ after. S.holds after.sink };

    fn write(&mut self, piece: &[u8]) -> Given {
        self.messages.send(self.rt);
        self.sink.write(piece)
    }
}
