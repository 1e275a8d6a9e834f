//! What has come of a connection that has no lane.
ghost use Rattle.std.specs.Prelude.{◌≡◌, ◌==◌, [], length};
ghost use Rattle.cd_wire.specs.Intake.{IsHandedOver};
ghost use Rattle.cd_tcp.specs.Waiting.{is_due};

use crate::budgets::is_too_much;
use cd_text::NoMemory;
use cd_wire::{Intake, Look};
use std::alloc::Global;

/// The bytes of a connection that have come and that no lane has, with what was found in them.
#[derive(Drop)]
pub struct Waiting {
    alloc: Global,
    pub intake: Intake,
    /// Whether the client sends no more.
    pub ended: bool,
    /// What was found in them last.
    pub found: Look,
}

/// Whether a connection gets a lane in which this was found, and of which so many bytes are kept. `all` are kept of all connections.
pub fn is_due(found: Look, own: usize, all: usize) -> bool
    ensures { result ≡ is_due found own all }
{
    match found {
        Look::Whole => true,
        Look::Refused(_) => true,
        Look::Cut => true,
        Look::End => true,
        Look::More => is_too_much(own, all),
    }
}

impl Waiting {
    /// Nothing has come. It takes no memory.
    pub fn new(alloc: Global) -> Waiting
        ensures { result.intake ≡ [] }
    {
        Waiting {
            alloc,
            intake: Intake::new(alloc),
            ended: false,
            found: Look::More,
        }
    }

    /// Whether all that has come was handed out.
    pub fn is_empty(&self) -> bool
        ensures { result ≡ (length self.now.intake == 0) }
    {
        self.intake.is_empty()
    }

    /// How much memory it takes, in bytes.
    pub fn memory(&self) -> usize {
        self.intake.memory()
    }

    /// Adds what has come. At `NoMemory` nothing is changed.
    pub fn push(&mut self, piece: &[u8]) -> Result<(), NoMemory> {
        self.intake.push(piece)
    }

    /// Looks what has come of the next request.
    pub fn look(&mut self) -> Result<(), NoMemory>
        ensures { self.new.intake ≡ self.old.intake }
    {
        self.found = self.intake.look(self.ended)?;
        Ok(())
    }

    /// Whether the next request is one for a lane: where it has come, where it can't come, and where it is not kept. So many bytes are
    /// kept of all connections.
    pub fn is_due(&self, all: usize) -> bool {
        is_due(self.found, self.intake.kept(), all)
    }

    /// Hands the next request over, or all that has come where it is not whole. It says whether it is.
    pub fn hand_over(&mut self, into: &mut Intake) -> bool
        requires { into.old ≡ [] }
        ensures { IsHandedOver result self.old.intake self.new.intake into.new }
    {
        self.found = Look::More;
        self.intake.hand_over(into)
    }

    /// Gives the memory back where nothing is kept.
    pub fn let_memory_go(&mut self) {
        if self.is_empty() {
            self.intake = Intake::new(self.alloc);
        }
    }
}
