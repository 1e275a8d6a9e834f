ghost use Rattle.std.specs.Prelude.{◌≡◌, min, List};
ghost use Rattle.cd_outside.specs.Counts.{count_end};
ghost use Rattle.cd_legal.specs.declared.entry.Signed.{Signed};
ghost use Rattle.cd_legal.specs.Entry.{entries};
ghost use Rattle.cd_legal.specs.State.{has_number, open_at};
ghost use Rattle.cd_legal.specs.Legal.{state_at};
ghost use Rattle.cd_legal.specs.Begins.{begins_now};
ghost use Rattle.cd_life.specs.Standing.{Stood};

use crate::board::Board;
use cd_module_set::ModuleSet;
use cd_outside::Fixtures;

impl<M: ModuleSet, F: Fixtures> Board<M, F> {
    /// The serial of the current configuration.
    pub fn serial(&self) -> u32
        ensures is { result ≡ self.now.desk.serial }
        ensures state { (opening : _) (log : List Signed) → Stood F.calls F.faults M.plan M.change opening self.now log → result ≡ (state_at log).serial }
    {
        self.desk.serial
    }

    /// Whether the host has halted.
    pub fn halted(&self) -> bool
        ensures is { result ≡ self.now.desk.halted }
        ensures state { (opening : _) (log : List Signed) → Stood F.calls F.faults M.plan M.change opening self.now log → result ≡ (state_at log).halted }
    {
        self.desk.halted
    }

    /// How many requests were begun under the current serial. The count stays at 2^64 - 1.
    pub fn begins(&self) -> u64
        ensures { (opening : _) (log : List Signed) → Stood F.calls F.faults M.plan M.change opening self.now log → result ≡ min (begins_now (entries log)) count_end }
    {
        self.desk.begun
    }

    /// How many requests run under a serial.
    pub fn tickets(&self, serial: u32) -> u32
        ensures { (opening : _) (log : List Signed) → Stood F.calls F.faults M.plan M.change opening self.now log → result ≡ open_at serial (state_at log).tickets }
    {
        self.desk.tickets_at(serial)
    }

    /// Whether a serial is retired.
    pub fn retired(&self, serial: u32) -> bool
        ensures { (opening : _) (log : List Signed) → Stood F.calls F.faults M.plan M.change opening self.now log → result ≡ has_number serial (state_at log).retired }
    {
        self.desk.retired(serial)
    }
}
