ghost use Rattle.std.specs.Prelude.{◌≡◌, ◌≤◌, ◌==◌, ◌&&◌, IfOk, List, false};
ghost use Rattle.cd_legal.specs.declared.entry.Signed.{Signed};
ghost use Rattle.cd_legal.specs.State.{conf_of, has_number};
ghost use Rattle.cd_legal.specs.Legal.{state_at};
ghost use Rattle.cd_life.specs.Changes.{conf_here};
ghost use Rattle.cd_life.specs.Shares.{conf_in};
ghost use Rattle.cd_life.specs.Standing.{Stood, IsUnretired};

use crate::board::Board;
use crate::kept::place_of;
use crate::shares::Share;
use cd_module_set::ModuleSet;
use cd_outside::Fixtures;
use cd_text::NoMemory;
use std::sync::Arc;

// Whether it is the serial of the halt.
fn is_halt(halted: bool, last: u32, serial: u32) -> bool
    ensures { result ≡ (halted && (serial == last)) }
{
    halted && serial == last
}

impl<M: ModuleSet, F: Fixtures> Board<M, F> {
    /// Shares a configuration that is not retired.
    ///
    /// # Errors
    ///
    /// Out of memory.
    pub fn share(&self, serial: u32) -> Result<Share<M>, NoMemory>
        requires { IsUnretired F.calls F.faults M.plan M.change self.now serial }
        ensures here { IfOk result (λ share. conf_in share ≡ conf_here self.now serial) }
        ensures state { IfOk result (λ share. (opening : _) (log : List Signed) → Stood F.calls F.faults M.plan M.change opening self.now log → serial ≤ (state_at log).serial → has_number serial (state_at log).retired ≡ false → conf_in share ≡ conf_of (state_at log) serial) }
    {
        if is_halt(self.desk.halted, self.desk.serial, serial) {
            return Ok(Share::Halted(Arc::try_clone(&self.opening)?));
        }
        if serial == 0 {
            return Ok(Share::Opening(Arc::try_clone(&self.opening)?));
        }
        let Some(place) = place_of(self.kept.as_slice(), serial) else {
            unreachable!()
        };
        Ok(Share::Running(Arc::try_clone(&self.kept[place].loaded)?))
    }
}
