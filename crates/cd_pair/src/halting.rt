//! The host is halted.
ghost use Rattle.std.specs.Prelude.{◌≡◌, [], None, true};
ghost use Rattle.cd_legal.specs.Legal.{state_at};
ghost use Rattle.cd_gate.specs.Passes.{view};
ghost use Rattle.cd_pair.specs.Passes.{Has};

use crate::stage::{Player, Stage};
use cd_module_set::ModuleSet;
use std::sync::Wait;

impl<'a, R: Wait, M: ModuleSet> Stage<'a, R, M> {
    /// The host is halted, unless it was, and what is due is retired. It says how many duties came, or `None` where it was halted.
    pub fn halt(&self, pass: &mut Player<M>, number: u32) -> Option<u32>
        requires { Has self.now.hall.now pass.old number None None [] }
        ensures has { Has self.now.hall.now pass.new number None None [] }
        ensures halted { (state_at (view pass.new).seen).halted ≡ true }
    {
        match self.hall.halt(self.rt, pass) {
            Ok(duty) => Some(self.retire(pass, duty, number)),
            Err(_) => None,
        }
    }
}
