//! Requests begin and end, and what is due then is retired.
ghost use Rattle.std.specs.Prelude.{◌≡◌, [], None, IfOk, OnErr, true};
ghost use mathlib.Core.List.{IsPrefix};
ghost use Rattle.cd_legal.specs.Legal.{state_at};
ghost use Rattle.cd_gate.specs.Passes.{view};
ghost use Rattle.cd_hall.specs.Calls.{duties_in};
ghost use Rattle.cd_pair.specs.Passes.{Has, Runs};

use crate::stage::{Player, Refused, Stage};
use cd_hall::{Duty, Ticket};
use cd_module_set::ModuleSet;
use std::sync::Wait;

impl<'a, R: Wait, M: ModuleSet> Stage<'a, R, M> {
    /// The pass begins a request.
    pub fn begin(&self, pass: &mut Player<M>, number: u32) -> Result<Ticket<M>, Refused>
        requires { Has self.now.hall.now pass.old number None None [] }
        ensures runs { IfOk result (λ ticket. Runs self.now.hall.now pass.new number ticket None) }
        ensures err { OnErr result (Has self.now.hall.now pass.new number None None []) }
    {
        let _ = number;
        match self.hall.begin(self.rt, pass) {
            Ok(ticket) => Ok(ticket),
            Err(_) => Err(Refused::NoMemory),
        }
    }

    /// The pass ends its request, and retires what is due. It says how many duties it had.
    pub fn end(&self, pass: &mut Player<M>, ticket: Ticket<M>, number: u32) -> u32
        requires { Runs self.now.hall.now pass.old number ticket None }
        ensures { Has self.now.hall.now pass.new number None None [] }
    {
        let duty = self.hall.finish(ticket, pass);
        self.retire(pass, duty, number)
    }

    /// The pass does its duty, where it has one, and says how many it had.
    pub fn retire(&self, pass: &mut Player<M>, duty: Option<Duty>, number: u32) -> u32
        requires has { Has self.now.hall.now pass.old number None None (duties_in duty) }
        ensures has { Has self.now.hall.now pass.new number None None [] }
        ensures seen { IsPrefix (view pass.old).seen (view pass.new).seen }
        ensures halted { (state_at (view pass.old).seen).halted ≡ true → (state_at (view pass.new).seen).halted ≡ true }
    {
        let _ = number;
        match duty {
            Some(duty) => {
                self.hall.retire(self.rt, duty, pass);
                1
            }
            None => 0,
        }
    }
}
