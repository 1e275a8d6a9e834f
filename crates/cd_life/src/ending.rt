ghost use Rattle.std.specs.Prelude.{◌≡◌, ◌≢◌, ◌-◌, ℕ, cond, false, List};
ghost use Rattle.cd_legal.specs.declared.entry.Signed.{Signed};
ghost use Rattle.cd_legal.specs.Legal.{state_at};
ghost use Rattle.cd_life.specs.Changes.{tree_at, conf_kept, conf_there};
ghost use Rattle.cd_life.specs.Shares.{conf_in};
ghost use Rattle.cd_life.specs.Standing.{Stood, HasEnded, last_published};

use crate::board::{Board, Kept};
use crate::kept::place_of;
use crate::share::Nothing;
use crate::shares::Share;
use cd_module_set::ModuleSet;
use cd_outside::Fixtures;
use std::sync::Arc;

// The serial of the configuration that was published last, 0 where none was.
fn last_serial(halted: bool, serial: u32) -> u32
    ensures { result ≡ serial - cond {A = ℕ} halted 1 0 }
{
    if halted {
        serial.saturating_sub(1)
    } else {
        serial
    }
}

// Lets configurations go.
fn let_go<M: ModuleSet>(mut kept: Vec<Kept<M>>) {
    while let Some(one) = kept.pop() {
        let Kept { serial: _, loaded } = one;
        drop(loaded);
    }
    kept.destroy_empty();
}

// The configuration with the serial among these, and the opening one where none has it. All others are let go.
fn one_of<M: ModuleSet>(mut kept: Vec<Kept<M>>, opening: Arc<Nothing<M>>, serial: u32) -> Share<M>
    ensures { conf_in result ≡ conf_kept (tree_at kept.items serial) }
{
    let Some(place) = place_of(kept.as_slice(), serial) else {
        let_go(kept);
        return Share::Opening(opening);
    };
    let Kept { serial: _, loaded } = kept.remove(place);
    let_go(kept);
    drop(opening);
    Share::Running(loaded)
}

// The configuration with the serial, which is the opening one for serial 0. All others are let go.
fn share_of<M: ModuleSet>(kept: Vec<Kept<M>>, opening: Arc<Nothing<M>>, serial: u32) -> Share<M>
    ensures { conf_in result ≡ conf_there false (tree_at kept.items serial) serial }
{
    if serial == 0 {
        let_go(kept);
        return Share::Opening(opening);
    }
    one_of(kept, opening, serial)
}

impl<M: ModuleSet, F: Fixtures> Board<M, F> {
    /// Ends a board of which nothing is left: each draft is closed, and no request runs. It hands back the fixtures, and the
    /// configuration that was published last, or the opening one where none was.
    pub fn end(self) -> (F, Share<M>)
        requires { HasEnded F.calls F.faults M.plan M.change self }
        ensures fixtures { result.0 ≡ self.desk.fixtures }
        ensures last { (opening : _) (log : List Signed) → Stood F.calls F.faults M.plan M.change opening self log → conf_in result.1 ≡ last_published (state_at log) }
    {
        let Board {
            desk,
            opening,
            kept,
            live: _,
        } = self;
        let last = last_serial(desk.halted, desk.serial);
        let fixtures = desk.end();
        (fixtures, share_of(kept, opening, last))
    }
}
