ghost use Rattle.std.specs.Prelude.{◌≡◌, IfOk};
ghost use Rattle.cd_routes.specs.Running.{with_error};
ghost use Rattle.cd_chain.specs.Chains.{from_place};
ghost use Rattle.cd_chain.specs.Frames.{outcome_of};
ghost use Rattle.cd_chain.specs.Indexes.{AreSound};

use crate::framing::{answered, caught};
use crate::index::Index;
use crate::place::Place;
use crate::progress::{Ended, Progress};
use crate::stepping::advance;
use cd_fill::{Failure, Scene};
use cd_text::{List, NoMemory, Octets};
use std::alloc::Global;

/// The scene becomes the one in which a failure is handled.
pub(crate) fn fail_into(status: u16, message: Octets, scene: &mut Scene<'_>)
    ensures { scene.new ≡ with_error status message scene.old }
{
    scene.error = Some(Failure { status, message });
}

/// What becomes of a scene at a place, where no named route is being done.
#[tactic(auto, using(crate::proofs::Frames::unwound_none, crate::proofs::Frames::returning_none))]
pub(crate) fn run<'r>(
    alloc: Global,
    places: &'r [Place],
    indexes: &[Index],
    start: usize,
    scene: &mut Scene<'r>,
) -> Result<Ended<'r>, NoMemory>
    requires { AreSound places.now indexes.now }
    ensures { IfOk result (λ ended. outcome_of ended scene.new ≡ from_place places.now start scene.old) }
{
    let mut frames = List::new(alloc);
    let mut returns = List::new(alloc);
    let mut progress = Progress::Goes(start);
    loop {
        match progress {
            Progress::Goes(n) => {
                progress = advance(alloc, places, indexes, n, scene, &mut returns, &mut frames)?;
            }
            Progress::Ends(Ended::Answered(answer)) => {
                let answer = answered(alloc, frames, answer)?;
                return Ok(Ended::Answered(answer));
            }
            Progress::Ends(Ended::Failed(status, message)) => match caught(&mut frames) {
                None => return Ok(Ended::Failed(status, message)),
                Some(errors) => {
                    fail_into(status, message, scene);
                    returns = errors.returns;
                    progress = Progress::Goes(errors.begin);
                }
            },
        }
    }
}
