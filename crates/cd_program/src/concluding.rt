//! How a run ends: its last line, and its status.
ghost use Rattle.std.specs.Prelude.{◌≡◌, ℕ};
ghost use Rattle.cd_host.specs.declared.host_end.HostHow.TheVariants as how;
ghost use Rattle.cd_program.specs.Endings.{Concludes};
ghost use Rattle.cd_outside.specs.Devices.{device};
ghost use Rattle.cd_program.specs.Top.{code_of};
ghost use Rattle.cd_program.specs.declared.status.Status.{Status as Ending};

use crate::ended::Ended;
use crate::output::{say_line, served_line, unopened_line};
use crate::status::Status;
use cd_host::{HostEnd, HostHow};
use cd_module_set::ModuleSet;
use cd_outside::{Given, Key, Sink};
use cd_text::List;
use std::alloc::Global;

// Says how many requests were answered under how many configurations.
#[tactic(auto, unfolding(crate::specs::Output::served_line))]
fn say_served<O: Sink>(alloc: Global, answered: u64, published: u32, out: &mut O) -> Status
    ensures { Concludes answered published (device O.holds O.faults out.old out.new) how.Served result }
{
    let Ok(line) = served_line(alloc, answered, published) else {
        return Status::NoMemory;
    };
    match say_line(out, line.as_str()) {
        Given::All => Status::Done,
        Given::Failed => Status::WriteFault,
    }
}

// Says which key could not be opened.
fn say_unopened<O: Sink>(alloc: Global, key: &Key, out: &mut O) -> Status
    ensures { (answered : ℕ) (published : ℕ) → Concludes answered published (device O.holds O.faults out.old out.new) (how.FirstRefused key.now) result }
{
    let Ok(line) = unopened_line(alloc, key) else {
        return Status::NoMemory;
    };
    let _ = say_line(out, line.as_str());
    Status::Unopened
}

// Says the last line of a run.
fn say_last<O: Sink>(
    alloc: Global,
    how: &HostHow,
    answered: u64,
    published: u32,
    out: &mut O,
) -> Status
    ensures { Concludes answered published (device O.holds O.faults out.old out.new) how.now result }
{
    match how {
        HostHow::Served => say_served(alloc, answered, published, out),
        HostHow::FirstRefused(key) => say_unopened(alloc, key, out),
        HostHow::WriteFault => Status::WriteFault,
        HostHow::NoMemory => Status::NoMemory,
    }
}

/// Says the last line of a run that ended so, and hands back what it gives.
pub fn conclude<M: ModuleSet, O: Sink, F, L>(
    alloc: Global,
    end: HostEnd<M, F, L>,
    out: &mut O,
) -> Ended<F, L>
    ensures { (status : Ending) × Concludes end.answered end.published (device O.holds O.faults out.old out.new) end.how status
        × (result ≡ record { status = code_of status; fixtures = end.fixtures; lanes = end.lanes.items; answered = end.answered; published = end.published; cut = end.cut }) }
{
    let HostEnd {
        fixtures,
        lanes,
        answered,
        published,
        cut,
        how,
        last,
    } = end;
    let _ = last;
    let status = say_last(alloc, &how, answered, published, out);
    Ended {
        status: status.code(),
        fixtures,
        lanes: List::from_vec(lanes),
        answered,
        published,
        cut,
    }
}
