// What the two configurations consist of, and names for the passes of a hall under them.
ghost use Rattle.std.specs.Prelude.{◌≡◌, IfOk};
ghost use Rattle.cd_serve_cases.specs.Plans.{plan_at};

use cd_fixed::{Fixed, Plans, list_of};
use cd_legal::{Plan, PlanApp};
use cd_outside::{Address, Key};
use cd_pair::Table;
use cd_text::{List, NoMemory, Text};
use std::alloc::Global;

/// Both configurations consist of one app, which listens at one port in the first, and at another in the other.
pub struct TwoPorts;

/// Where passes are at work in this program.
pub type On<'a, R> = cd_pair::Stage<'a, R, Set>;

/// Such a pass, and two of them.
pub type Player = cd_pair::Player<Set>;

pub type Pair = cd_pair::Pair<Table<Set>>;

/// The set of modules.
pub type Set = Fixed<TwoPorts>;

impl Plans for TwoPorts {
    ghost use Rattle.cd_serve_cases.specs.Plans.{either_port};

    ghost planned = { either_port };

    fn plan(alloc: Global, other: bool) -> Result<Plan, NoMemory> {
        if other {
            plan_at(alloc, 8443)
        } else {
            plan_at(alloc, 8080)
        }
    }
}

fn plan_at(alloc: Global, port: u16) -> Result<Plan, NoMemory>
    ensures { IfOk result (λ plan. plan ≡ plan_at port) }
{
    let host = Text::from_str(alloc, "localhost")?;
    let keys = list_of(alloc, Key::Listen(Address { host, port }))?;
    let name = Text::from_str(alloc, "listener")?;
    let apps = list_of(alloc, PlanApp { name, keys })?;
    let modules = List::new(alloc);
    Ok(Plan { modules, apps })
}
