// What the two configurations consist of, and names for the passes of a hall under them.
ghost use Rattle.std.specs.Prelude.{◌≡◌, ◌∷◌, [], IfOk, codes};
ghost use Rattle.cd_outside.specs.declared.key.Key.TheVariants.{Listen, Writer};
ghost use Rattle.cd_hall_cases.specs.Plans.{plain_plan, wide_plan, localhost};

use cd_fixed::{Fixed, Plans, list_of};
use cd_legal::{Plan, PlanApp, PlanModule};
use cd_outside::{Address, Key};
use cd_pair::Table;
use cd_text::{List, NoMemory, Text};
use cd_tree::{SharedText, Spot};
use std::alloc::Global;

/// The first configuration is the plain one, and the other the wide one.
pub struct PlainAndWide;

/// Where passes are at work in this program.
pub type On<'a, R> = cd_pair::Stage<'a, R, Set>;

/// Such a pass, and two of them.
pub type Player = cd_pair::Player<Set>;

pub type Pair = cd_pair::Pair<Table<Set>>;

/// The set of modules.
pub type Set = Fixed<PlainAndWide>;

impl Plans for PlainAndWide {
    ghost use Rattle.cd_hall_cases.specs.Plans.{plain_or_wide};

    ghost planned = { plain_or_wide };

    fn plan(alloc: Global, other: bool) -> Result<Plan, NoMemory> {
        if other { wide(alloc) } else { plain(alloc) }
    }
}

fn plain(alloc: Global) -> Result<Plan, NoMemory>
    ensures { IfOk result (λ plan. plan ≡ plain_plan) }
{
    let modules = list_of(alloc, writer(alloc)?)?;
    let apps = list_of(alloc, listener(alloc)?)?;
    Ok(Plan { modules, apps })
}

fn wide(alloc: Global) -> Result<Plan, NoMemory>
    ensures { IfOk result (λ plan. plan ≡ wide_plan) }
{
    let modules = writers(alloc)?;
    let apps = two(alloc, listener(alloc)?, listeners(alloc)?)?;
    Ok(Plan { modules, apps })
}

fn writers(alloc: Global) -> Result<List<PlanModule>, NoMemory>
    ensures { IfOk result (λ modules. modules ≡ wide_plan.modules) }
{
    let mut modules = two(alloc, writer(alloc)?, auditor(alloc)?)?;
    modules.push(tracer(alloc)?)?;
    Ok(modules)
}

fn writer(alloc: Global) -> Result<PlanModule, NoMemory>
    ensures { IfOk result (λ made. made ≡ record { name = codes "writer"; at = record { parts = [] }; keys = Writer (codes "stdout") ∷ [] }) }
{
    let keys = list_of(alloc, writes(alloc, "stdout")?)?;
    module(alloc, "writer", keys)
}

fn auditor(alloc: Global) -> Result<PlanModule, NoMemory>
    ensures { IfOk result (λ made. made ≡ record { name = codes "auditor"; at = record { parts = [] }; keys = Writer (codes "stdout") ∷ Writer (codes "file:audit") ∷ [] }) }
{
    let keys = two(
        alloc,
        writes(alloc, "stdout")?,
        writes(alloc, "file:audit")?,
    )?;
    module(alloc, "auditor", keys)
}

fn tracer(alloc: Global) -> Result<PlanModule, NoMemory>
    ensures { IfOk result (λ made. made ≡ record { name = codes "tracer"; at = record { parts = [] }; keys = Writer (codes "file:audit") ∷ Writer (codes "file:trace") ∷ [] }) }
{
    let keys = two(
        alloc,
        writes(alloc, "file:audit")?,
        writes(alloc, "file:trace")?,
    )?;
    module(alloc, "tracer", keys)
}

fn listener(alloc: Global) -> Result<PlanApp, NoMemory>
    ensures { IfOk result (λ app. app ≡ record { name = codes "listener"; keys = Listen (localhost 8080) ∷ [] }) }
{
    let keys = list_of(alloc, listens(alloc, 8080)?)?;
    let name = Text::from_str(alloc, "listener")?;
    Ok(PlanApp { name, keys })
}

fn listeners(alloc: Global) -> Result<PlanApp, NoMemory>
    ensures { IfOk result (λ app. app ≡ record { name = codes "listeners"; keys = Listen (localhost 8080) ∷ Listen (localhost 8443) ∷ [] }) }
{
    let keys = two(alloc, listens(alloc, 8080)?, listens(alloc, 8443)?)?;
    let name = Text::from_str(alloc, "listeners")?;
    Ok(PlanApp { name, keys })
}

fn module(alloc: Global, name: &str, keys: List<Key>) -> Result<PlanModule, NoMemory>
    ensures { IfOk result (λ made. made ≡ record { name = name.now; at = record { parts = [] }; keys = keys }) }
{
    let name = SharedText::from_str(alloc, name)?;
    let at = Spot::root(alloc);
    Ok(PlanModule { name, at, keys })
}

fn writes(alloc: Global, name: &str) -> Result<Key, NoMemory>
    ensures { IfOk result (λ key. key ≡ Writer name.now) }
{
    Ok(Key::Writer(Text::from_str(alloc, name)?))
}

fn listens(alloc: Global, port: u16) -> Result<Key, NoMemory>
    ensures { IfOk result (λ key. key ≡ Listen (localhost port)) }
{
    let host = Text::from_str(alloc, "localhost")?;
    Ok(Key::Listen(Address { host, port }))
}

fn two<T: Drop>(alloc: Global, first: T, second: T) -> Result<List<T>, NoMemory>
    ensures { IfOk result (λ list. list ≡ first ∷ second ∷ []) }
{
    let mut list = list_of(alloc, first)?;
    list.push(second)?;
    Ok(list)
}
