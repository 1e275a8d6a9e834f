ghost use Rattle.std.specs.Prelude.{◌≡◌, ◌≢◌, ◌++◌, IfOk, MatchResult};
ghost use Rattle.cd_module.specs.Faults.{refused, unknown_module, repeated_address, repeated_id, limit_reached, of_field};

use crate::limits::Limit;
use cd_text::{NoMemory, Text};
use cd_tree::{FieldFault, Path, Place};
use std::alloc::{AllocError, AllocFailed, Global};

/// The kinds of faults of a configuration.
#[derive(Clone, Copy, Debug, PartialEq, Eq)]
pub enum LoadKind {
    /// No module has the id.
    UnknownModule,
    /// An object has a member that is not among those that it may have.
    UnknownMember,
    /// A value is of another kind than is read there.
    WrongKind,
    /// A member that is needed is absent or null.
    Missing,
    /// A value is of the right kind, but none that may stand there.
    BadValue,
    /// A text is no address.
    BadAddress,
    /// An address is listened on twice.
    RepeatedAddress,
    /// Two objects have the same id.
    RepeatedId,
    /// There are more modules, addresses, servers, error subroutes or expanded routes than may be.
    LimitReached,
    /// A named route leads to itself.
    NamedCycle,
}

/// Why a configuration is refused, and where. A field that its words do not use is empty.
#[derive(Debug, Drop)]
pub struct Refusal {
    /// What is wrong.
    pub kind: LoadKind,
    /// Where. An unknown member's path ends in that member, a missing one's too; an unknown module's leads to the handler,
    /// the writer, the app or the matcher, and a cycle's to the least name of a route that leads to itself.
    pub at: Path,
    /// Where else: the second place of a repeated id.
    pub other: Path,
    /// The id, the address, or what there is too much of.
    pub about: Text,
}

/// Why settings are not read.
#[derive(Debug, Drop)]
pub enum LoadFault {
    /// By the configuration's fault.
    Refused(Refusal),
    /// Memory ran out.
    NoMemory,
}

impl From<NoMemory> for LoadFault {
    ghost use Rattle.std.specs.Prelude.{◌≡◌};
    ghost use Rattle.cd_module.specs.declared.fault.LoadFault.TheVariants.{NoMemory as out_of_memory};

    ghost from_gives = { λ _ fault. fault ≡ out_of_memory };

    fn from(_: NoMemory) -> LoadFault {
        LoadFault::NoMemory
    }
}

impl From<AllocError> for LoadFault {
    ghost use Rattle.std.specs.Prelude.{◌≡◌};
    ghost use Rattle.cd_module.specs.declared.fault.LoadFault.TheVariants.{NoMemory as out_of_memory};

    ghost from_gives = { λ _ fault. fault ≡ out_of_memory };

    fn from(_: AllocError) -> LoadFault {
        LoadFault::NoMemory
    }
}

impl<T: Drop> From<AllocFailed<T>> for LoadFault {
    ghost use Rattle.std.specs.Prelude.{◌≡◌};
    ghost use Rattle.cd_module.specs.declared.fault.LoadFault.TheVariants.{NoMemory as out_of_memory};

    ghost from_gives = { λ _ fault. fault ≡ out_of_memory };

    fn from(_: AllocFailed<T>) -> LoadFault {
        LoadFault::NoMemory
    }
}

fn repeated_address(alloc: Global, address: &str, at: &Path) -> Result<LoadFault, NoMemory>
    ensures { IfOk result (λ fault. fault ≡ repeated_address address.now at.now) }
{
    Ok(LoadFault::Refused(Refusal {
        kind: LoadKind::RepeatedAddress,
        at: at.copy(alloc)?,
        other: Path::root(alloc),
        about: Text::from_str(alloc, address)?,
    }))
}

fn repeated_id(alloc: Global, id: &str, first: &Path, second: &Path) -> Result<LoadFault, NoMemory>
    ensures { IfOk result (λ fault. fault ≡ repeated_id id.now first.now second.now) }
{
    Ok(LoadFault::Refused(Refusal {
        kind: LoadKind::RepeatedId,
        at: first.copy(alloc)?,
        other: second.copy(alloc)?,
        about: Text::from_str(alloc, id)?,
    }))
}

fn limit_reached(alloc: Global, limit: Limit) -> Result<LoadFault, NoMemory>
    ensures { IfOk result (λ fault. fault ≡ limit_reached limit) }
{
    Ok(LoadFault::Refused(Refusal {
        kind: LoadKind::LimitReached,
        at: Path::root(alloc),
        other: Path::root(alloc),
        about: Text::from_str(alloc, limit.name())?,
    }))
}

// The fault, or that there is no memory for it.
fn or_no_memory(fault: Result<LoadFault, NoMemory>) -> LoadFault
    ensures { MatchResult fault (λ made. result ≡ made) (λ _. result ≡ LoadFault.NoMemory) }
{
    match fault {
        Ok(fault) => fault,
        Err(_) => LoadFault::NoMemory,
    }
}

fn unknown_module(
    alloc: Global,
    namespace: &str,
    name: &str,
    at: &Place<'_>,
) -> Result<LoadFault, NoMemory>
    ensures { IfOk result (λ fault. fault ≡ unknown_module (namespace.now ++ name.now) at.now) }
{
    let mut about = String::from_str(alloc, namespace)?;
    about.push_str(name)?;
    Ok(LoadFault::Refused(Refusal {
        kind: LoadKind::UnknownModule,
        at: at.to_path(alloc)?,
        other: Path::root(alloc),
        about: Text::from_string(about),
    }))
}

impl LoadFault {
    /// The fault of a kind at a path, with nothing else to say. It takes no memory.
    pub fn refused(alloc: Global, kind: LoadKind, at: Path) -> LoadFault
        ensures { result ≡ refused kind at }
    {
        LoadFault::Refused(Refusal {
            kind,
            at,
            other: Path::root(alloc),
            about: Text::from_string(String::new(alloc)),
        })
    }

    /// The same at a place; NoMemory where there is no memory for its path.
    pub fn at(alloc: Global, kind: LoadKind, at: &Place<'_>) -> LoadFault
        ensures { result ≢ LoadFault.NoMemory → result ≡ refused kind at.now }
    {
        match at.to_path(alloc) {
            Ok(at) => LoadFault::refused(alloc, kind, at),
            Err(_) => LoadFault::NoMemory,
        }
    }

    /// The fault of a name that no module of the namespace has. The namespace ends with its dot.
    pub fn unknown_module(alloc: Global, namespace: &str, name: &str, at: &Place<'_>) -> LoadFault
        ensures { result ≢ LoadFault.NoMemory → result ≡ unknown_module (namespace.now ++ name.now) at.now }
    {
        or_no_memory(unknown_module(alloc, namespace, name, at))
    }

    /// The fault of an address, in its written form, that is listened on again at this path.
    pub fn repeated_address(alloc: Global, address: &str, at: &Path) -> LoadFault
        ensures { result ≢ LoadFault.NoMemory → result ≡ repeated_address address.now at.now }
    {
        or_no_memory(repeated_address(alloc, address, at))
    }

    /// The fault of an id that the objects at two paths have.
    pub fn repeated_id(alloc: Global, id: &str, first: &Path, second: &Path) -> LoadFault
        ensures { result ≢ LoadFault.NoMemory → result ≡ repeated_id id.now first.now second.now }
    {
        or_no_memory(repeated_id(alloc, id, first, second))
    }

    /// The fault that there is more of something than there may be.
    pub fn limit_reached(alloc: Global, limit: Limit) -> LoadFault
        ensures { result ≢ LoadFault.NoMemory → result ≡ limit_reached limit }
    {
        or_no_memory(limit_reached(alloc, limit))
    }

    /// The fault of an object's members.
    pub fn of_field(alloc: Global, fault: FieldFault) -> LoadFault
        ensures { result ≡ of_field fault }
    {
        match fault {
            FieldFault::UnknownMember(at) => {
                LoadFault::refused(alloc, LoadKind::UnknownMember, at)
            }
            FieldFault::WrongKind(at) => LoadFault::refused(alloc, LoadKind::WrongKind, at),
            FieldFault::Missing(at) => LoadFault::refused(alloc, LoadKind::Missing, at),
            FieldFault::NoMemory => LoadFault::NoMemory,
        }
    }
}
