//! Whether a file is its owner's alone.
ghost use Rattle.std.specs.Prelude.{◌≡◌};
ghost use Rattle.cd_disk.specs.Attributes.{fault_of, fault_of_regular};

/// What a name stands for.
#[derive(Clone, Copy, Debug, PartialEq, Eq)]
pub enum Kind {
    Regular,
    /// A symbolic link, whatever it leads to.
    Link,
    Other,
}

/// What the system says of a name, without following a link.
#[derive(Clone, Copy, Debug, PartialEq, Eq)]
pub struct Attributes {
    pub kind: Kind,
    /// The user whom the file belongs to.
    pub owner: u32,
    /// The permissions of its owner, its group and others are the last nine bits (stat(2)).
    pub mode: u32,
    /// How many names it has.
    pub names: u64,
}

/// Why a file is not used.
#[derive(Clone, Copy, Debug, PartialEq, Eq)]
pub enum FileFault {
    Linked,
    NotRegular,
    /// It belongs to another user.
    Foreign,
    /// Its group or others may do something with it.
    Shared,
    /// It has another name, by which it may be read and written elsewhere.
    Named,
}

/// The permissions of the group and of others are the bits below this one.
pub const OWNER_BITS: u32 = 0o100;

/// Why a file is not used by this user. Who is not its owner may have written it, or may read what is saved there.
pub fn fault_of(found: Attributes, user: u32) -> Option<FileFault>
    ensures { result ≡ fault_of found user }
{
    match found.kind {
        Kind::Link => Some(FileFault::Linked),
        Kind::Other => Some(FileFault::NotRegular),
        Kind::Regular => fault_of_regular(found, user),
    }
}

fn fault_of_regular(found: Attributes, user: u32) -> Option<FileFault>
    ensures { result ≡ fault_of_regular found user }
{
    if found.owner != user {
        Some(FileFault::Foreign)
    } else if found.mode % OWNER_BITS != 0 {
        Some(FileFault::Shared)
    } else if found.names > 1 {
        Some(FileFault::Named)
    } else {
        None
    }
}

/// What standard error says of it.
pub fn words_of(fault: FileFault) -> &'static str {
    match fault {
        FileFault::Linked => "it is a symbolic link",
        FileFault::NotRegular => "it is no regular file",
        FileFault::Foreign => "it belongs to another user",
        FileFault::Shared => "not only its owner may use it",
        FileFault::Named => "it has another name too",
    }
}
