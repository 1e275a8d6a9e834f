//! Lists that are lent until they become others.
ghost use Rattle.std.specs.Prelude.{◌≡◌, ◌↔◌, [], length, IsTrue, IfOk};
ghost use Rattle.std.specs.Str.{bytes_eq};

use crate::fields::Field;
use cd_text::{List, NoMemory, Octets, Text};
use std::alloc::Global;
use std::marker::Model;

/// A list that somebody lends, or one of its own. Contracts see the list.
#[derive(Debug, Drop)]
pub struct Lent<'r, T> {
    kept: Kept<'r, T>,
}

#[derive(Debug, Drop)]
enum Kept<'r, T> {
    Shared(&'r [T]),
    Own(List<T>),
}

impl<'r, T> Model for Lent<'r, T> {
    ghost use Rattle.std.specs.Prelude.{List};
    ghost use Rattle.std.specs.Coded.{coded_list};

    ghost Value = { List T };

    ghost coded = { coded_list T.code };

    ghost use Rattle.cd_wire.specs.Lent.{kept_list};

    ghost view = { λ lent. kept_list lent.kept };
}

impl<'r, T> Lent<'r, T> {
    /// What somebody lends.
    pub fn shared(list: &'r [T]) -> Lent<'r, T>
        ensures { result ≡ list.now }
    {
        Lent {
            kept: Kept::Shared(list),
        }
    }

    /// A list of its own.
    pub fn own(list: List<T>) -> Lent<'r, T>
        ensures { result ≡ list }
    {
        Lent {
            kept: Kept::Own(list),
        }
    }

    /// The elements, to look at.
    pub fn as_slice(&self) -> &[T]
        ensures { result.now ≡ self.now }
    {
        match &self.kept {
            Kept::Shared(list) => list,
            Kept::Own(list) => list.as_slice(),
        }
    }
}

impl<'r> Lent<'r, u8> {
    /// Bytes of its own.
    pub fn octets(bytes: Octets) -> Lent<'r, u8>
        ensures { result ≡ bytes }
    {
        Lent::own(List::from_vec(bytes.into_vec()))
    }

    /// The bytes of a text of its own.
    pub fn text(text: Text) -> Lent<'r, u8>
        ensures { result ≡ text }
    {
        Lent::octets(Octets::from_vec(text.into_string().into_bytes()))
    }

    /// How many bytes there are.
    pub fn len(&self) -> usize
        ensures { result ≡ length self.now }
    {
        self.as_slice().len()
    }

    /// Whether these are the bytes.
    pub fn equals(&self, other: &[u8]) -> bool
        ensures value { result ≡ bytes_eq self.now other.now }
        ensures same { IsTrue result ↔ (self.now ≡ other.now) }
    {
        self.as_slice() == other
    }

    /// The same bytes. They are copied where they are not lent.
    pub fn copy(&self, alloc: Global) -> Result<Lent<'r, u8>, NoMemory>
        ensures { IfOk result (λ made. made ≡ self.now) }
    {
        match &self.kept {
            Kept::Shared(list) => Ok(Lent::shared(list)),
            Kept::Own(list) => Ok(Lent::octets(Octets::from_slice(alloc, list.as_slice())?)),
        }
    }
}

/// The same fields.
pub fn copy_fields<'a>(alloc: Global, fields: &[Field<'a>]) -> Result<List<Field<'a>>, NoMemory>
    ensures { IfOk result (λ made. made ≡ fields.now) }
{
    let mut copies = Vec::with_capacity(alloc, fields.len())?;
    for field in fields {
        copies.push(field.copy(alloc)?)?;
    }
    Ok(List::from_vec(copies))
}

impl<'r, 'a> Lent<'r, Field<'a>> {
    /// The fields, which are copied where they are lent.
    pub fn into_list(self, alloc: Global) -> Result<List<Field<'a>>, NoMemory>
        ensures { IfOk result (λ fields. fields ≡ self.entry) }
    {
        match self.kept {
            Kept::Shared(list) => copy_fields(alloc, list),
            Kept::Own(list) => Ok(list),
        }
    }
}
