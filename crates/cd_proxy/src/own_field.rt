ghost use Rattle.std.specs.Prelude.{◌≡◌, IfOk};

use cd_text::{List, NoMemory, Octets};
use cd_wire::{Field, Lent};
use std::alloc::Global;
use std::marker::Model;

/// A field of a response, which owns its parts. Contracts see a field as any other.
#[derive(Debug, Drop)]
pub(crate) struct OwnField {
    pub name: Octets,
    pub value: Octets,
}

impl Model for OwnField {
    ghost use Rattle.cd_wire.specs.declared.fields.Field.{Field};

    ghost Value = { Field };

    ghost view = { λ field. record { name = field.name; value = field.value } };
}

impl OwnField {
    /// A field with these parts.
    pub fn new(name: Octets, value: Octets) -> OwnField
        ensures { result ≡ record { name = name; value = value } }
    {
        OwnField { name, value }
    }

    /// The same field, which this one lends. It takes no memory.
    pub fn lent(&self) -> Field<'_>
        ensures { result ≡ self.now }
    {
        Field {
            name: Lent::shared(self.name.as_slice()),
            value: Lent::shared(self.value.as_slice()),
        }
    }

    /// The same field.
    pub fn copy(&self, alloc: Global) -> Result<OwnField, NoMemory>
        ensures { IfOk result (λ made. made ≡ self.now) }
    {
        Ok(OwnField {
            name: self.name.copy(alloc)?,
            value: self.value.copy(alloc)?,
        })
    }
}

/// The same fields, which these lend.
pub(crate) fn lend<'a>(alloc: Global, fields: &'a [OwnField]) -> Result<List<Field<'a>>, NoMemory>
    ensures { IfOk result (λ lent. lent ≡ fields.now) }
{
    let mut lent = Vec::with_capacity(alloc, fields.len())?;
    for field in fields {
        lent.push(field.lent())?;
    }
    Ok(List::from_vec(lent))
}
