ghost use Rattle.std.specs.Prelude.{◌≡◌, IfOk};

use crate::fields::Field;
use crate::seen::Fields;
use cd_text::{List, NoMemory};
use std::alloc::Global;
use std::marker::Model;

/// The fields that a request has on its way: those that it lends, or others in their place. Contracts see the list.
#[derive(Debug, Drop)]
pub struct RequestFields<'r> {
    held: Held<'r>,
}

#[derive(Debug, Drop)]
enum Held<'r> {
    Seen(Fields<'r>),
    Own(List<Field<'r>>),
}

impl<'r> Model for RequestFields<'r> {
    ghost use Rattle.std.specs.Prelude.{List};
    ghost use Rattle.cd_wire.specs.declared.fields.Field.{Field};

    ghost Value = { List Field };

    ghost use Rattle.cd_wire.specs.Held.{held_fields};

    ghost view = { λ fields. held_fields fields.held };
}

impl<'r> RequestFields<'r> {
    /// What the request lends.
    pub fn lent(fields: Fields<'r>) -> RequestFields<'r>
        ensures { result ≡ fields.entry }
    {
        RequestFields {
            held: Held::Seen(fields),
        }
    }

    /// Other fields.
    pub fn own(fields: List<Field<'r>>) -> RequestFields<'r>
        ensures { result ≡ fields.entry }
    {
        RequestFields {
            held: Held::Own(fields),
        }
    }

    /// The fields, to look at.
    pub fn look(&self) -> Fields<'_>
        ensures { result ≡ self.now }
    {
        // Each arm returns by itself: the borrow checker does not join what they lend.
        match &self.held {
            Held::Seen(fields) => return fields.again(),
            Held::Own(fields) => return Fields::listed(fields.as_slice()),
        }
    }

    /// The list of the fields. It takes memory for the list alone, and only where the request lends them.
    pub fn into_list(self, alloc: Global) -> Result<List<Field<'r>>, NoMemory>
        ensures { IfOk result (λ fields. fields ≡ self.entry) }
    {
        match self.held {
            Held::Seen(fields) => fields.list(alloc),
            Held::Own(fields) => Ok(fields),
        }
    }
}
