//! Fields to look at.
ghost use Rattle.std.specs.Prelude.{◌≡◌, length, IfOk};
ghost use Rattle.cd_wire.specs.Places.{IsPlaceIn, ArePlacesIn, field_at, fields_at};

use crate::fields::Field;
use crate::lent::Lent;
use crate::place::{Place, first_at, second_at};
use cd_text::{List, NoMemory};
use std::alloc::Global;
use std::marker::Model;

/// Fields to look at, in their order: those of a request, or those of a list. It gives them one by one.
#[derive(Debug, Drop)]
pub struct Fields<'a> {
    seen: Seen<'a>,
}

#[derive(Clone, Copy, Debug)]
enum Seen<'a> {
    Placed(&'a [u8], &'a [Place]),
    Listed(&'a [Field<'a>]),
}

impl<'a> Model for Fields<'a> {
    ghost use Rattle.std.specs.Prelude.{List};
    ghost use Rattle.cd_wire.specs.declared.fields.Field.{Field};

    ghost Value = { List Field };

    ghost use Rattle.cd_wire.specs.Seen.{seen_fields, AreSeen};

    ghost view = { λ fields. seen_fields fields.seen };

    ghost invariant = { λ fields. AreSeen fields.seen };
}

fn field_at<'a>(bytes: &'a [u8], place: Place) -> Field<'a>
    requires { IsPlaceIn (length bytes.now) place }
    ensures { result ≡ field_at bytes.now place }
{
    Field {
        name: Lent::shared(first_at(bytes, place)),
        value: Lent::shared(second_at(bytes, place)),
    }
}

/// The fields that lie at places in bytes.
pub(crate) fn fields_at<'a>(bytes: &'a [u8], places: &'a [Place]) -> Fields<'a>
    requires { ArePlacesIn (length bytes.now) places.now }
    ensures { result ≡ fields_at bytes.now places.now }
{
    Fields {
        seen: Seen::Placed(bytes, places),
    }
}

impl<'a> Fields<'a> {
    /// The same fields, to look at once more.
    pub fn again(&self) -> Fields<'a>
        ensures { result ≡ self.now }
    {
        let seen = self.seen;
        Fields { seen }
    }

    /// A list of the fields, which lends them.
    pub fn list(self, alloc: Global) -> Result<List<Field<'a>>, NoMemory>
        ensures { IfOk result (λ made. made ≡ self.entry) }
    {
        let mut made = Vec::new(alloc);
        for field in self {
            made.push(field)?;
        }
        Ok(List::from_vec(made))
    }

    /// The fields of a list.
    pub fn listed(fields: &'a [Field<'a>]) -> Fields<'a>
        ensures { result ≡ fields.now }
    {
        Fields {
            seen: Seen::Listed(fields),
        }
    }
}

impl<'a> Iterator for Fields<'a> {
    ghost use Rattle.std.specs.Iterator.{YieldsFirst, item_count};

    type Item = Field<'a>;

    ghost next_gives = { YieldsFirst (λ fields. fields) };

    ghost remaining = { item_count (λ fields. fields) };

    fn next(&mut self) -> Option<Field<'a>> {
        match self.seen {
            Seen::Placed(bytes, places) => {
                let [first, rest @ ..] = places else {
                    return None;
                };
                self.seen = Seen::Placed(bytes, rest);
                Some(field_at(bytes, *first))
            }
            Seen::Listed(fields) => {
                let [first, rest @ ..] = fields else {
                    return None;
                };
                self.seen = Seen::Listed(rest);
                Some(first.lent())
            }
        }
    }
}
