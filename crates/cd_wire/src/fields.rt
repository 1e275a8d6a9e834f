ghost use Rattle.std.specs.Prelude.{◌≡◌, IfOk};
ghost use Rattle.std.specs.Str.{str_eq_ignore_ascii_case};

use crate::lent::Lent;
use cd_text::NoMemory;
use std::alloc::Global;

/// A field of a head (RFC 9110, section 5). Its parts are lent, or its own.
#[derive(Debug, Drop)]
pub struct Field<'a> {
    /// The name. In a request it is in lower case.
    pub name: Lent<'a, u8>,
    /// The value, without white space around it.
    pub value: Lent<'a, u8>,
}

impl<'a> Field<'a> {
    /// Whether this is its name, in any case (RFC 9110, section 5.1). It takes no memory.
    pub fn is_called(&self, name: &[u8]) -> bool
        ensures { result ≡ str_eq_ignore_ascii_case self.now.name name.now }
    {
        self.name.as_slice().eq_ignore_ascii_case(name)
    }

    /// The same field, which this one lends. It takes no memory.
    pub fn lent(&self) -> Field<'_>
        ensures { result ≡ self.now }
    {
        Field {
            name: Lent::shared(self.name.as_slice()),
            value: Lent::shared(self.value.as_slice()),
        }
    }

    /// The same field. What is not lent is copied.
    pub fn copy(&self, alloc: Global) -> Result<Field<'a>, NoMemory>
        ensures { IfOk result (λ made. made ≡ self.now) }
    {
        Ok(Field {
            name: self.name.copy(alloc)?,
            value: self.value.copy(alloc)?,
        })
    }
}
