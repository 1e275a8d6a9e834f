ghost use Rattle.std.specs.Prelude.{◌≡◌};
ghost use Rattle.cd_fill.specs.Values.{value_of_variable};

use cd_text::{Octets, Text};

/// A variable of a request, which the handler `vars` sets.
#[derive(Debug, Drop)]
pub struct Variable {
    pub name: Text,
    pub value: Octets,
}

/// The value of a variable: that of the last one with the name, and nothing where there is none. It takes no memory.
#[tactic(auto, unfolding(crate::specs::Values::value_of_variable))]
pub fn value_of_variable<'a>(variables: &'a [Variable], name: &[u8]) -> &'a [u8]
    ensures { result.now ≡ value_of_variable variables.now name.now }
{
    let mut found: &'a [u8] = &[];
    for variable in variables {
        if variable.name.as_str().as_bytes() == name {
            found = variable.value.as_slice();
        }
    }
    found
}
