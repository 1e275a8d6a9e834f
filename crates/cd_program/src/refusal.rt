ghost use Rattle.std.specs.Prelude.{◌≡◌};
ghost use Rattle.cd_program.specs.Configuration.{fault_words};

use cd_module::Refusal as Fault;
use cd_tree::TreeFault;

/// Why a configuration is refused.
#[derive(Debug, Drop)]
pub enum Refusal {
    /// Its bytes are no tree.
    NoTree(TreeFault),
    /// Its tree has this fault.
    Faulty(Fault),
    /// Out of memory.
    NoMemory,
}

/// The words for bytes that are no tree. Out of memory has none.
pub fn fault_words(fault: TreeFault) -> &'static str
    ensures { result.now ≡ fault_words fault }
{
    match fault {
        TreeFault::NotJson => "not JSON",
        TreeFault::FractionOrRange => "number is not a whole number in range",
        TreeFault::TooDeep => "nested too deeply",
        TreeFault::TooLong => "too long",
        TreeFault::NoMemory => "",
    }
}
