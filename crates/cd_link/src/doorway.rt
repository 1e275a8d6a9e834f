ghost use Rattle.std.specs.Prelude.{◌≡◌, ℕ};
ghost use Rattle.cd_outside.specs.declared.given.Given.TheVariants.{Failed as Refused};
ghost use Rattle.cd_outside.specs.Counts.{Rises};
ghost use Rattle.cd_link.specs.declared.doorway.Next.TheVariants.{Failed};

use cd_outside::{Address, Given, Key};
use cd_text::Text;

/// What comes to a lane that waits.
pub enum Next<C> {
    /// A connection of which a request has come, and the address that it came to.
    Connection(C, Address),
    /// None will come any more.
    Shut,
    /// It failed. The faults rose.
    Failed,
}

/// Where lanes get connections, and where they give them back.
pub trait Doorway<C> {
    /// How often it has failed.
    ghost faults: { Self → ℕ };

    /// Waits for the next connection.
    fn next(&mut self) -> Next<C>
        ensures { Rises (faults self.old) (faults self.new) (result ≡ Failed) };

    /// Takes a connection back, which may have further stretches on any lane.
    fn back(&mut self, connection: C)
        ensures { faults self.new ≡ faults self.old };

    /// Gives a line to the log writer of the key.
    fn log(&mut self, key: &Key, line: &Text) -> Given
        ensures { Rises (faults self.old) (faults self.new) (result ≡ Refused) };
}
