ghost use Rattle.std.specs.Prelude.{◌≡◌, ℕ, List, [], ◌∷◌, Option, true, false, is_some, IfSome};
ghost use Rattle.cd_outside.specs.declared.fixtures.FixtureCall.{FixtureCall as Call};
ghost use Rattle.cd_outside.specs.declared.fixtures.FixtureCall.TheVariants as call;
ghost use Rattle.cd_outside.specs.declared.fixtures.Opened.TheVariants as opened;
ghost use Rattle.cd_outside.specs.Counts.{Rises};
ghost use Rattle.cd_outside.specs.Keys.{has_key};
ghost use Rattle.cd_outside.specs.FixtureCall.{CallsGrow, opening_of, open_keys, was_shut};

use crate::Key;

/// What an opening answers.
#[derive(Clone, Copy, Debug, PartialEq, Eq)]
pub enum Opened {
    Ready,
    /// It could not be opened. The faults rose.
    Failed,
}

/// One call of fixtures, as they tell it.
#[derive(Debug, Drop, PartialEq, Eq)]
pub enum FixtureCall {
    Opened(Key),
    NotOpened(Key),
    Closed(Key),
    Shut,
}

/// What opens and closes the things of the outside that a configuration holds.
pub trait Fixtures {
    /// How often it has failed.
    ghost faults: { Self → ℕ };

    /// The calls so far, where it tells them.
    ghost calls: { Self → Option (List Call) };

    /// Opens what the key names.
    fn open_key(&mut self, key: &Key) -> Opened
        ensures calls { CallsGrow (calls self.old) (opening_of result key.now ∷ []) (calls self.new) }
        ensures tells { result ≡ opened.Ready → is_some (calls self.old) ≡ true → is_some (calls self.new) ≡ true }
        ensures cause { Rises (faults self.old) (faults self.new) (result ≡ opened.Failed) };

    /// Closes it again. It cannot fail. Fixtures that tell their calls go on telling them where the key was open.
    fn close_key(&mut self, key: &Key)
        ensures calls { CallsGrow (calls self.old) (call.Closed key.now ∷ []) (calls self.new) }
        ensures tells { IfSome (calls self.old) (λ told. has_key key.now (open_keys told) ≡ true → is_some (calls self.new) ≡ true) }
        ensures faults { faults self.new ≡ faults self.old };

    /// Tells the lanes that take connections from the same addresses that no connection will come any more: their next `accept` answers `Ended`. It
    /// cannot fail. Fixtures that tell their calls go on telling them after the first.
    fn shut(&mut self)
        ensures calls { CallsGrow (calls self.old) (call.Shut ∷ []) (calls self.new) }
        ensures tells { IfSome (calls self.old) (λ told. was_shut told ≡ false → is_some (calls self.new) ≡ true) }
        ensures faults { faults self.new ≡ faults self.old };
}
