ghost use Rattle.std.specs.Prelude.{List};
ghost use Rattle.cd_legal.specs.declared.entry.Signed.{Signed};

use crate::State;

/// A value that keeps what a history leaves. It has no call.
pub trait Stands {
    /// The second value, which was the first one when the history was empty, stands for the history.
    ghost stands: { Self → Self → List Signed → Type 0 };
}

/// A state stands for the legal histories that leave it.
impl Stands for State {
    ghost use Rattle.std.specs.Prelude.{◌≡◌};
    ghost use Rattle.cd_legal.specs.State.{opening_state};
    ghost use Rattle.cd_legal.specs.Legal.{IsLegal, state_at};

    ghost stands = { λ opening state log. (opening ≡ opening_state) × IsLegal log × (state ≡ state_at log) };
}
