// The board: what a host has come to that never has another configuration.
ghost use Rattle.std.specs.Prelude.{◌≡◌};
ghost use Rattle.cd_gate_cases.specs.Boards.{state_on};

use cd_legal::Stands;

/// What the host has come to.
#[derive(Clone, Copy, Debug, PartialEq, Eq)]
pub enum Board {
    Running,
    /// It is halted, and the opening configuration is not retired yet.
    Halted,
    Retired,
}

impl Stands for Board {
    ghost use Rattle.cd_gate_cases.specs.Boards.{StandsFor};

    ghost stands = { λ opening board log. StandsFor board log };
}

impl Board {
    /// Whether the host is halted.
    pub fn is_halted(self) -> bool
        ensures { result ≡ (state_on self).halted }
    {
        match self {
            Board::Running => false,
            Board::Halted | Board::Retired => true,
        }
    }
}
