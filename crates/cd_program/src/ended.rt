ghost use Rattle.std.specs.Prelude.{◌≡◌};
ghost use Rattle.cd_program.specs.Top.{code_of};

use crate::status::Status;
use crate::storm::StormEnd;
use cd_text::List;

/// What a call of the program ended with.
#[derive(Drop)]
pub struct Ended<F, L> {
    /// The exit status.
    pub status: u8,
    pub fixtures: F,
    pub lanes: List<L>,
    /// How many requests were answered in whole. It stays at 2^64 - 1.
    pub answered: u64,
    /// How many configurations were published.
    pub published: u32,
    /// How many connections were interrupted, out of memory. It stays at 2^64 - 1.
    pub cut: u64,
}

/// What a call hands back that has begun no run.
pub fn unbegun<F, L>(status: Status, fixtures: F, lanes: List<L>) -> Ended<F, L>
    ensures { result ≡ record { status = code_of status; fixtures = fixtures; lanes = lanes; answered = 0; published = 0; cut = 0 } }
{
    Ended {
        status: status.code(),
        fixtures,
        lanes,
        answered: 0,
        published: 0,
        cut: 0,
    }
}

/// What a call hands back that has served a storm, over forms of its own.
pub fn after_storm<F, L>(end: StormEnd, fixtures: F, lanes: List<L>) -> Ended<F, L>
    ensures { result ≡ record { status = code_of end.status; fixtures = fixtures; lanes = lanes; answered = end.answered; published = end.published; cut = 0 } }
{
    Ended {
        status: end.status.code(),
        fixtures,
        lanes,
        answered: end.answered,
        published: end.published,
        cut: 0,
    }
}
