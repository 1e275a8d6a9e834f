ghost use Rattle.std.specs.Prelude.{◌≡◌};
ghost use Rattle.cd_tcp.specs.Budgets.{is_too_much};

use crate::{MAX_HEAD_ROOM, MAX_KEPT_BYTES, MAX_KEPT_BYTES_OF_ALL};

/// Whether so many bytes of a connection are too many to be kept while it has no lane, where so many are kept of all connections.
pub fn is_too_much(own: usize, all: usize) -> bool
    ensures { result ≡ is_too_much own all }
{
    own > MAX_KEPT_BYTES || (own > MAX_HEAD_ROOM && all > MAX_KEPT_BYTES_OF_ALL)
}
