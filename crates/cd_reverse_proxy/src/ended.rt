ghost use Rattle.std.specs.Prelude.{◌≡◌};
ghost use Rattle.cd_reverse_proxy.specs.Top.{code_of};

use crate::status::Status;
use cd_text::List;

/// What the command ended with.
#[derive(Drop)]
pub struct ProxyEnded<F, L, P> {
    /// The exit status.
    pub status: u8,
    pub fixtures: F,
    pub lanes: List<L>,
    pub peers: List<P>,
    /// How many requests were answered in whole. It stays at 2^64 - 1.
    pub answered: u64,
    /// How many connections were interrupted, out of memory. It stays at 2^64 - 1.
    pub cut: u64,
}

/// What is handed back where no lane was served.
pub fn unserved<F, L, P>(
    status: Status,
    fixtures: F,
    lanes: List<L>,
    peers: List<P>,
) -> ProxyEnded<F, L, P>
    ensures { result ≡ record { status = code_of status; fixtures = fixtures; lanes = lanes; peers = peers; answered = 0; cut = 0 } }
{
    ProxyEnded {
        status: status.code(),
        fixtures,
        lanes,
        peers,
        answered: 0,
        cut: 0,
    }
}
