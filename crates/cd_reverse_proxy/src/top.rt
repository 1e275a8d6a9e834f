ghost use Rattle.std.specs.Prelude.{◌≡◌, ◌≤◌, ◌⊎◌, Err, false, length, All};
ghost use Rattle.cd_peers.specs.declared.limits.TheConstants.{MAX_PLACES};
ghost use Rattle.cd_reverse_proxy.specs.Seen.{seen};
ghost use Rattle.cd_reverse_proxy.specs.Settings.{settings};
ghost use Rattle.cd_reverse_proxy.specs.Top.{CompletesAs, EndsAs};

use crate::ended::{ProxyEnded, unserved};
use crate::running::run_proxy;
use crate::settings::{WordsFault, read_settings};
use crate::status::Status;
use cd_outside::{Fixtures, Lane, Sink, say_usage};
use cd_peers::Peers;
use cd_text::{List, Text};
use std::alloc::Global;
use std::sync::Wait;
use std::thread::Threads;

/// The command `reverse-proxy --from A --policy P --to U ..`, over all that it is handed: its words, its output, its fixtures, its lanes,
/// and for each lane the peers by which its requests are relayed.
///
/// It listens on A, and relays each request that comes there to one of the upstreams, picked by the policy. It returns once no lane
/// gives a further connection, or has failed to accept.
///
/// | status | when |
/// |---|---|
/// | 0 | all lanes were served to their ends |
/// | 1 | the address could not be opened |
/// | 2 | the words are not those of the command |
/// | 4 | a line could not be written |
/// | 5 | out of memory |
pub fn proxy_main<R: Threads + Wait + Sync, O: Sink, F: Fixtures, L: Lane + Send, P: Peers + Send>(
    rt: &R,
    alloc: Global,
    words: &[Text],
    out: &mut O,
    fixtures: F,
    lanes: List<L>,
    peers: List<P>,
) -> ProxyEnded<F, L, P>
    requires some { 1 ≤ length lanes }
    requires few { length lanes ≤ MAX_PLACES }
    requires each { length peers ≡ length lanes }
    requires lanes { All (λ lane. L.busy lane ≡ false) lanes }
    requires peers { All (λ of_lane. P.busy of_lane ≡ false) peers }

    // Each lane and its peers come back, and none has an open connection or an exchange.
    ensures as_many_lanes { length result.lanes ≡ length lanes }
    ensures as_many_peers { length result.peers ≡ length peers }
    ensures lanes { All (λ lane. L.busy lane ≡ false) result.lanes }
    ensures peers { All (λ of_lane. P.busy of_lane ≡ false) result.peers }

    // Status 2 comes exactly where the words are not those of the command, unless memory lacked.
    ensures known { result.status ≤ 5 }
    ensures usage { result.status ≡ 2 → settings words.now ≡ Err WordsFault.Unknown }
    ensures unknown { settings words.now ≡ Err WordsFault.Unknown → (result.status ≡ 2) ⊎ (result.status ≡ 5) }

    // How it ends, by status.
    ensures ends { EndsAs (seen O.holds O.faults F.calls F.faults L.past L.faults P.past P.faults out.old out.new fixtures lanes peers result) result.status (settings words.now) }

    // Completeness: where no call on the output, the fixtures or a lane has failed, the status is 0 or 5; and with status 0 and memory
    // for each connection none was interrupted.
    ensures completes { CompletesAs (seen O.holds O.faults F.calls F.faults L.past L.faults P.past P.faults out.old out.new fixtures lanes peers result) result.status (settings words.now) }
{
    match read_settings(alloc, words) {
        Ok(settings) => run_proxy(rt, alloc, settings, out, fixtures, lanes, peers),
        Err(WordsFault::Unknown) => {
            let _ = say_usage(out);
            unserved(Status::Usage, fixtures, lanes, peers)
        }
        Err(WordsFault::NoMemory) => unserved(Status::NoMemory, fixtures, lanes, peers),
    }
}
