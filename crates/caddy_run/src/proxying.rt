//! The command `reverse-proxy` over what `main` hands to it.
ghost use Rattle.std.specs.Prelude.{◌≡◌, ◌≤◌, Err, false, length, is_some, All, IfOk};
ghost use Rattle.cd_peers.specs.declared.limits.TheConstants.{MAX_PLACES};
ghost use Rattle.cd_reverse_proxy.specs.declared.settings.WordsFault.TheVariants.{Unknown};
ghost use Rattle.cd_reverse_proxy.specs.Settings.{settings};
ghost use Rattle.caddy_run.specs.declared.lanes.TheConstants.{LANES};

use crate::lanes::LANES;
use crate::serving::Served;
use cd_outside::{Fixtures, Lane, Sink};
use cd_peers::Peers;
use cd_reverse_proxy::{ProxyEnded, proxy_main};
use cd_tcp::{Reactor, TcpPeers};
use cd_text::{List, NoMemory, Text};
use std::alloc::Global;
use std::net::{Net, TcpStream};
use std::sync::Wait;
use std::thread::Threads;
use std::time::Clock;

/// The peers of the lanes of a reactor.
pub fn tcp_peers<'d, R: Net<Stream = TcpStream> + Clock>(
    rt: &'d R,
    alloc: Global,
    reactor: &'d Reactor,
) -> Result<List<TcpPeers<'d, R>>, NoMemory>
    ensures count { IfOk result (λ peers. length peers ≡ LANES) }
    ensures idle { IfOk result (λ peers. All (λ of_lane. is_some of_lane.held ≡ false) peers) }
{
    let mut peers = List::new(alloc);
    while peers.len() < LANES {
        peers.push(TcpPeers::new(rt, alloc, reactor))?;
    }
    Ok(peers)
}

/// How the command ends over these fixtures and lanes, and the peers of each lane.
pub fn over_peers<
    R: Threads + Wait + Sync,
    O: Sink + Drop,
    F: Fixtures + Drop,
    L: Lane + Send + Drop,
    P: Peers + Send + Drop,
>(
    rt: &R,
    alloc: Global,
    words: &[Text],
    mut out: O,
    fixtures: F,
    lanes: List<L>,
    peers: List<P>,
) -> Served
    requires some { 1 ≤ length lanes }
    requires few { length lanes ≤ MAX_PLACES }
    requires each { length peers ≡ length lanes }
    requires lanes { All (λ lane. L.busy lane ≡ false) lanes }
    requires peers { All (λ of_lane. P.busy of_lane ≡ false) peers }
    ensures known { result.status ≤ 5 }
    ensures usage { result.status ≡ 2 → settings words.now ≡ Err Unknown }
{
    let ended: ProxyEnded<F, L, P> = proxy_main(rt, alloc, words, &mut out, fixtures, lanes, peers);
    Served {
        status: ended.status,
        cut: ended.cut,
    }
}
