//! A run: all memory is taken, the address is opened, all lanes are served, and the address is closed again.
ghost use Rattle.std.specs.Prelude.{◌≡◌, ◌≤◌, ◌<◌, ℕ, [], Ok, length, vec_len, IfOk};
ghost use Rattle.std.specs.Vec.{vec_capacity};
ghost use Rattle.cd_outside.specs.declared.key.Key.TheVariants.{Listen};
ghost use Rattle.cd_outside.specs.FixtureCall.{CallsGrow};
ghost use Rattle.cd_outside.specs.Devices.{device};
ghost use Rattle.cd_peers.specs.declared.limits.TheConstants.{MAX_UPSTREAMS};
ghost use Rattle.cd_reverse_proxy.specs.declared.status.Status.{Status as Ending};
ghost use Rattle.cd_reverse_proxy.specs.Running.{Concludes, HasBegun, IsLast, RunsTo, answered_of, closing_calls, cut_of};
ghost use Rattle.cd_reverse_proxy.specs.Seen.{seen};
ghost use Rattle.cd_reverse_proxy.specs.Slots.{AreBack, AreReady, HasRoom};
ghost use Rattle.cd_reverse_proxy.specs.Top.{EndsAs, code_of, unopened_line};
ghost use Rattle.cd_reverse_proxy.specs.Workers.{workers};

use crate::ended::{ProxyEnded, unserved};
use crate::lines::{served_line, unopened_line};
use crate::serving::serve_all;
use crate::settings::ProxySettings;
use crate::slot::Slot;
use crate::status::Status;
use cd_outside::{Address, Fixtures, Given, Key, Lane, Opened, Sink, say};
use cd_peers::{Balancer, Peers, Policy};
use cd_session::Counts;
use cd_text::{List, NoMemory, Text};
use std::alloc::Global;
use std::sync::{Mutex, Wait};
use std::thread::Threads;

fn copies(alloc: Global, all: &[Address]) -> Result<List<Address>, NoMemory>
    ensures { IfOk result (λ made. made ≡ all.now) }
{
    let mut made = List::new(alloc);
    for address in all {
        made.push(address.copy(alloc)?)?;
    }
    Ok(made)
}

// All that memory is taken for before the address is opened.
struct Prepared<L, P> {
    // the line for an address that can't be opened
    refusal: Text,
    // the upstreams, for the workers
    shared: List<Address>,
    slots: Vec<Slot<L, P>>,
}

fn prepare<L, P>(
    alloc: Global,
    settings: &ProxySettings,
    lanes: usize,
) -> Result<Prepared<L, P>, NoMemory>
    ensures refusal { IfOk result (λ made. made.refusal ≡ unopened_line settings.now.from) }
    ensures shared { IfOk result (λ made. made.shared ≡ settings.now.upstreams) }
    ensures room { IfOk result (λ made. HasRoom made.slots.items (vec_capacity made.slots) lanes) }
{
    let refusal = unopened_line(alloc, &settings.from)?;
    let shared = copies(alloc, settings.upstreams.as_slice())?;
    let slots = Vec::with_capacity(alloc, lanes)?;
    Ok(Prepared {
        refusal,
        shared,
        slots,
    })
}

// Says that it serves, and serves all lanes, for which the slots have room. Where the line can't be written, none is served.
fn serve<R: Threads + Wait + Sync, O: Sink, L: Lane + Send, P: Peers + Send>(
    rt: &R,
    alloc: Global,
    balancer: Balancer,
    upstreams: &[Address],
    slots: &mut Vec<Slot<L, P>>,
    out: &mut O,
    lanes: &mut Vec<L>,
    peers: &mut Vec<P>,
) -> Option<Counts>
    requires ready { AreReady L.busy P.busy lanes.old.items peers.old.items }
    requires upstreams { 0 < length upstreams.now }
    requires room { HasRoom slots.old.items (vec_capacity slots.old) (vec_len lanes.old) }
    ensures back { AreBack L.busy P.busy lanes.old.items lanes.new.items peers.old.items peers.new.items }
    ensures empty { slots.new.items ≡ [] }
    ensures begun { HasBegun upstreams.now (workers L.past L.faults P.past P.faults lanes.old.items lanes.new.items peers.old.items peers.new.items)
        ((lanes.new.items ≡ lanes.old.items) × (peers.new.items ≡ peers.old.items)) (device O.holds O.faults out.old out.new) result }
    ensures later { O.faults out.old ≤ O.faults out.new }
{
    match say(out, "serving proxy\n") {
        Given::All => {
            let shared = Mutex::new(balancer);
            Some(serve_all(rt, alloc, &shared, upstreams, slots, lanes, peers))
        }
        Given::Failed => None,
    }
}

#[tactic(auto, unfolding(crate::specs::Top::served_line))]
fn say_served<O: Sink>(alloc: Global, answered: u64, out: &mut O) -> Status
    ensures { IsLast answered (device O.holds O.faults out.old out.new) result }
{
    let Ok(line) = served_line(alloc, answered) else {
        return Status::NoMemory;
    };
    match say(out, line.as_str()) {
        Given::All => Status::Done,
        Given::Failed => Status::WriteFault,
    }
}

// Says the last line, where lanes were served.
fn say_last<O: Sink>(alloc: Global, counts: &Option<Counts>, out: &mut O) -> Status
    ensures { Concludes counts.now (device O.holds O.faults out.old out.new) result }
{
    match counts {
        Some(counts) => say_served(alloc, counts.answered, out),
        None => Status::WriteFault,
    }
}

fn counted(counts: Option<Counts>) -> Counts
    ensures answered { result.answered ≡ answered_of counts }
    ensures cut { result.cut ≡ cut_of counts }
{
    match counts {
        Some(counts) => counts,
        None => Counts::new(),
    }
}

// Says the last line, and hands back what it is given.
fn conclude<O: Sink, F, L, P>(
    alloc: Global,
    counts: Option<Counts>,
    out: &mut O,
    fixtures: F,
    lanes: Vec<L>,
    peers: Vec<P>,
) -> ProxyEnded<F, L, P>
    ensures { (status : Ending) × Concludes counts (device O.holds O.faults out.old out.new) status
        × (result ≡ record { status = code_of status; fixtures = fixtures; lanes = lanes.items; peers = peers.items; answered = answered_of counts; cut = cut_of counts }) }
{
    let status = say_last(alloc, &counts, out);
    let counts = counted(counts);
    ProxyEnded {
        status: status.code(),
        fixtures,
        lanes: List::from_vec(lanes),
        peers: List::from_vec(peers),
        answered: counts.answered,
        cut: counts.cut,
    }
}

fn close<F: Fixtures>(fixtures: &mut F, key: &Key)
    ensures calls { CallsGrow (F.calls fixtures.old) (closing_calls key.now) (F.calls fixtures.new) }
    ensures faults { F.faults fixtures.new ≡ F.faults fixtures.old }
{
    fixtures.close_key(key);
    fixtures.shut();
}

// Serves all lanes, for which the slots have room, closes the address, which is open, and says the last line.
fn run_opened<R: Threads + Wait + Sync, O: Sink, F: Fixtures, L: Lane + Send, P: Peers + Send>(
    rt: &R,
    alloc: Global,
    key: &Key,
    balancer: Balancer,
    upstreams: &[Address],
    slots: Vec<Slot<L, P>>,
    out: &mut O,
    fixtures: F,
    lanes: Vec<L>,
    peers: Vec<P>,
) -> ProxyEnded<F, L, P>
    requires ready { AreReady L.busy P.busy lanes.items peers.items }
    requires upstreams { 0 < length upstreams.now }
    requires room { HasRoom slots.items (vec_capacity slots) (vec_len lanes) }
    ensures back { AreBack L.busy P.busy lanes.items result.lanes peers.items result.peers }
    ensures calls { CallsGrow (F.calls fixtures) (closing_calls key.now) (F.calls result.fixtures) }
    ensures runs { RunsTo upstreams.now (workers L.past L.faults P.past P.faults lanes.items result.lanes peers.items result.peers)
        ((result.lanes ≡ lanes.items) × (result.peers ≡ peers.items)) result.answered result.cut (device O.holds O.faults out.old out.new) result.status }
{
    let mut slots = slots;
    let mut fixtures = fixtures;
    let mut lanes = lanes;
    let mut peers = peers;
    let counts = serve(
        rt, alloc, balancer, upstreams, &mut slots, out, &mut lanes, &mut peers,
    );
    slots.destroy_empty();
    close(&mut fixtures, key);
    conclude(alloc, counts, out, fixtures, lanes, peers)
}

/// Runs as these settings say: opens the address, and serves; or says that it can't be opened.
pub fn run_proxy<R: Threads + Wait + Sync, O: Sink, F: Fixtures, L: Lane + Send, P: Peers + Send>(
    rt: &R,
    alloc: Global,
    settings: ProxySettings,
    out: &mut O,
    fixtures: F,
    lanes: List<L>,
    peers: List<P>,
) -> ProxyEnded<F, L, P>
    requires ready { AreReady L.busy P.busy lanes peers }
    requires some { 0 < length settings.upstreams }
    requires few { length settings.upstreams ≤ MAX_UPSTREAMS }
    ensures back { AreBack L.busy P.busy lanes result.lanes peers result.peers }
    ensures ends { EndsAs (seen O.holds O.faults F.calls F.faults L.past L.faults P.past P.faults out.old out.new fixtures lanes peers result) result.status (Ok settings) }
{
    let Ok(prepared) = prepare(alloc, &settings, lanes.len()) else {
        return unserved(Status::NoMemory, fixtures, lanes, peers);
    };
    let Prepared {
        refusal,
        shared,
        slots,
    } = prepared;
    let ProxySettings {
        from,
        policy,
        upstreams,
    } = settings;
    let balancer = Balancer::new(policy, upstreams);
    let key = Key::Listen(from);
    let mut fixtures = fixtures;
    match fixtures.open_key(&key) {
        Opened::Ready => run_opened(
            rt,
            alloc,
            &key,
            balancer,
            shared.as_slice(),
            slots,
            out,
            fixtures,
            lanes.into_vec(),
            peers.into_vec(),
        ),
        Opened::Failed => {
            slots.destroy_empty();
            let _ = say(out, refusal.as_str());
            unserved(Status::Unopened, fixtures, lanes, peers)
        }
    }
}
