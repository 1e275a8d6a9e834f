//! How the life of a connection goes on.
ghost use Rattle.std.specs.Prelude.{◌≡◌, ◌++◌, ◌<◌, [], length};
ghost use Rattle.cd_outside.specs.declared.accepted.Accepted.TheVariants.{Connection as Accepts};
ghost use Rattle.cd_outside.specs.declared.received.Received.TheVariants.{Some as Came, End as Ended, Lacking};
ghost use Rattle.cd_outside.specs.Past.{after_accept, after_put, after_line, after_keep};
ghost use Rattle.cd_outside.specs.Received.{after_receipt};
ghost use Rattle.cd_link.specs.Life.{taken_of, put_of};

use crate::Told;
use crate::notes::{GoesOn, Keeps, Logs, Puts};
use crate::stretches::{Begins, Ends, Hands, Lacks};
use cd_outside::{Address, Given, Key, Past};
use cd_text::{List, Text};
use cd_wire::Intake;
use std::alloc::Global;

// The life of a connection that no lane had yet.
pub fn unlived(alloc: Global) -> Told<Past>
    ensures { result.value ≡ record { accept_faults = 0; last = None; connections = [] } }
{
    let past = Past {
        accept_faults: 0,
        last: None,
        connections: List::new(alloc),
    };
    Told::of(&past)
}

// A stretch begins.
#[tactic(auto, using(crate::proofs::LifeLemmas::taken_begin, crate::proofs::LifeLemmas::put_begin, crate::proofs::LifeLemmas::length_begin))]
pub fn has_begun(life: &Told<Past>, address: &Address) -> Told<Past>
    ensures life { result.value ≡ after_accept (Accepts address.now) life.now.value }
    ensures taken { taken_of result.value.connections ≡ taken_of life.now.value.connections }
    ensures put { put_of result.value.connections ≡ put_of life.now.value.connections }
    ensures begun { 0 < length result.value.connections }
{
    life.then::<Begins, GoesOn>(&Begins { address })
}

// Bytes were handed out.
#[tactic(auto, using(crate::proofs::LifeLemmas::taken_hand, crate::proofs::LifeLemmas::put_hand, crate::proofs::LifeLemmas::length_hand))]
pub fn has_handed(life: &Told<Past>, into: &Intake) -> Told<Past>
    requires { 0 < length life.now.value.connections }
    ensures life { result.value ≡ after_receipt Came into.now life.now.value }
    ensures taken { taken_of result.value.connections ≡ taken_of life.now.value.connections ++ into.now }
    ensures put { put_of result.value.connections ≡ put_of life.now.value.connections }
    ensures begun { 0 < length result.value.connections }
{
    life.then::<Hands, GoesOn>(&Hands { into })
}

// Nothing more comes in this stretch.
#[tactic(auto, using(crate::proofs::LifeLemmas::taken_end, crate::proofs::LifeLemmas::put_end, crate::proofs::LifeLemmas::length_end))]
pub fn has_ended(life: &Told<Past>) -> Told<Past>
    requires { 0 < length life.now.value.connections }
    ensures life { result.value ≡ after_receipt Ended [] life.now.value }
    ensures taken { taken_of result.value.connections ≡ taken_of life.now.value.connections }
    ensures put { put_of result.value.connections ≡ put_of life.now.value.connections }
    ensures begun { 0 < length result.value.connections }
{
    life.then::<Ends, GoesOn>(&Ends)
}

// Memory ran out, and nothing was handed out.
#[tactic(auto, using(crate::proofs::LifeLemmas::taken_lack, crate::proofs::LifeLemmas::put_lack, crate::proofs::LifeLemmas::length_lack))]
pub fn has_lacked(life: &Told<Past>) -> Told<Past>
    requires { 0 < length life.now.value.connections }
    ensures life { result.value ≡ after_receipt Lacking [] life.now.value }
    ensures taken { taken_of result.value.connections ≡ taken_of life.now.value.connections }
    ensures put { put_of result.value.connections ≡ put_of life.now.value.connections }
    ensures begun { 0 < length result.value.connections }
{
    life.then::<Lacks, GoesOn>(&Lacks)
}

// Bytes were written.
#[tactic(auto, using(crate::proofs::LifeLemmas::taken_put, crate::proofs::LifeLemmas::put_put, crate::proofs::LifeLemmas::length_put))]
pub fn has_put(life: &Told<Past>, part: &[u8]) -> Told<Past>
    requires { 0 < length life.now.value.connections }
    ensures life { result.value ≡ after_put part.now life.now.value }
    ensures taken { taken_of result.value.connections ≡ taken_of life.now.value.connections }
    ensures put { put_of result.value.connections ≡ put_of life.now.value.connections ++ part.now }
    ensures begun { 0 < length result.value.connections }
{
    life.then::<Puts, GoesOn>(&Puts { part })
}

// A line was given to a log writer, or not.
#[tactic(auto, using(crate::proofs::LifeLemmas::taken_line, crate::proofs::LifeLemmas::put_line, crate::proofs::LifeLemmas::length_line))]
pub fn has_logged(life: &Told<Past>, given: Given, key: &Key, line: &Text) -> Told<Past>
    requires { 0 < length life.now.value.connections }
    ensures life { result.value ≡ after_line given key.now line.now life.now.value }
    ensures taken { taken_of result.value.connections ≡ taken_of life.now.value.connections }
    ensures put { put_of result.value.connections ≡ put_of life.now.value.connections }
    ensures begun { 0 < length result.value.connections }
{
    life.then::<Logs, GoesOn>(&Logs { given, key, line })
}

// A configuration was kept, or not.
#[tactic(auto, using(crate::proofs::LifeLemmas::taken_keep, crate::proofs::LifeLemmas::put_keep, crate::proofs::LifeLemmas::length_keep))]
pub fn has_kept(life: &Told<Past>, given: Given, serial: u32, text: &[u8]) -> Told<Past>
    requires { 0 < length life.now.value.connections }
    ensures life { result.value ≡ after_keep given serial text.now life.now.value }
    ensures taken { taken_of result.value.connections ≡ taken_of life.now.value.connections }
    ensures put { put_of result.value.connections ≡ put_of life.now.value.connections }
    ensures begun { 0 < length result.value.connections }
{
    life.then::<Keeps, GoesOn>(&Keeps {
        given,
        serial,
        text,
    })
}
