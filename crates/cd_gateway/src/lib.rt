//! The loops of a gateway: a worker relays the connections of a lane to upstreams, one after another.
//!
//! A worker has a lane, peers of its own, and a place of the balancer, which it shares with others behind a lock. Each request of a
//! connection is relayed (`relay` of `cd_proxy`), and what the lane and the peers then tell belongs together: specs/Connections.antt
//! says how a connection goes and in which ways it ends, and specs/Lanes.antt what is told of all connections of a lane (`Relayed`),
//! with the counts that tie each failed exchange and each interrupted connection to a fault, or to memory that lacked, and what
//! ended it (`IsRelayed`).
//!
//! Files: lane.rt relays the connections of a lane, connection.rt one connection, and requests.rt goes on after a request. A worker's
//! handles, upstreams and place are kept together (worker.rt). specs/Stepping.antt has what is known of a connection and a lane from
//! call to call. Only a call of the lane, of the peers or of the lock waits.
#![tactic(auto)]

mod connection;
mod lane;
mod requests;
mod worker;

pub use lane::relay_lane;
