//! The numbers of the event loop. Each is a limit of time, of room or of tries.
ghost use Rattle.std.specs.Prelude.{◌≡◌};
ghost use Rattle.cd_tcp.specs.declared.limits.TheConstants.{BUSY_MILLIS, DIAL_SECONDS, FAST_BYTES, GRACE_MILLIS, IDLE_SECONDS, LINGER_SECONDS, MAX_ACCEPTS, MAX_DIALS, MAX_DRAIN_READS, MAX_HEAD_ROOM, MAX_KEPT_BYTES, MAX_KEPT_BYTES_OF_ALL, MAX_PAUSE_MILLIS, MAX_TAKES, MAX_TRIES, MAX_WAITING, READ_BYTES, SLOW_SECONDS, SLOW_SECONDS_WHEN_FULL, TRY_PAUSE_MILLIS, UPSTREAM_SECONDS, WRITE_MILLIS, WRITE_MILLIS_WHEN_FULL, WRITE_TURN_MILLIS};

/// How long a lane waits for the next request of a connection, in milliseconds. Then it waits without a lane.
pub const GRACE_MILLIS: u64 = 20;

/// A request that took so many milliseconds took long: its connection goes back to the loop, and mostly another lane takes the next
/// one.
pub const BUSY_MILLIS: u64 = 5;

/// How long a lane waits for the rest of a request that the loop doesn't keep, in all, in seconds.
pub const SLOW_SECONDS: u64 = 30;

/// The same in seconds while no lane is free.
pub const SLOW_SECONDS_WHEN_FULL: u64 = 5;

/// How long one write waits at most, in milliseconds.
pub const WRITE_TURN_MILLIS: u64 = 1_000;

/// How long a client may be slow over what is written, in all, in milliseconds.
pub const WRITE_MILLIS: u64 = 10_000;

/// The same in milliseconds while no lane is free.
pub const WRITE_MILLIS_WHEN_FULL: u64 = 2_000;

/// A client that takes more bytes than this in one turn of writing is not slow in it.
pub const FAST_BYTES: usize = 65_536;

/// How long a connection may wait without a lane, in seconds.
pub const IDLE_SECONDS: u64 = 300;

/// How long the last answer has to reach a client that does not close its connection, in seconds.
pub const LINGER_SECONDS: u64 = 2;

/// How many connections may wait without a lane, those that linger included.
pub const MAX_WAITING: usize = 16_384;

/// How many accepts in a row fail before a lane answers that it has failed.
pub const MAX_TRIES: u32 = 16;

/// How long a lane sleeps after the first failed accept, in milliseconds. It is twice as long after each further one.
pub const TRY_PAUSE_MILLIS: u64 = 50;

/// How long it sleeps at most, in milliseconds.
pub const MAX_PAUSE_MILLIS: u64 = 6_000;

/// How many connections in a row are taken from one listener. Others go first then.
pub const MAX_ACCEPTS: u32 = 64;

/// How many connections in a row are handed to lanes before it is looked what else has come.
pub const MAX_TAKES: u32 = 8;

/// How many bytes the loop reads of a connection at a time, at most.
pub const READ_BYTES: usize = 65_536;

/// How many reads in a row take what a client sends after its last answer, each of at most `READ_BYTES`. Others go first then.
pub const MAX_DRAIN_READS: u32 = 4;

/// How many bytes of one connection are kept while it has no lane, at most.
pub const MAX_KEPT_BYTES: usize = 16_777_216;

/// How many bytes of all connections are kept, those left out that keep no more than `MAX_HEAD_ROOM`.
pub const MAX_KEPT_BYTES_OF_ALL: usize = 67_108_864;

/// So many bytes of a connection are kept in any case: a head has no more.
pub const MAX_HEAD_ROOM: usize = 16_384;

/// How long an address of an upstream has to take a connection, in seconds.
pub const DIAL_SECONDS: u64 = 3;

/// How many addresses of an upstream are tried, at most.
pub const MAX_DIALS: usize = 4;

/// How long a read waits for an upstream, in seconds.
pub const UPSTREAM_SECONDS: u64 = 30;

/// The numbers, which the code cites by name.
pub fn limits_are()
    ensures grace { GRACE_MILLIS ≡ 20 }
    ensures busy { BUSY_MILLIS ≡ 5 }
    ensures slow { SLOW_SECONDS ≡ 30 }
    ensures slow_when_full { SLOW_SECONDS_WHEN_FULL ≡ 5 }
    ensures write_turn { WRITE_TURN_MILLIS ≡ 1000 }
    ensures write { WRITE_MILLIS ≡ 10000 }
    ensures write_when_full { WRITE_MILLIS_WHEN_FULL ≡ 2000 }
    ensures fast { FAST_BYTES ≡ 65536 }
    ensures idle { IDLE_SECONDS ≡ 300 }
    ensures linger { LINGER_SECONDS ≡ 2 }
    ensures waiting { MAX_WAITING ≡ 16384 }
    ensures tries { MAX_TRIES ≡ 16 }
    ensures pause { TRY_PAUSE_MILLIS ≡ 50 }
    ensures longest_pause { MAX_PAUSE_MILLIS ≡ 6000 }
    ensures accepts { MAX_ACCEPTS ≡ 64 }
    ensures takes { MAX_TAKES ≡ 8 }
    ensures reads { READ_BYTES ≡ 65536 }
    ensures drain { MAX_DRAIN_READS ≡ 4 }
    ensures kept { MAX_KEPT_BYTES ≡ 16777216 }
    ensures all_kept { MAX_KEPT_BYTES_OF_ALL ≡ 67108864 }
    ensures head_room { MAX_HEAD_ROOM ≡ 16384 }
    ensures dial { DIAL_SECONDS ≡ 3 }
    ensures dials { MAX_DIALS ≡ 4 }
    ensures upstream { UPSTREAM_SECONDS ≡ 30 }
{}
