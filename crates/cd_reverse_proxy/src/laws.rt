//! What the definitions mean, each law as a call that does nothing.
ghost use Rattle.std.specs.Prelude.{◌≡◌, ℕ, List, Option};
ghost use Rattle.cd_outside.specs.declared.address.Address.{Address};
ghost use Rattle.cd_reverse_proxy.specs.Workers.{AreRelayed, NoneInterrupted, NoneRose, Worker, WorkersTold};

/// Workers that were served tell together what was relayed, and what was counted.
pub fn workers_tell_together()
    ensures { (upstreams : List Address) (ws : List Worker) (answered cut : ℕ)
        → AreRelayed upstreams ws answered cut → WorkersTold upstreams ws answered cut }
{}

/// Where no fault of a lane rose, and no connection lacked memory, none of those that the lanes tell of was interrupted, and no accept
/// failed.
pub fn lanes_without_a_fault_are_not_interrupted()
    ensures { (upstreams : List Address) (ws : List Worker) (answered : ℕ) → (told : WorkersTold upstreams ws answered 0)
        → NoneRose ws → NoneInterrupted ws told.reports }
{}
