// Which entry is added, by what the call hands in.
use cd_gate::Names;
use cd_life::{Closing, Draft, Origin, Step};
use cd_module_set::ModuleSet;
use cd_outside::Key;
use std::marker::PhantomData;
use std::snapshot::Snapshot;

pub(crate) struct NamesDraft<M> {
    set: PhantomData<M>,
}

impl<M: ModuleSet> Names<Snapshot<Draft<M>>> for NamesDraft<M> {
    ghost use Rattle.cd_hall.specs.Drafts.{held, draft_entry};

    ghost entry = { λ x. draft_entry (held x.value) };
}

pub(crate) struct NamesMade<M> {
    set: PhantomData<M>,
}

impl<M: ModuleSet> Names<(Snapshot<Draft<M>>, Snapshot<Result<Step, Key>>)> for NamesMade<M> {
    ghost use Rattle.cd_desk.specs.Instances.{failed_in};
    ghost use Rattle.cd_hall.specs.Drafts.{held, made_entry};

    ghost entry = { λ x. made_entry (held x.0.value) (failed_in x.1.value) };
}

pub(crate) struct NamesStarted<M> {
    set: PhantomData<M>,
}

impl<M: ModuleSet> Names<(Snapshot<Draft<M>>, Snapshot<Result<Step, Key>>)> for NamesStarted<M> {
    ghost use Rattle.cd_desk.specs.Instances.{failed_in};
    ghost use Rattle.cd_hall.specs.Drafts.{held, started_entry};

    ghost entry = { λ x. started_entry (held x.0.value) (failed_in x.1.value) };
}

pub(crate) struct NamesPublish;

impl Names<(u64, u32, Snapshot<Origin>)> for NamesPublish {
    ghost use Rattle.std.specs.Prelude.{◌+◌};
    ghost use Rattle.cd_legal.specs.declared.entry.Entry.TheVariants.{Publish};
    ghost use Rattle.cd_life.specs.Origins.{change_of};

    ghost entry = { λ x. Publish x.0 (x.1 + 1) x.1 (change_of x.2.value) };
}

pub(crate) struct NamesAbandon;

impl Names<Closing> for NamesAbandon {
    ghost use Rattle.cd_legal.specs.declared.entry.Entry.TheVariants.{Abandon};

    ghost entry = { λ closing. Abandon closing.number };
}

pub(crate) struct NamesStopped;

impl Names<Closing> for NamesStopped {
    ghost use Rattle.cd_legal.specs.declared.entry.Entry.TheVariants.{Stopped};

    ghost entry = { λ closing. Stopped closing.number closing.apps };
}

pub(crate) struct NamesCleaned;

impl Names<Closing> for NamesCleaned {
    ghost use Rattle.cd_legal.specs.declared.entry.Entry.TheVariants.{Cleaned};

    ghost entry = { λ closing. Cleaned closing.number closing.instances };
}

pub(crate) struct NamesRetire;

impl Names<u32> for NamesRetire {
    ghost use Rattle.cd_legal.specs.declared.entry.Entry.TheVariants.{Retire};

    ghost entry = { λ serial. Retire serial };
}
