// What each step on the table tells.
use crate::view::View;
use atomic_table::{Join, Play, Split};
use cd_legal::Stands;
use std::marker::{Brand, PhantomData};

/// Which entry a step is about, by what the caller hands in.
pub trait Names<X> {
    ghost use Rattle.cd_legal.specs.declared.entry.Entry.{Entry};

    ghost entry: { X → Entry };
}

/// Names the entry of one step. Each call picks it.
pub trait Says {
    ghost use Rattle.cd_legal.specs.declared.entry.Entry.{Entry};

    ghost said: { Entry };
}

impl Says for Brand {
    ghost use Rattle.cd_legal.specs.declared.entry.Entry.TheVariants.{Finish};

    ghost said = { Finish 0 };
}

// ---- the turn

pub(crate) struct Acquire;

impl<T: Stands> Play<Option<T>, View<T>> for Acquire {
    ghost use Rattle.cd_gate.specs.Tables.{acquired};

    ghost then = { acquired T.stands };
}

pub(crate) struct Note<E> {
    entry: PhantomData<E>,
}

impl<T, E: Says> Play<Option<T>, View<T>> for Note<E> {
    ghost use Rattle.cd_gate.specs.Tables.{wrote};

    ghost then = { wrote E.said };
}

pub(crate) struct Release;

impl<T> Play<Option<T>, View<T>> for Release {
    ghost use Rattle.cd_gate.specs.Tables.{released};

    ghost then = { released };
}

// ---- requests

pub(crate) struct Check;

impl<T> Play<Option<T>, View<T>> for Check {
    ghost use Rattle.cd_gate.specs.Tables.{has_checked};

    ghost then = { has_checked };
}

pub(crate) struct BeginRequest;

impl<T> Play<Option<T>, View<T>> for BeginRequest {
    ghost use Rattle.cd_gate.specs.Tables.{has_begun};

    ghost then = { has_begun };
}

pub(crate) struct EndRequest;

impl<T> Play<Option<T>, View<T>> for EndRequest {
    ghost use Rattle.cd_gate.specs.Tables.{has_ended};

    ghost then = { has_ended };
}

// ---- serials

pub(crate) struct MakeReady;

impl<T> Play<Option<T>, View<T>> for MakeReady {
    ghost use Rattle.cd_gate.specs.Tables.{has_readied};

    ghost then = { has_readied };
}

pub(crate) struct SupersedeBy<E> {
    entry: PhantomData<E>,
}

impl<T, E: Says> Play<Option<T>, View<T>> for SupersedeBy<E> {
    ghost use Rattle.cd_gate.specs.Tables.{has_superseded};

    ghost then = { has_superseded (λ _. E.said) };
}

pub(crate) struct SupersedeForGood;

impl<T> Play<Option<T>, View<T>> for SupersedeForGood {
    ghost use Rattle.std.specs.Prelude.{◌+◌};
    ghost use Rattle.cd_legal.specs.declared.entry.Entry.TheVariants.{Halt};
    ghost use Rattle.cd_gate.specs.Tables.{has_superseded};

    ghost then = { has_superseded (λ n. Halt (n + 1)) };
}

pub(crate) struct Settle;

impl<T> Play<Option<T>, View<T>> for Settle {
    ghost use Rattle.cd_gate.specs.Tables.{has_settled};

    ghost then = { has_settled };
}

// ---- seats

pub(crate) struct HandOut;

impl<T> Split<View<T>> for HandOut {
    ghost use Rattle.cd_gate.specs.Steps.{splitting, split_off};

    ghost left = { splitting };

    ghost right = { split_off };
}

pub(crate) struct TakeIn;

impl<T> Join<View<T>> for TakeIn {
    ghost use Rattle.cd_gate.specs.Steps.{joining, spent_view};

    ghost both = { joining };

    ghost spent = { spent_view };
}

pub(crate) struct Copy;

impl<T> Split<View<T>> for Copy {
    ghost use Rattle.cd_gate.specs.Steps.{messenger};

    ghost left = { λ v. v };

    ghost right = { λ v. messenger v.seen };
}

pub(crate) struct HandOver;

impl<T> Join<View<T>> for HandOver {
    ghost use Rattle.cd_gate.specs.Steps.{told, spent_view};

    ghost both = { told };

    ghost spent = { spent_view };
}

pub(crate) struct Compare;

impl<T> Play<Option<T>, View<T>> for Compare {
    ghost use Rattle.cd_gate.specs.Tables.{has_compared};

    ghost then = { has_compared };
}
