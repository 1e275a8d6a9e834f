//! A value that only clauses read, and that changes by what happens.
ghost use Rattle.std.specs.Prelude.{◌≡◌};
ghost use Rattle.std.specs.Borrow.{ftrue};

use std::marker::{Model, PhantomData};

/// How a value comes of two others.
pub trait Makes<A, B, T> {
    ghost made: { A → B → T };
}

/// How a value changes by what a note shows.
pub trait Notes<X, T> {
    ghost after: { X → T → T };
}

/// A `T` as clauses see it. It has no bytes and owns nothing, so only clauses tie `value`.
pub struct Told<T> {
    marker: PhantomData<T>,
    pub ghost value: { T },
}

impl<T> Model for Told<T> {
    ghost also_owns = { λ _. ftrue };
}

impl<T> Drop for Told<T> {
    fn drop(self) {
        let Self { marker: _ } = self;
    }
}

unsafe impl<T> Send for Told<T> {}

/// What comes of what two references show.
pub fn told_of<A, B, T, M: Makes<A, B, T>>(left: &A, right: &B) -> Told<T>
    ensures { result.value ≡ M.made left.now right.now }
{
    let _ = left;
    let _ = right;
    Told {
        marker: PhantomData,
    }
}

/// The value itself.
struct Same;

impl<T> Makes<T, T, T> for Same {
    ghost made = { λ value same. value };
}

/// The value after a note.
struct After<M> {
    marker: PhantomData<M>,
}

impl<X, T, M: Notes<X, T>> Makes<X, Told<T>, T> for After<M> {
    ghost made = { λ note told. M.after note told.value };
}

impl<T> Told<T> {
    /// What the reference shows.
    pub fn of(value: &T) -> Told<T>
        ensures { result.value ≡ value.now }
    {
        told_of::<T, T, T, Same>(value, value)
    }

    /// The value after the note.
    pub fn then<X, M: Notes<X, T>>(&self, note: &X) -> Told<T>
        ensures { result.value ≡ M.after note.now self.now.value }
    {
        told_of::<X, Told<T>, T, After<M>>(note, self)
    }
}
