ghost use Rattle.std.specs.Prelude.{◌≡◌, ◌<◌, ◌↔◌, [], length, slice_get, IsTrue, IfOk, OnSome};
ghost use Rattle.std.specs.Option.{option_copied};

use cd_text::{List, NoMemory};
use std::alloc::Global;
use std::marker::Model;
use std::sync::Arc;

/// A list that several owners have together, also in different threads. Nobody changes it, and it goes with its last owner.
/// Contracts see the list of its elements.
#[derive(Drop)]
pub struct Shared<T> {
    elements: Arc<Vec<T>>,
}

impl<T> Model for Shared<T> {
    ghost use Rattle.std.specs.Prelude.{List};
    ghost use Rattle.std.specs.Coded.{coded_list};

    ghost Value = { List T };

    ghost coded = { coded_list T.code };

    ghost view = { λ shared. shared.elements.value.items };
}

impl<T: Drop> Shared<T> {
    /// The list with its first owner. It takes memory for a count of the owners, and moves no element.
    pub fn new(alloc: Global, list: List<T>) -> Result<Shared<T>, NoMemory>
        ensures { IfOk result (λ made. made ≡ list) }
    {
        let elements = Arc::new(alloc, list.into_vec())?;
        Ok(Shared { elements })
    }

    /// One owner more of the same list. NoMemory comes where the count of the owners is at its end.
    pub fn share(&self) -> Result<Shared<T>, NoMemory>
        ensures { IfOk result (λ made. made ≡ self.now) }
    {
        let elements = Arc::try_clone(&self.elements)?;
        Ok(Shared { elements })
    }
}

impl<T> Shared<T> {
    /// The elements, to look at.
    pub fn as_slice(&self) -> &[T]
        ensures { result.now ≡ self.now }
    {
        self.elements.as_slice()
    }

    /// How many elements there are.
    pub fn len(&self) -> usize
        ensures { result ≡ length self.now }
    {
        self.elements.len()
    }

    /// Whether there are none.
    pub fn is_empty(&self) -> bool
        ensures { IsTrue result ↔ (self.now ≡ []) }
    {
        self.elements.is_empty()
    }

    /// The element at a place, counted from 0, or `None` past the end.
    pub fn get(&self, at: usize) -> Option<&T>
        ensures value { option_copied result ≡ slice_get self.now at }
        ensures within { OnSome result (at < length self.now) }
    {
        self.elements.get(at)
    }
}
