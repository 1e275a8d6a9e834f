use crate::tokens::Id;
use slab::Slab;
use std::alloc::Global;
use std::collections::VecDeque;
use std::time::Duration;

// So many names of what is no more there are kept in any case.
const FEW_NAMES: usize = 64;

/// A value that waits, and since when.
#[derive(Drop)]
pub struct Slot<T> {
    pub value: T,
    since: Duration,
    generation: u32,
}

/// Values that wait, in the order in which they came. A value has an id of its own, also where it gets the place of another one.
#[derive(Drop)]
pub struct Aged<T> {
    pub slots: Slab<Slot<T>>,
    // The ids in the order in which they came, with some of what is no more there.
    order: VecDeque<Id>,
    generation: u32,
}

impl<T: Drop> Aged<T> {
    /// There is none.
    pub fn new(alloc: Global) -> Aged<T> {
        Aged {
            slots: Slab::new(alloc),
            order: VecDeque::new(alloc),
            generation: 0,
        }
    }

    /// How many there are.
    pub fn len(&self) -> usize {
        self.slots.len()
    }

    /// Whether there is none.
    pub fn is_empty(&self) -> bool {
        self.slots.is_empty()
    }

    /// Adds a value, which is the youngest. For want of memory there is no id, and it is let go.
    pub fn insert(&mut self, value: T, since: Duration) -> Option<Id> {
        self.forget_names();
        self.generation = self.generation.wrapping_add(1);
        let generation = self.generation;
        let slot = Slot {
            value,
            since,
            generation,
        };
        let key = self.slots.insert(slot).ok()?;
        let id = Id { key, generation };
        if self.order.push_back(id).is_err() {
            let _ = self.slots.try_remove(key);
            return None;
        }
        Some(id)
    }

    // Drops the names of what is no more there, once they are more than the others.
    fn forget_names(&mut self) {
        if self.order.len() / 2 > self.slots.len().saturating_add(FEW_NAMES) {
            let slots = &self.slots;
            self.order.retain(|id| is_there(slots, *id));
        }
    }

    /// The value of this id, where it is still there.
    pub fn get_mut(&mut self, id: Id) -> Option<&mut T> {
        let slot = self.slots.get_mut(id.key)?;
        if slot.generation == id.generation {
            Some(&mut slot.value)
        } else {
            None
        }
    }

    /// The value of this id, where it is still there.
    pub fn get(&self, id: Id) -> Option<&T> {
        let slot = self.slots.get(id.key)?;
        if slot.generation == id.generation {
            Some(&slot.value)
        } else {
            None
        }
    }

    /// Takes the value of this id out, where it is still there.
    pub fn remove(&mut self, id: Id) -> Option<T> {
        if !is_there(&self.slots, id) {
            return None;
        }
        let slot = self.slots.try_remove(id.key)?;
        let Slot { value, .. } = slot;
        Some(value)
    }

    /// Takes the oldest out, where it came before then.
    pub fn take_oldest(&mut self, before: Duration) -> Option<T> {
        for _ in 0..self.order.len() {
            let id = *self.order.front()?;
            if let Some(slot) = self.slots.get(id.key)
                && slot.generation == id.generation
            {
                if slot.since >= before {
                    return None;
                }
                let _ = self.order.pop_front();
                return self.remove(id);
            }
            let _ = self.order.pop_front();
        }
        None
    }

    /// The ids of all, as far as there is memory for them.
    pub fn ids(&self, alloc: Global) -> Vec<Id> {
        let mut ids = Vec::new(alloc);
        for id in self.order.iter() {
            if ids.push(*id).is_err() {
                return ids;
            }
        }
        ids
    }
}

fn is_there<T: Drop>(slots: &Slab<Slot<T>>, id: Id) -> bool {
    match slots.get(id.key) {
        Some(slot) => slot.generation == id.generation,
        None => false,
    }
}
