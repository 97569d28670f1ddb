//! Lists that take no memory once they are made.

use path_graph::NoMemory;
use std::alloc::Global;

/// A list with room for so many items. Its places are overwritten, so that only `new` takes memory.
#[derive(Drop)]
pub(crate) struct Buffer<T> {
    places: Vec<T>,
    count: usize,
}

impl<T: Copy> Buffer<T> {
    /// An empty list. `filler` stands in places that are not used yet.
    pub(crate) fn new(alloc: Global, filler: T, room: usize) -> Result<Buffer<T>, NoMemory> {
        let mut places = Vec::new(alloc);
        places.resize(room, filler)?;
        Ok(Buffer { places, count: 0 })
    }

    /// Removes all items.
    pub(crate) fn clear(&mut self) {
        self.count = 0;
    }

    /// How many items there are.
    pub(crate) fn len(&self) -> usize {
        self.as_slice().len()
    }

    /// Appends an item where there is room, and else drops it.
    pub(crate) fn push(&mut self, item: T) {
        if self.count < self.places.len() {
            self.places[self.count] = item;
            self.count += 1;
        }
    }

    /// The item at a place.
    pub(crate) fn at(&self, place: usize) -> Option<T> {
        self.as_slice().get(place).copied()
    }

    /// The items.
    pub(crate) fn as_slice(&self) -> &[T] {
        let places = self.places.as_slice();
        if self.count <= places.len() {
            &places[..self.count]
        } else {
            places
        }
    }

    /// The items, to be changed.
    pub(crate) fn as_mut_slice(&mut self) -> &mut [T] {
        let places = self.places.as_mut_slice();
        if self.count <= places.len() {
            &mut places[..self.count]
        } else {
            places
        }
    }
}
