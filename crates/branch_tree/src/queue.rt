ghost use Rattle.std.specs.Prelude.{◌≡◌, ◌↔◌, [], ◌∷◌, All, IfOk, IfSome, IfNone, IsNone, OnErr, OnOk};
ghost use Rattle.std.specs.List.Sorted.{IsPermutation};
ghost use Rattle.branch_tree.specs.Order.{ComesFirst};

use path_graph::NoMemory;
use std::alloc::Global;
use std::cmp::Reverse;
use std::collections::BinaryHeap;
use std::marker::Model;

/// The open nodes of a search, by their bounds.
///
/// Contracts see it as the list of its pairs of bound and node in some order, so as a multiset: a pair that is pushed
/// twice is popped twice. A push and a pop take time logarithmic in the number of pairs.
#[derive(Drop)]
pub struct Queue {
    heap: BinaryHeap<Reverse<(i128, u32)>>,
}

impl Model for Queue {
    ghost use Rattle.std.specs.Prelude.{ℤ, ℕ, List};

    ghost Value = { List (ℤ × ℕ) };

    ghost use Rattle.branch_tree.specs.Order.{IsInOrder, pairs_of};
    ghost use Rattle.std.specs.BinaryHeap.{heap_items};

    ghost view = { λ q. pairs_of (heap_items q.heap) };

    ghost invariant = { λ q. IsInOrder (heap_items q.heap) };
}

impl Queue {
    /// The empty queue.
    pub fn new(alloc: Global) -> Result<Queue, NoMemory>
        ensures { IfOk result (λ queue. queue ≡ []) }
    {
        Ok(Queue {
            heap: BinaryHeap::new(alloc),
        })
    }

    /// Adds a node with its bound, which may be there already.
    pub fn push(&mut self, bound: i128, node: u32) -> Result<(), NoMemory>
        ensures ok { OnOk result (IsPermutation ((bound, node) ∷ self.old) self.new) }
        ensures err { OnErr result (self.new ≡ self.old) }
    {
        self.heap.push(Reverse((bound, node)))?;
        Ok(())
    }

    /// Removes the pair with the least bound, and of several with that bound the one with the least node; none exactly
    /// where there is no pair.
    pub fn pop(&mut self) -> Option<(i128, u32)>
        ensures none { IsNone result ↔ (self.old ≡ []) }
        ensures left { IfSome result (λ pair. IsPermutation self.old (pair ∷ self.new)) }
        ensures least { IfSome result (λ pair. All (ComesFirst pair) self.old) }
        ensures unchanged { IfNone result (self.new ≡ self.old) }
    {
        let Some(Reverse(pair)) = self.heap.pop() else {
            return None;
        };
        Some(pair)
    }
}
