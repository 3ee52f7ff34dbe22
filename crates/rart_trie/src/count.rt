//! How many nodes a call visits: a number that exists in proofs alone.

// Two proofs by hand name the paths of this module, so nothing in it is renamed.

ghost use Rattle.std.specs.Prelude.{◌≡◌, ℕ, ◌+◌};

use std::marker::{Model, PhantomData};

/// Counts visits for contracts. Generic code can neither create nor reset a `Count`; it can only add one.
pub trait Count {
    ghost number: { Self → ℕ };

    /// Adds one.
    fn add_one(&mut self)
        ensures { number self.new ≡ number self.old + 1 };
}

/// Counts visits in proofs alone. It has size 0 at run time.
#[derive(Drop)]
pub struct Visits {
    ghost count: { ℕ },
}

impl Model for Visits {
    ghost use Rattle.std.specs.Borrow.{ftrue};

    ghost also_owns = { λ _. ftrue };
}

impl Visits {
    ghost use Rattle.rart_trie.specs.walks.VisitCounts.{visit_count};

    /// Returns a counter of no visits.
    pub fn new() -> Visits
        ensures { visit_count result ≡ 0 }
    {
        Visits {}
    }

    fn step(&mut self)
        ensures { visit_count self.new ≡ visit_count self.old + 1 }
    {}
}

impl Count for Visits {
    ghost use Rattle.rart_trie.specs.walks.VisitCounts.{visit_count};

    ghost number = { visit_count };

    fn add_one(&mut self) {
        self.step()
    }
}

const _: () = prove!(std::mem::size_of::<Visits>() == 0);

/// Marks the second tree of an intersection. It implements no `Count`: the visits of both trees are counted by the `C`
/// of the first tree, a pair of nodes as one visit.
pub struct Paired<C> {
    of: PhantomData<C>,
}
