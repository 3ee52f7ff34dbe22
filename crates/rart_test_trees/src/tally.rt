//! A count of visits that can be read.

ghost use Rattle.rart_trie.specs.walks.VisitCounts.{visit_count};

use rart::{Count, Visits};

/// A count that can be read. Contracts see it as that of `visits`.
#[derive(Drop)]
pub struct Tally {
    pub number: usize,
    visits: Visits,
}

impl Count for Tally {
    ghost number = { λ t. visit_count t.visits };

    fn add_one(&mut self) {
        self.number = self.number.wrapping_add(1);
        self.visits.add_one();
    }
}

impl Tally {
    /// Returns a count of no visits.
    pub fn new() -> Self {
        Tally {
            number: 0,
            visits: Visits::new(),
        }
    }
}
