//! Removal of the routes without which each longest match has the same target.
ghost use Rattle.std.specs.Prelude.{◌≡◌, Some, option_map};
ghost use Rattle.rart_keys.specs.Filters.{longest_match, longest_value};
ghost use Rattle.rart_keys.specs.SortedMap.{lookup, without};
ghost use Rattle.rart_cidr.specs.Aggregates.{Aggregates, AreCompared};

use crate::cidr::Network;
use crate::network_table::NetworkTable;
use rart::TreeError;

impl<N: Network, T> NetworkTable<N, T> {
    // Returns the route with the longest other network that contains all addresses of `net`.
    fn longest_other(&self, net: &N) -> Option<(N, &T)>
        ensures { option_map (λ p. (N.bits p.0, p.1.now)) result
            ≡ longest_match (N.bits net.now) (without (N.bits net.now) self.now) }
    {
        let len = net.len();
        if len == 0 {
            None
        } else {
            self.longest_match_net(&net.supernet(len - 1))
        }
    }
}

impl<N: Network, T: PartialEq> NetworkTable<N, T> {
    // Returns whether the target of `net`, which is stored, equals that of its longest other match.
    fn is_covered_alike(&self, net: &N) -> bool
        ensures { AreCompared T.eq (lookup (N.bits net.now) self.now)
            (longest_value (N.bits net.now) (without (N.bits net.now) self.now)) result }
    {
        match (self.get(net), self.longest_other(net)) {
            (Some(target), Some((_, other))) => target == other,
            _ => false,
        }
    }
}

impl<N: Network, T: PartialEq + Drop> NetworkTable<N, T> {
    /// Removes each route whose target equals that of the longest other network that contains it, drops its target, and
    /// returns how many there were. The longest match of any network then has the target that it had, or an equal one.
    ///
    /// It looks up each route and its longest other match once.
    ///
    /// # Errors
    ///
    /// Those of [`remove`](Self::remove), at the first route that can't be removed. Some routes are then removed, and
    /// each longest match has its target, or an equal one, all the same.
    pub fn aggregate(&mut self) -> Result<usize, TreeError>
        ensures { Aggregates T.eq self.old self.new result }
    {
        self.ascends();
        let before = self.len();
        let mut at = self.first_net();
        while let Some(net) = at {
            self.ascends();
            at = self.net_after(&net);
            if self.is_covered_alike(&net) {
                if let Err(error) = self.delete(&net) {
                    return Err(error);
                }
            }
        }
        Ok(before - self.len())
    }
}
