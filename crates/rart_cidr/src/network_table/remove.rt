//! Removal of all routes inside a network.
ghost use Rattle.std.specs.Prelude.{◌≡◌, ◌≤◌, length, IfErr, OnErr, OnOk};
ghost use Rattle.rart_keys.specs.SortedMap.{without};
ghost use Rattle.rart_parts.specs.declared.error.TreeError.TheVariants.{Memory};
ghost use Rattle.rart_cidr.specs.tables.ManyEdits.{RemovesWithin};

use crate::cidr::Network;
use crate::network_table::NetworkTable;
use rart::TreeError;

impl<N: Network, T: Drop> NetworkTable<N, T> {
    // Removes the route of exactly `net` and drops its target.
    pub(super) fn delete(&mut self, net: &N) -> Result<(), TreeError>
        ensures removed { OnOk result (self.new ≡ without (N.bits net.now) self.old) }
        ensures memory { IfErr result (λ e. (e ≡ Memory) × (5 ≤ length self.old)) }
        ensures unchanged { OnErr result (self.new ≡ self.old) }
    {
        match self.remove(net) {
            Ok(_target) => Ok(()),
            Err(error) => Err(error),
        }
    }

    /// Removes all routes inside `net`, drops their targets, and returns how many there were.
    ///
    /// # Errors
    ///
    /// Those of [`remove`](Self::remove), at the first route that can't be removed. The routes inside `net` before it
    /// are then removed, and all others are unchanged.
    pub fn remove_within(&mut self, net: &N) -> Result<usize, TreeError>
        ensures { RemovesWithin (N.bits net.now) self.old self.new result }
    {
        self.ascends();
        let before = self.len();
        while let Some(found) = self.first_within(net) {
            self.ascends();
            if let Err(error) = self.delete(&found) {
                return Err(error);
            }
        }
        Ok(before - self.len())
    }
}
