//! The clone of a table.
ghost use Rattle.std.specs.Prelude.{◌≡◌, ◌≢◌, [], IfOk, OnErr, OnOk};
ghost use Rattle.rart_keys.specs.SortedMap.{IsAscending, put};
ghost use Rattle.rart_cidr.specs.tables.TableClones.{IsTableClone};

use crate::cidr::Network;
use crate::network_table::{NetworkTable, Routes};
use std::alloc::AllocError;

/// Inserts the clone of each target, in order. Allocates for one walk over the routes.
impl<N: Network, T: Clone> Clone for NetworkTable<N, T> {
    ghost use Rattle.std.specs.Prelude.{◌≡◌, []};
    ghost use Rattle.rart_cidr.specs.tables.TableClones.{IsTableClone};

    ghost is_clone = { λ s t. IsTableClone T.is_clone s t };

    ghost is_infallible = { λ t. t ≡ [] };

    /// Returns a table with the same networks, a clone of each target and the same allocator.
    ///
    /// # Errors
    ///
    /// [`AllocError`] if an allocation or the clone of a target fails, which needs a table that isn't empty. What was
    /// cloned until then is dropped.
    fn clone(&self) -> Result<Self, AllocError> {
        self.ascends();
        let mut table = NetworkTable::new(self.routes.alloc());
        match self.within_all(&N::whole()) {
            Ok(mut rest) => match insert_clones(&mut table, &mut rest) {
                Ok(()) => Ok(table),
                Err(error) => Err(error),
            },
            Err(_) => Err(AllocError),
        }
    }
}

// Inserts the clone of each target of `rest` into an empty table.
fn insert_clones<N: Network, T: Clone>(
    table: &mut NetworkTable<N, T>,
    rest: &mut Routes<'_, N, T>,
) -> Result<(), AllocError>
    requires empty { table.old ≡ [] }
    requires ascending { IsAscending rest.old }
    ensures clones { OnOk result (IsTableClone T.is_clone rest.old table.new) }
    ensures allocates { OnErr result (rest.old ≢ []) }
{
    while let Some(route) = rest.next() {
        put_clone(table, route)?;
    }
    Ok(())
}

// Inserts a route to the clone of a target.
fn put_clone<N: Network, T: Clone>(
    table: &mut NetworkTable<N, T>,
    route: (N, &T),
) -> Result<(), AllocError>
    ensures { OnOk result ((clone : T) × T.is_clone route.entry.1.now clone
        × (table.new ≡ put (N.bits route.entry.0) clone table.old)) }
{
    let (net, target) = route;
    let clone = target.clone()?;
    match table.insert(&net, clone) {
        Ok(_) => Ok(()),
        Err(_) => Err(AllocError),
    }
}
