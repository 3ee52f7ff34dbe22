//! The clone of a route table, as that of its tree.

use crate::routes::RouteTable;
use rart_keys::KeyTrait;
use std::alloc::AllocError;

impl<K: KeyTrait + Drop, T: Clone> Clone for RouteTable<K, T> {
    ghost use Rattle.std.specs.Prelude.{◌≡◌, []};
    ghost use Rattle.rart.specs.Clones.{IsTreeClone};

    ghost is_clone = { λ s t. IsTreeClone T.is_clone s t };

    ghost is_infallible = { λ t. t.pairs ≡ [] };

    /// Returns a table with the same prefixes, a clone of each target, the same nodes and the same allocator.
    ///
    /// # Errors
    ///
    /// [`AllocError`] if an allocation or the clone of a target fails, which needs a table that isn't empty.
    fn clone(&self) -> Result<Self, AllocError> {
        let routes = self.routes.clone()?;
        Ok(RouteTable { routes })
    }
}
