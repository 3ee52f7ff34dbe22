//! All routes of one table, moved into another.
ghost use Rattle.std.specs.Prelude.{◌≡◌, [], IfErr, Ok, OnOk};
ghost use Rattle.rart_keys.specs.BulkLists.{put_all};
ghost use Rattle.rart.specs.Appends.{MovesUntil};

use crate::routes::RouteTable;
use rart_keys::KeyTrait;
use rart_nodes::Refused;

impl<K: KeyTrait + Drop, T: Drop> RouteTable<K, T> {
    /// Moves all routes of `other` into this table and leaves `other` empty, as
    /// [`AdaptiveRadixTree::append`](crate::AdaptiveRadixTree::append) does.
    ///
    /// # Errors
    ///
    /// Those of [`pop_first`](Self::pop_first) and [`replace`](Self::replace), at the first route that can't be moved.
    /// The routes before it are moved. The route itself is still in `other`; if its insertion fails in both tables, the
    /// error holds it.
    pub fn append(&mut self, other: &mut Self) -> Result<(), Refused<Option<(K, T)>>>
        ensures pairs { OnOk result (self.new.pairs ≡ put_all other.old.pairs self.old.pairs) }
        ensures emptied { OnOk result (other.new.pairs ≡ []) }
        ensures refused { IfErr result (λ refused. MovesUntil K.bytes self.old.pairs
            other.old.pairs refused self.new.pairs other.new.pairs) }
        ensures exchanged { self.old.pairs ≡ []
            → (result ≡ Ok tt) × (self.new ≡ other.old) × (other.new ≡ self.old) }
    {
        self.routes.append(&mut other.routes)
    }
}
