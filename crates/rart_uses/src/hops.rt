//! A route table: networks by their first bytes, each with a next hop.
ghost use Rattle.std.specs.Prelude.{◌≡◌, ◌≤◌, length, IfErr, OnErr, OnOk};
ghost use Rattle.std.specs.Option.{option_copied};
ghost use Rattle.rart_keys.specs.Filters.{longest_value};
ghost use Rattle.rart_keys.specs.SortedMap.{put};
ghost use Rattle.rart.specs.Refusals.{MayRefuseInsert};

use rart::{AdaptiveRadixTree, ArrayKey, KeyTrait, Refused};

/// Networks of at most 16 bytes, and the number of the next hop of each.
pub type Routes = AdaptiveRadixTree<ArrayKey<16>, u32>;

/// Inserts or replaces the route from `network` to `hop`.
///
/// # Errors
///
/// [`TreeError::Full`](rart::TreeError::Full) or [`TreeError::Memory`](rart::TreeError::Memory) if the network is new
/// and the insertion fails. The table is then unchanged, and the error holds `hop`.
pub fn add_route(routes: &mut Routes, network: &[u8], hop: u32) -> Result<(), Refused<u32>>
    requires { length network.now ≤ 16 }
    ensures added { OnOk result (routes.new.pairs ≡ put network.now hop routes.old.pairs) }
    ensures refused { IfErr result
        (λ e. (e.value ≡ hop) × MayRefuseInsert routes.old.pairs network.now e.error) }
    ensures unchanged { OnErr result (routes.new ≡ routes.old) }
{
    match routes.insert_k(&ArrayKey::<16>::new_from_slice(network), hop) {
        Ok(_old) => Ok(()),
        Err(refused) => Err(refused),
    }
}

/// Returns the next hop of the longest network that begins `address`. Allocates nothing.
pub fn next_hop<'a>(routes: &'a Routes, address: &[u8]) -> Option<&'a u32>
    ensures { option_copied result ≡ longest_value address.now routes.now.pairs }
{
    routes.longest_prefix_value_bytes(address)
}
