//! Laws of a route table: the probes whose route an edit changes.
ghost use Rattle.std.specs.Prelude.{◌≡◌, IfErr, IfOk, OnErr, OnOk};
ghost use Rattle.rart_keys.specs.Filters.{longest_value};
ghost use Rattle.rart_keys.specs.LongestMatches.{HasLonger, KeepsLongest, KeepsOthers, TakesLongest};
ghost use Rattle.rart_keys.specs.SortedMap.{put, without};
ghost use Rattle.rart.specs.Refusals.{MayRefuseRemove, IsNotInserted};

use crate::routes::RouteTable;
use rart_keys::KeyTrait;
use rart_nodes::NotInserted;
use rart_parts::TreeError;

/// Inserts a new route and returns the targets of `probe` before and after.
///
/// The route takes each probe that its prefix begins and no longer stored prefix does. Each other probe keeps its
/// route.
///
/// # Errors
///
/// Those of [`RouteTable::add_new`]. The table is then unchanged.
pub fn add_then_route<K: KeyTrait, T: Copy>(
    table: &mut RouteTable<K, T>,
    prefix: &K,
    target: T,
    probe: &[u8],
) -> Result<(Option<T>, Option<T>), NotInserted<T>>
    ensures pairs { OnOk result
        (table.new.pairs ≡ put (K.bytes prefix.now) target table.old.pairs) }
    ensures before { IfOk result (λ r. r.0 ≡ longest_value probe.now table.old.pairs) }
    ensures after { IfOk result (λ r. r.1 ≡ longest_value probe.now table.new.pairs) }
    ensures longest { OnOk result
        (TakesLongest (K.bytes prefix.now) target probe.now table.old.pairs table.new.pairs) }
    ensures longer_stays { OnOk result (HasLonger (K.bytes prefix.now) probe.now table.old.pairs
        → KeepsLongest probe.now table.old.pairs table.new.pairs) }
    ensures others_stay { OnOk result
        (KeepsOthers (K.bytes prefix.now) probe.now table.old.pairs table.new.pairs) }
    ensures refused { IfErr result (IsNotInserted table.old.pairs (K.bytes prefix.now) target) }
    ensures unchanged { OnErr result (table.new ≡ table.old) }
{
    table.canonical();
    rart_keys::laws::longest::longest_matches::<T>();
    let before = table.route(probe).copied();
    table.add_new(prefix, target)?;
    Ok((before, table.route(probe).copied()))
}

/// Removes a route and returns the targets of `probe` before and after.
///
/// A probe that the prefix doesn't begin keeps its route.
///
/// # Errors
///
/// Those of [`RouteTable::withdraw`]. The table is then unchanged.
pub fn withdraw_then_route<K: KeyTrait, T: Copy>(
    table: &mut RouteTable<K, T>,
    prefix: &K,
    probe: &[u8],
) -> Result<(Option<T>, Option<T>), TreeError>
    ensures pairs { OnOk result (table.new.pairs ≡ without (K.bytes prefix.now) table.old.pairs) }
    ensures before { IfOk result (λ r. r.0 ≡ longest_value probe.now table.old.pairs) }
    ensures after { IfOk result (λ r. r.1 ≡ longest_value probe.now table.new.pairs) }
    ensures others_stay { OnOk result
        (KeepsOthers (K.bytes prefix.now) probe.now table.old.pairs table.new.pairs) }
    ensures memory { IfErr result (MayRefuseRemove table.old.pairs (K.bytes prefix.now)) }
    ensures unchanged { OnErr result (table.new ≡ table.old) }
{
    rart_keys::laws::longest::longest_matches::<T>();
    let before = table.route(probe).copied();
    let _target = table.withdraw(prefix)?;
    Ok((before, table.route(probe).copied()))
}
