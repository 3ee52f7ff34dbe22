//! Equality of two trees whose values are not equal to themselves.

use rart::{AdaptiveRadixTree, KeyTrait};
use rart_test_trees::texts::Key;

type Floats = AdaptiveRadixTree<Key, f64>;

fn stores(tree: &mut Floats, value: f64) -> bool {
    tree.insert(Key::new_from_slice(b"a"), value).is_ok()
}

fn is_compared_by_value(none: &Floats, zero: &Floats, below: &Floats) -> bool {
    none != none && zero == below && zero != none
}

// The values are compared by their own `==`, at which one may be unequal to itself.
#[test]
fn values_are_compared_as_they_are(rt: HostRuntime) {
    let mut none = Floats::new(rt.alloc());
    let mut zero = Floats::new(rt.alloc());
    let mut below = Floats::new(rt.alloc());
    let well = stores(&mut none, f64::NAN)
        && stores(&mut zero, 0.0)
        && stores(&mut below, -0.0)
        && is_compared_by_value(&none, &zero, &below);
    assert!(rt; well);
}
