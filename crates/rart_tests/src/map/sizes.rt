//! The sizes of nodes and of the places that hold them, which must not grow unseen.

use rart::ArrPartial;
use rart_nodes::node::DefaultNode;
use std::mem::size_of;

type Node<const N: usize> = DefaultNode<ArrPartial<N>, u64>;

// A leaf holds its value, so that a place is wider than a value.
type WideNode = DefaultNode<ArrPartial<8>, [u64; 8]>;

#[test]
fn nodes_and_their_places_keep_their_sizes(rt: HostRuntime) {
    assert_eq!(rt; size_of::<Node<8>>(), 24);
    assert_eq!(rt; size_of::<Option<Node<8>>>(), 32);
    assert_eq!(rt; size_of::<Node<32>>(), 48);
    assert_eq!(rt; size_of::<Option<Node<32>>>(), 56);
    assert_eq!(rt; size_of::<WideNode>(), 80);
    assert_eq!(rt; size_of::<Option<WideNode>>(), 88);
}
