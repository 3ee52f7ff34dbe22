//! Values offered to the calls that lend the value at a key: stored, dropped or returned, each once.

use crate::map::drops::{Tree, filled, key};
use rart::TreeError;
use rart_test_tools::counted::Counted;
use rart_test_tools::refusals::{is_swept, refuse, was_refused};
use std::alloc::Global;
use std::cell::Cell;

#[derive(Clone, Copy)]
enum Form {
    Value,
    ValueByReference,
    With,
    WithByReference,
}

// Each form, and how many values it drops where the key is stored: a callback is then not called.
static FORMS: [(Form, usize); 4] = [
    (Form::Value, 1),
    (Form::ValueByReference, 1),
    (Form::With, 0),
    (Form::WithByReference, 0),
];

// The number of the value that is lent, where a value of another number is offered; none where it is refused.
fn lent<'a>(
    tree: &mut Tree<'a>,
    byte: u8,
    number: u8,
    form: Form,
    drops: &'a Cell<usize>,
) -> Result<u8, TreeError> {
    let held = match form {
        Form::Value => tree.get_or_insert(key(byte), Counted(number, drops)),
        Form::ValueByReference => tree.get_or_insert_k(&key(byte), Counted(number, drops)),
        Form::With => tree.get_or_insert_with(key(byte), || Counted(number, drops)),
        Form::WithByReference => tree.get_or_insert_with_k(&key(byte), || Counted(number, drops)),
    };
    match held {
        Ok(value) => Ok(value.0),
        Err(refused) => Err(refused.error),
    }
}

// What is lent at the stored key 3 and at the new key 9, the drops after each, and those once the tree is dropped.
fn lent_and_dropped(alloc: Global, form: Form) -> (Result<u8, TreeError>, usize, usize) {
    let drops = Cell::new(0_usize);
    let mut tree = filled::<4>(alloc, &drops, 5);
    let stored = lent(&mut tree, 3, 99, form, &drops);
    let early = drops.get();
    let is_new = lent(&mut tree, 9, 98, form, &drops) == Ok(98) && drops.get() == early;
    drop(tree);
    if is_new {
        (stored, early, drops.get())
    } else {
        (Ok(0), 0, 0)
    }
}

#[test]
fn an_offered_value_is_stored_or_dropped_once(rt: HostRuntime) {
    for (form, dropped) in FORMS {
        let wanted = (Ok(3), dropped, dropped.wrapping_add(6));
        assert_eq!(rt; lent_and_dropped(rt.alloc(), form), wanted);
    }
}

// A new key that makes the node grow, with a request refused: the offered value is returned, and dropped here.
fn is_refused_well(alloc: Global, at: usize, form: Form) -> Option<bool> {
    let drops = Cell::new(0_usize);
    let mut tree = filled::<4>(alloc, &drops, 4);
    refuse(alloc, at);
    let held = lent(&mut tree, 9, 98, form, &drops);
    let refused = was_refused(alloc);
    let (early, left) = (drops.get(), tree.len());
    drop(tree);
    let wanted = if refused {
        (Err(TreeError::Memory), 1, 4)
    } else {
        (Ok(98), 0, 5)
    };
    ((held, early, left) == wanted && drops.get() == 5).then_some(refused)
}

#[test]
fn an_offered_value_refused_in_turn_is_returned(rt: HostRuntime) {
    for (form, _dropped) in FORMS {
        assert!(rt; is_swept(rt.alloc(), |at| is_refused_well(rt.alloc(), at, form)));
    }
}
