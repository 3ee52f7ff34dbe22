//! Makes calls on trees of 1024 keys nested in each other, whose nodes are a path, and on one of 128 levels of wide
//! nodes.
//!
//! Each line of standard input names a call; its answer is printed after the name. Run under a limit of the stack, it
//! shows what a level takes. It is no part of the product.
#![tactic(auto)]

mod edits;
mod loads;
mod parts;
mod reads;
mod trees;
mod walks;

use crate::trees::{Tree, nested};
use std::alloc::Global;
use std::io;
use std::io::Read;
use std::process::ExitCode;

// Makes the call of this name on two trees of all keys, of which this is one.
fn answer_beside(tree: &Tree, alloc: Global, name: &str) -> Option<usize> {
    let other = nested(alloc)?;
    reads::read_both(tree, &other, name)
}

// Makes the call of this name on a tree of all keys, or on two. Only this function and the one above own trees of all
// keys: a proof takes the longer the more functions own a tree.
fn answer_of_nested(alloc: Global, name: &str) -> Option<usize> {
    let mut tree = nested(alloc)?;
    if name == "equal" || name.starts_with("intersect_") {
        answer_beside(&tree, alloc, name)
    } else {
        edits::edit(&mut tree, name)
    }
}

// Makes the call of this name. `None` if there is none, or no memory.
fn answer(alloc: Global, name: &str) -> Option<usize> {
    match name {
        "insert_new" => edits::insert_new(alloc),
        "try_insert" => edits::try_insert(alloc),
        "routes" => edits::routes(alloc),
        "bulk_load_sorted" => loads::sorted(alloc),
        "from_pairs" => loads::from_pairs(alloc),
        "into_pairs" => loads::into_pairs(alloc),
        "drop_closing_zeros" => loads::texts(alloc),
        "drop_short_keys" => loads::short_keys(alloc),
        _ => answer_of_nested(alloc, name),
    }
}

fn run_lines(rt: &impl Print, alloc: Global, text: &str) -> io::Result<()> {
    for name in text.lines() {
        match answer(alloc, name) {
            Some(number) => println!(rt; "{name} {number}")?,
            None => println!(rt; "{name} has no answer")?,
        }
    }
    Ok(())
}

fn main(rt: HostRuntime) -> ExitCode {
    let alloc = rt.alloc();
    let mut bytes = Vec::new(alloc);
    if rt.stdin().read_to_end(&mut bytes).is_err() {
        return ExitCode::from(2);
    }
    let Ok(text) = str::from_utf8(bytes.as_slice()) else {
        return ExitCode::from(2);
    };
    match run_lines(&rt, alloc, text) {
        Ok(()) => ExitCode::from(0),
        Err(_) => ExitCode::from(3),
    }
}
