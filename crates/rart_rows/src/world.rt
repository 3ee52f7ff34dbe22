//! Two trees and two route tables, and the calls that rows make on them.

use crate::answer::Answer;
use crate::asked::Asked;
use crate::calls::both::call_both;
use crate::calls::callbacks::call_back;
use crate::calls::edits::{add_to_values, insert_at, remove_at};
use crate::calls::groups::call_group;
use crate::calls::loads::{are_read, load};
use crate::calls::looks::{count_between, look, look_up_bytes, read_whole};
use crate::calls::many::edit_many;
use crate::calls::pairs::walk;
use crate::calls::routes::{call_route, reach};
use crate::calls::step::{call_of, put_reply};
use crate::calls::table_changes::change_table;
use crate::calls::tables::{call_tables, edit_table, read_table};
use crate::calls::tried_routes::try_routes;
use crate::calls::turns::walk_by_turns;
use crate::calls::views::view;
use crate::form::Form;
use crate::names::Call;
use crate::row::{Place, Row};
use rart::script::step;
use rart::{AdaptiveRadixTree, KeyTrait, RouteTable, TreeStatsTrait};
use rart_test_tools::refusals::{refuse, refuse_from, was_refused};
use rart_test_trees::{are_alike, have_same_stats};
use std::alloc::Global;

/// The trees.
pub type Tree<K> = AdaptiveRadixTree<K, u64>;

/// The route tables.
pub type Table<K> = RouteTable<K, u64>;

/// Pairs that a row lists.
pub type Items<K> = Vec<(K, u64)>;

/// What rows call.
#[derive(Drop)]
pub struct World<K: KeyTrait + Drop> {
    alloc: Global,
    /// Whether requests for memory can be refused.
    can_refuse: bool,
    tree: Tree<K>,
    other: Tree<K>,
    routes: Table<K>,
    other_routes: Table<K>,
    items: Items<K>,
}

// Makes a call that only reads the tree.
fn read<K: KeyTrait + Drop>(tree: &Tree<K>, asked: &Asked<'_, K>, answer: &mut Answer) {
    let (key, args, form) = (&asked.key, asked.args(), asked.form);
    match asked.row.call {
        Call::Look(name) => look(tree, key, name, form, answer),
        Call::Count(name) => count_between(tree, asked, name, answer),
        Call::Probe(name) => look_up_bytes(tree, args.probe.as_slice(), name, answer),
        Call::Whole(name) => read_whole(tree, name, answer),
        Call::Pairs(name) => walk(tree, asked, name, answer),
        Call::Turns(name) => walk_by_turns(tree, asked, name, answer),
        Call::Callback(name) => call_back(tree, asked, name, answer),
        Call::Views(name) => view(tree, asked, name, answer),
        _ => {}
    }
}

// Makes a call of one tree.
fn call_one<K: KeyTrait + Drop>(tree: &mut Tree<K>, asked: &Asked<'_, K>, answer: &mut Answer) {
    let (key, args, form) = (&asked.key, asked.args(), asked.form);
    match asked.row.call {
        Call::Insertion(name) => insert_at(tree, key, name, args, form, answer),
        Call::Removal(name) => remove_at(tree, key, name, form, answer),
        Call::Values(name) => add_to_values(tree, asked, name, answer),
        Call::Group(name) => call_group(tree, name, args, answer),
        _ => read(tree, asked, answer),
    }
}

// Makes a call of one tree, as a value where it is one.
fn call_by_step<K: KeyTrait + Drop>(
    alloc: Global,
    tree: &mut Tree<K>,
    asked: &Asked<'_, K>,
    answer: &mut Answer,
) {
    match call_of(asked) {
        Some(call) => put_reply(&step(alloc, tree, call), asked.row, answer),
        None => call_one(tree, asked, answer),
    }
}

// Makes a call of a tree, and of the other one where it is of both.
fn call_trees<K: KeyTrait + Drop>(
    alloc: Global,
    tree: &mut Tree<K>,
    other: &mut Tree<K>,
    items: &mut Items<K>,
    asked: &Asked<'_, K>,
    answer: &mut Answer,
) {
    let form = asked.form;
    match asked.row.call {
        Call::Many(name) => edit_many(alloc, tree, other, asked, name, answer),
        Call::Both(name) => call_both(tree, other, name, asked.args().walk, form, answer),
        Call::Load(name) => load(alloc, tree, name, items, answer),
        _ if form == Form::Step => call_by_step(alloc, tree, asked, answer),
        _ => call_one(tree, asked, answer),
    }
}

fn call_routes<K: KeyTrait + Drop>(
    alloc: Global,
    table: &mut Table<K>,
    other: &mut Table<K>,
    items: &mut Items<K>,
    asked: &Asked<'_, K>,
    answer: &mut Answer,
) {
    let (key, args, form) = (&asked.key, asked.args(), asked.form);
    match asked.row.call {
        Call::Route(name) => call_route(table, key, name, args.value, form, answer),
        Call::Reach(name) => reach(table, args.probe.as_slice(), name, form, answer),
        Call::TriedRoutes(name) => try_routes(table, asked, name, answer),
        Call::TableRead(name) => read_table(table, name, args.turns, answer),
        Call::TableEdit(name) => edit_table(alloc, table, name, items, answer),
        Call::TableChange(name) => change_table(table, name, args, form, answer),
        Call::Tables(name) => call_tables(table, other, name, answer),
        _ => {}
    }
}

fn are_same_tables<K: KeyTrait + Drop>(one: &Table<K>, other: &Table<K>) -> bool {
    match (one.get_tree_stats(), other.get_tree_stats()) {
        (Ok(left), Ok(right)) => left == right && one.len() == other.len() && *one == *other,
        _ => false,
    }
}

// Makes a tree a clone of another; whether there was memory.
fn is_tree_copied<K: KeyTrait + Drop>(tree: &mut Tree<K>, other: &Tree<K>) -> bool {
    match other.clone() {
        Ok(copy) => {
            *tree = copy;
            true
        }
        Err(_refused) => false,
    }
}

fn is_table_copied<K: KeyTrait + Drop>(table: &mut Table<K>, other: &Table<K>) -> bool {
    match other.clone() {
        Ok(copy) => {
            *table = copy;
            true
        }
        Err(_refused) => false,
    }
}

/// Which requests of a call are refused.
#[derive(Clone, Copy, PartialEq, Eq)]
pub enum Refusing {
    Nothing,
    /// The one of this number.
    One(usize),
    /// That one and each after it.
    From(usize),
}

fn start_refusing(alloc: Global, refusing: Refusing) {
    match refusing {
        Refusing::Nothing => refuse(alloc, 0),
        Refusing::One(at) => refuse(alloc, at),
        Refusing::From(at) => refuse_from(alloc, at),
    }
}

/// What came of a row.
#[derive(Clone, Copy)]
pub struct Made {
    /// Whether the keys and the listed pairs are such of the part.
    pub is_read: bool,
    /// Whether a request for memory was refused.
    pub is_refused: bool,
}

impl<K: KeyTrait + Drop> World<K> {
    /// Empty trees and tables.
    pub fn new(alloc: Global, can_refuse: bool) -> Self {
        World {
            alloc,
            can_refuse,
            tree: Tree::new(alloc),
            other: Tree::new(alloc),
            routes: Table::new(alloc),
            other_routes: Table::new(alloc),
            items: Vec::new(alloc),
        }
    }

    fn call(&mut self, asked: &Asked<'_, K>, answer: &mut Answer) {
        let alloc = self.alloc;
        let (tree, other) = (&mut self.tree, &mut self.other);
        let (routes, other_routes) = (&mut self.routes, &mut self.other_routes);
        let items = &mut self.items;
        match asked.row.place {
            Place::Tree => call_trees(alloc, tree, other, items, asked, answer),
            Place::Other => call_trees(alloc, other, tree, items, asked, answer),
            Place::Routes => call_routes(alloc, routes, other_routes, items, asked, answer),
            Place::OtherRoutes => call_routes(alloc, other_routes, routes, items, asked, answer),
        }
    }

    // Makes the call with requests refused, and returns whether one was.
    fn is_refused(
        &mut self,
        asked: &Asked<'_, K>,
        refusing: Refusing,
        answer: &mut Answer,
    ) -> bool {
        if !self.can_refuse {
            self.call(asked, answer);
            return false;
        }
        start_refusing(self.alloc, refusing);
        self.call(asked, answer);
        was_refused(self.alloc)
    }

    // Reads the pairs that the row lists.
    fn are_items_read(&mut self, row: &Row<'_>) -> bool {
        self.items.clear();
        are_read(row.args.items, &mut self.items)
    }

    /// Makes the call of a row with requests refused.
    pub fn make(
        &mut self,
        row: &Row<'_>,
        form: Form,
        refusing: Refusing,
        answer: &mut Answer,
    ) -> Made {
        answer.clear();
        match Asked::<K>::new(row, form) {
            Some(asked) if self.are_items_read(row) => Made {
                is_read: true,
                is_refused: self.is_refused(&asked, refusing, answer),
            },
            _ => Made {
                is_read: false,
                is_refused: false,
            },
        }
    }

    /// Whether the other world has the same pairs and statistics.
    pub fn is_like(&self, other: &Self) -> bool {
        are_alike(&self.tree, &other.tree)
            && self.tree == other.tree
            && are_alike(&self.other, &other.other)
            && are_same_tables(&self.routes, &other.routes)
            && are_same_tables(&self.other_routes, &other.other_routes)
    }
    /// Whether the trees have as many pairs and the same nodes as those of the other world.
    pub fn has_nodes_of(&self, other: &Self) -> bool {
        self.tree.len() == other.tree.len()
            && self.other.len() == other.other.len()
            && have_same_stats(&self.tree, &other.tree)
            && have_same_stats(&self.other, &other.other)
    }

    /// Makes the trees and tables those of the other world, and returns whether there was memory.
    pub fn is_made_like(&mut self, other: &Self) -> bool {
        is_tree_copied(&mut self.tree, &other.tree)
            && is_tree_copied(&mut self.other, &other.other)
            && is_table_copied(&mut self.routes, &other.routes)
            && is_table_copied(&mut self.other_routes, &other.other_routes)
    }
}
