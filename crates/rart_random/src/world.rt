//! Two trees and a route table, each beside its model, and one call made on both.
use crate::call::{Call, edits_a_part, is_edit, takes_a_list};
use crate::kinds::grown::{grow, wanted_grow};
use crate::kinds::loads::{list_of, load, wanted_load};
use crate::kinds::owned::{owned, wanted_owned};
use crate::model::{Model, Pair};
use crate::numbers::low_byte;
use crate::routes::{below, call_table, shape_of_routes, wanted_below, wanted_of_table};
use crate::shape::{shape_in, shape_of};
use crate::sides::{Side, key_of};
use crate::text::Text;
use crate::{kinds, model};
use rart::KeyTrait;
use rart::routes::RouteTable;
use rart_test_tools::refusals::{refuse, was_refused};
use std::alloc::Global;

/// Two trees and a route table.
#[derive(Drop)]
pub struct World<K: KeyTrait> {
    alloc: Global,
    first: Side<K>,
    second: Side<K>,
    routes: RouteTable<K, u64>,
    route_model: Model,
    refused_edits: usize,
}

/// What a call is made with.
#[derive(Clone, Copy)]
struct Words {
    key: Text,
    end: Text,
    // A key and more bytes, more than a key may have.
    probe: Text,
}

// The key with six bytes more.
fn longer(key: &Text, choice: u64) -> Text {
    let mut text = *key;
    for place in 0..6_u64 {
        text.push(low_byte(choice.wrapping_shr((place.wrapping_mul(8)) as u32)));
    }
    text
}

// The key as the call wants it: a longer probe, or a beginning.
fn shaped(key: &Text, call: &Call, most: usize) -> Text {
    match call.kind {
        11 | 13 | 14 | 27 | 38 => longer(key, call.value).cut(most),
        18..22 | 25 | 39 | 44 => {
            let len = (key.len() as u64).saturating_add(1);
            key.cut((call.value >> 24).checked_rem(len).unwrap_or(0) as usize)
        }
        _ => *key,
    }
}

fn words_of(model: &Model, call: &Call, most: usize) -> Words {
    let near = if call.is_near {
        model.near(&call.key)
    } else {
        call.key
    };
    let end = if call.value % 2 == 0 {
        model.near(&call.end)
    } else {
        call.end
    };
    Words {
        key: shaped(&near, call, most),
        end,
        probe: longer(&near, call.value),
    }
}

fn is_right_side<K: KeyTrait + Drop>(alloc: Global, side: &Side<K>) -> bool {
    side.tree.canonical();
    let shape = shape_of(alloc, &side.model).ok();
    side.tree.len() == side.model.len()
        && kinds::reads::iter(&side.tree, u64::MAX)
            == Some(side.model.sum(0, side.model.len(), true))
        && shape.is_some()
        && shape_in(&side.tree) == shape
}

fn read<K: KeyTrait + Drop>(
    one: &Side<K>,
    other: &Side<K>,
    key: &K,
    end: &K,
    words: &Words,
    call: &Call,
) -> Option<u64> {
    match call.kind {
        9..16 => Some(kinds::reads::look(&one.tree, key, &words.probe, call)),
        16..24 => kinds::reads::walk(&one.tree, key, end, call),
        24..28 => kinds::views::view(&one.tree, key, end, call),
        42..46 => kinds::turns::turn(&one.tree, key, end, call),
        46 => owned(&one.tree, call),
        _ => kinds::views::join(&one.tree, &other.tree, call.kind),
    }
}

fn wanted_read(one: &Model, other: &Model, words: &Words, call: &Call) -> u64 {
    match call.kind {
        9..16 => model::reads::look(one, &words.key, &words.probe, call),
        16..24 => model::reads::walk(one, &words.key, &words.end, call),
        24..28 => model::views::view(one, &words.key, &words.end, call),
        42..46 => model::turns::turn(one, &words.key, &words.end, call),
        46 => wanted_owned(one, call),
        _ => model::views::join(one, other, call.kind),
    }
}

fn note_refusal<K: KeyTrait + Drop>(side: &mut Side<K>, words: &Words, call: &Call) -> bool {
    if call.kind == 41 {
        let len = side.model.len();
        return kinds::retains::note_refusal(&side.tree, &mut side.model, 0, len, call);
    }
    if edits_a_part(call) {
        return kinds::parts::note_refused(side, &words.key, &words.end, call);
    }
    model::edits::note_refusal(&mut side.model, &words.key, call);
    true
}

impl<K: KeyTrait + Drop> World<K> {
    /// Empty trees and an empty table.
    pub fn new(alloc: Global) -> Self {
        World {
            alloc,
            first: Side::new(alloc),
            second: Side::new(alloc),
            routes: RouteTable::new(alloc),
            route_model: Model::new(alloc),
            refused_edits: 0,
        }
    }

    /// How many pairs the larger tree has.
    pub fn size(&self) -> usize {
        self.first.model.len().max(self.second.model.len())
    }

    /// How many edits of a tree had a request refused.
    pub fn refused_edits(&self) -> usize {
        self.refused_edits
    }

    fn are_routes_right(&self) -> bool {
        self.routes.canonical();
        let shape = shape_of(self.alloc, &self.route_model).ok();
        match key_of::<K>(&Text::new()) {
            Some(key) => {
                self.routes.len() == self.route_model.len()
                    && shape.is_some()
                    && shape_of_routes(&self.routes) == shape
                    && below(&self.routes, &key)
                        == Some(wanted_below(&self.route_model, &Text::new()))
            }
            None => false,
        }
    }

    /// Whether pairs, shape and routes are those of the models.
    pub fn is_right(&self) -> bool {
        is_right_side(self.alloc, &self.first)
            && is_right_side(self.alloc, &self.second)
            && self.are_routes_right()
    }

    fn words(&self, call: &Call, most: usize) -> Words {
        let model = if call.kind >= 34 && call.kind < 40 {
            &self.route_model
        } else if call.on_second {
            &self.second.model
        } else {
            &self.first.model
        };
        words_of(model, call, most)
    }

    fn list(&self, call: &Call) -> Vec<Pair> {
        if !takes_a_list(call) {
            return Vec::new(self.alloc);
        }
        match list_of(self.alloc, &self.first.model, call) {
            Ok(list) => list,
            Err(_refused) => Vec::new(self.alloc),
        }
    }

    fn answer_at(
        &mut self,
        key: &K,
        end: &K,
        words: &Words,
        list: &[Pair],
        call: &Call,
    ) -> Option<u64> {
        match call.kind {
            0..9 | 41 if call.on_second => kinds::edits::edit(&mut self.second.tree, key, call),
            0..9 | 41 => kinds::edits::edit(&mut self.first.tree, key, call),
            32 | 33 => load::<K>(self.alloc, list),
            40 => grow::<K>(self.alloc, list, call),
            34..40 => call_table(&mut self.routes, key, &words.probe, call),
            47 if call.on_second => kinds::parts::edit(&mut self.second.tree, key, end, call),
            47 => kinds::parts::edit(&mut self.first.tree, key, end, call),
            _ if call.on_second => read(&self.second, &self.first, key, end, words, call),
            _ => read(&self.first, &self.second, key, end, words, call),
        }
    }

    // The sum of the call's answer; none if memory was refused.
    fn answer(&mut self, words: &Words, list: &[Pair], call: &Call) -> Option<u64> {
        let key = key_of::<K>(&words.key)?;
        let end = key_of::<K>(&words.end)?;
        self.answer_at(&key, &end, words, list, call)
    }

    // The sum that the models give.
    fn wanted(&mut self, words: &Words, list: &[Pair], call: &Call) -> u64 {
        match call.kind {
            0..9 | 41 if call.on_second => model::edits::edit(
                &mut self.second.model,
                &words.key,
                call,
            ),
            0..9 | 41 => model::edits::edit(&mut self.first.model, &words.key, call),
            32 | 33 => wanted_load(self.alloc, list),
            40 => wanted_grow(self.alloc, list, call),
            34..40 => wanted_of_table(&mut self.route_model, &words.key, &words.probe, call),
            47 if call.on_second => {
                kinds::parts::wanted(&mut self.second.model, &words.key, &words.end, call)
            }
            47 => kinds::parts::wanted(&mut self.first.model, &words.key, &words.end, call),
            _ if call.on_second => wanted_read(&self.second.model, &self.first.model, words, call),
            _ => wanted_read(&self.first.model, &self.second.model, words, call),
        }
    }

    // Leaves in the model what a refused call leaves, and returns whether it may: a refused removal by an update keeps
    // the value that was written, and a refused `retain` what it did before.
    fn note_refusal(&mut self, words: &Words, call: &Call) -> bool {
        if call.on_second {
            note_refusal(&mut self.second, words, call)
        } else {
            note_refusal(&mut self.first, words, call)
        }
    }

    fn is_answered(&mut self, words: &Words, list: &[Pair], call: &Call, refused: usize) -> bool {
        if refused > 0 {
            refuse(self.alloc, refused);
        }
        let mut answer = self.answer(words, list, call);
        if refused > 0 {
            let was = was_refused(self.alloc);
            if was != answer.is_none() {
                return false;
            }
            if was {
                if is_edit(call) {
                    self.refused_edits = self.refused_edits.wrapping_add(1);
                }
                if !self.note_refusal(words, call) || !self.is_right() {
                    return false;
                }
                answer = self.answer(words, list, call);
            }
        }
        answer == Some(self.wanted(words, list, call))
    }

    /// Makes the call, and says whether the answer is the model's. With `refused` above 0 that request of the call for
    /// memory is refused first: then nothing else may have changed, and the call is made again.
    pub fn is_played(&mut self, call: &Call, most: usize, refused: usize) -> bool {
        let words = self.words(call, most);
        let list = self.list(call);
        self.is_answered(&words, list.as_slice(), call, refused)
    }
}
