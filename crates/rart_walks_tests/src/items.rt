//! What iterators of any type give: one proof in place of one for each type.

ghost use Rattle.std.specs.Prelude.{IfOk};
ghost use Rattle.std.specs.Iterator.{IsFinite};

use crate::visits::with_digit;
use rart::TreeError;
use rart_test_trees::texts::Key;

/// How many items are left.
fn count<I: Iterator>(items: &mut I) -> usize
where
    I::Item: Drop,
    requires can_next { I.can_next items.now × IsFinite (I.remaining items.now) }
{
    let mut many = 0_usize;
    while let Some(_item) = items.next() {
        many = many.wrapping_add(1);
    }
    many
}

/// How many items an iterator gives that was started.
pub fn counted<I: Iterator>(started: Result<I, TreeError>) -> Result<usize, TreeError>
where
    I::Item: Drop,
    requires can_next { IfOk started (λ items. I.can_next items × IsFinite (I.remaining items)) }
{
    match started {
        Ok(mut items) => Ok(count(&mut items)),
        Err(error) => Err(error),
    }
}

/// The values that are left, as digits after a first 1.
pub fn digits<'a, I: Iterator<Item = (Key, &'a u64)>>(pairs: &mut I) -> u64
    requires can_next { I.can_next pairs.now × IsFinite (I.remaining pairs.now) }
{
    let mut seen = 1_u64;
    while let Some((_key, value)) = pairs.next() {
        seen = with_digit(seen, *value);
    }
    seen
}
