//! The keys of a radix tree, and the parts of keys that its nodes keep. Contracts read both as lists of bytes, and no
//! call allocates.
#![tactic(auto)]

mod common_prefix;
mod copies;
mod inline_bytes;
pub mod keys;
pub mod laws;
pub mod partials;
mod strip;
mod texts;

pub use crate::common_prefix::common_prefix_length;
pub use crate::copies::copy_bytes;
pub use crate::keys::KeyTrait;
pub use crate::keys::array_key::ArrayKey;
pub use crate::partials::Partial;
pub use crate::partials::array_partial::ArrPartial;
pub use crate::strip::strip_prefix;
pub use crate::texts::write_bytes;
