//! Tests of keys and of parts of keys.

mod numbers;
mod parts;
mod slices;
mod texts;
mod whole;
mod wide_parts;
