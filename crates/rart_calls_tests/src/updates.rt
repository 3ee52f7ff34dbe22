//! Updates of values that count their drops, and of values whose clone requests memory.

pub mod drops;
mod refused;
