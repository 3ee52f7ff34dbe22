//! Tables of IPv6 networks.

use rart_cidr::CidrTable6;

mod edits;
mod handle;
mod look_ups;
mod networks;

type Table = CidrTable6<u64>;

/// What a handle owns.
#[derive(Drop)]
pub(crate) struct Net6 {
    pub(crate) table: Table,
}
