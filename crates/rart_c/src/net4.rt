//! Tables of IPv4 networks.

use rart_cidr::CidrTable4;

mod edits;
mod handle;
mod look_ups;
mod networks;

type Table = CidrTable4<u64>;

/// What a handle owns.
#[derive(Drop)]
pub(crate) struct Net4 {
    pub(crate) table: Table,
}
