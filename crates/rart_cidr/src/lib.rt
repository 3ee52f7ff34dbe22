//! A route table for IPv4 and IPv6 networks of any prefix length, over the map's public contracts.
//!
//! Contracts see a network as the list of its bits, and a table as its routes, ascending by these bits.
#![tactic(auto)]

mod bits;
pub mod cidr;
pub mod cidr_table;
mod code_map;
mod code_set;
mod coded_network;
pub mod ip_net;
pub mod network_table;
mod stride;
pub mod table;

pub use crate::cidr::{Cidr, Cidr4, Cidr6, CidrError, Network, ParseCidrError};
pub use crate::cidr_table::CidrTable;
pub use crate::ip_net::IpNet;
pub use crate::network_table::{
    CidrTable4, CidrTable6, Matches, Matches4, Matches6, NetworkTable, Routes, Routes4, Routes6,
    SeenNetworkTable, SeenTable4, SeenTable6,
};
pub use crate::table::BitTable;
pub use crate::table::seen::SeenTable;
