//! Look-ups in a table of networks, and its number of routes.
ghost use Rattle.std.specs.Prelude.{◌≡◌, length, take};
ghost use Rattle.rart_keys.specs.SortedMap.{lookup};
ghost use Rattle.rart_cidr.specs.Bits.{bits_of};
ghost use Rattle.rart_c.specs.Answers.{status_of};
ghost use Rattle.rart_c.specs.Nets.{FindsNet, FindsLongestNet};

use crate::addresses::ipv6_of;
use crate::net6::handle::{RartNet6, give, take as take_table};
use crate::net6::networks::network_of;
use crate::status::{ABSENT, BAD_LENGTH, DONE, HOST_BITS};
use rart_cidr::CidrError;
use std::alloc::Global;

/// Writes the target of exactly one network.
#[unsafe(no_mangle)]
pub extern "C" fn rart_net6_get(
    table: &mut RartNet6,
    alloc: Global,
    addr: &[u8; 16],
    len: u8,
    target: &mut u64,
) -> u8
    ensures found { FindsNet (bits_of addr.now) len table.old.held.table target.old target.new
        (status_of result) }
    ensures same { table.new.held ≡ table.old.held }
{
    let net = match network_of(addr, len) {
        Ok(net) => net,
        Err(CidrError::Length) => return BAD_LENGTH,
        Err(CidrError::HostBits) => return HOST_BITS,
    };
    let Some(held) = take_table(table, alloc) else {
        return ABSENT;
    };
    let status = match held.table.get(&net) {
        Some(at_net) => {
            *target = *at_net;
            DONE
        }
        None => ABSENT,
    };
    give(table, alloc, held);
    status
}

/// Writes the length and the target of the longest network that contains an address, and returns whether there is one.
#[unsafe(no_mangle)]
pub extern "C" fn rart_net6_longest_match(
    table: &mut RartNet6,
    alloc: Global,
    addr: &[u8; 16],
    len: &mut u8,
    target: &mut u64,
) -> bool
    ensures found { FindsLongestNet (bits_of addr.now) table.old.held.table
        (len.old, target.old) (len.new, target.new) result }
    ensures same { table.new.held ≡ table.old.held }
{
    let Some(held) = take_table(table, alloc) else {
        return false;
    };
    let found = match held.table.longest_match(ipv6_of(addr)) {
        Some((net, at_net)) => {
            *len = net.len();
            *target = *at_net;
            true
        }
        None => false,
    };
    give(table, alloc, held);
    found
}

/// Returns the number of routes.
#[unsafe(no_mangle)]
pub extern "C" fn rart_net6_len(table: &mut RartNet6, alloc: Global) -> usize
    ensures value { result ≡ length table.old.held.table }
    ensures same { table.new.held ≡ table.old.held }
{
    let Some(held) = take_table(table, alloc) else {
        return 0;
    };
    let len = held.table.len();
    give(table, alloc, held);
    len
}
