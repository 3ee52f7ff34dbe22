//! Insertions and removals of routes.
ghost use Rattle.std.specs.Prelude.{◌≡◌};
ghost use Rattle.rart_cidr.specs.Bits.{bits_of};
ghost use Rattle.rart_c.specs.Answers.{status_of};
ghost use Rattle.rart_c.specs.HandlesNet4.{empty_table};
ghost use Rattle.rart_c.specs.Nets.{InsertsNet, RemovesNet};

use crate::net4::handle::{RartNet4, give, take, take_or_make};
use crate::net4::networks::network_of;
use crate::status::{ABSENT, BAD_LENGTH, DONE, FULL, HOST_BITS, NO_MEMORY, REPLACED};
use rart::TreeError;
use rart_cidr::CidrError;
use std::alloc::Global;

/// Inserts a route from the network of the first `len` bits of an address to `target`, and writes the target that it
/// replaces to `old`.
#[unsafe(no_mangle)]
pub extern "C" fn rart_net4_insert(
    table: &mut RartNet4,
    alloc: Global,
    addr: &[u8; 4],
    len: u8,
    target: u64,
    old: &mut u64,
) -> u8
    ensures { InsertsNet (bits_of addr.now) len target table.old.held.table table.new.held.table
        old.old old.new (status_of result) }
{
    let net = match network_of(addr, len) {
        Ok(net) => net,
        Err(CidrError::Length) => return BAD_LENGTH,
        Err(CidrError::HostBits) => return HOST_BITS,
    };
    let Ok(mut held) = take_or_make(table, alloc) else {
        return NO_MEMORY;
    };
    let answer = held.table.insert(&net, target);
    give(table, alloc, held);
    match answer {
        Ok(None) => DONE,
        Ok(Some(replaced)) => {
            *old = replaced;
            REPLACED
        }
        Err(refused) => match refused.error {
            TreeError::Memory => NO_MEMORY,
            TreeError::Full => FULL,
        },
    }
}

/// Removes the route from a network and writes its target to `old`.
#[unsafe(no_mangle)]
pub extern "C" fn rart_net4_remove(
    table: &mut RartNet4,
    alloc: Global,
    addr: &[u8; 4],
    len: u8,
    old: &mut u64,
) -> u8
    ensures { RemovesNet (bits_of addr.now) len table.old.held.table table.new.held.table
        old.old old.new (status_of result) }
{
    let net = match network_of(addr, len) {
        Ok(net) => net,
        Err(CidrError::Length) => return BAD_LENGTH,
        Err(CidrError::HostBits) => return HOST_BITS,
    };
    let Some(mut held) = take(table, alloc) else {
        return ABSENT;
    };
    let answer = held.table.remove(&net);
    give(table, alloc, held);
    match answer {
        Ok(None) => ABSENT,
        Ok(Some(removed)) => {
            *old = removed;
            DONE
        }
        Err(_) => NO_MEMORY,
    }
}

/// Frees the table. The handle is then null, an empty table that owns no memory; to free it again does nothing.
#[unsafe(no_mangle)]
pub extern "C" fn rart_net4_free(table: &mut RartNet4, alloc: Global)
    ensures { table.new.held ≡ empty_table }
{
    match take(table, alloc) {
        Some(held) => drop(held),
        None => {}
    }
}
