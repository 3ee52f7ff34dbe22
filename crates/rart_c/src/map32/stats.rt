//! Statistics of a map.
ghost use Rattle.std.specs.Prelude.{◌≡◌};
ghost use Rattle.rart_c.specs.Answers.{status_of};
ghost use Rattle.rart_c.specs.Stats.{CountsNodes};

use crate::map32::handle::{Rart32, give, take};
use crate::stats::RartStats;
use crate::status::{DONE, NO_MEMORY};
use rart::TreeStatsTrait;
use std::alloc::Global;

/// Writes the statistics of a map; of an empty one, zeros.
#[unsafe(no_mangle)]
pub extern "C" fn rart32_stats(map: &mut Rart32, alloc: Global, stats: &mut RartStats) -> u8
    ensures counted { CountsNodes map.old.held.tree stats.old stats.new (status_of result) }
    ensures same { map.new.held ≡ map.old.held }
{
    let Some(held) = take(map, alloc) else {
        *stats = RartStats {
            leaves: 0,
            values: 0,
            inner_nodes: 0,
            children: 0,
            width: 0,
            height: 0,
        };
        return DONE;
    };
    let status = match held.tree.get_tree_stats() {
        Ok(counted) => {
            *stats = RartStats {
                leaves: counted.num_leaves,
                values: counted.num_values,
                inner_nodes: counted.num_inner_nodes,
                children: counted.total_children,
                width: counted.total_width,
                height: counted.max_height,
            };
            DONE
        }
        Err(_) => NO_MEMORY,
    };
    give(map, alloc, held);
    status
}
