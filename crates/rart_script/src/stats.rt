//! The line of the statistics of a tree.
ghost use Rattle.std.specs.Prelude.{OnOk};
ghost use Rattle.std.specs.Io.KnownBytes.{Appends};
ghost use Rattle.rart_trie.specs.stats.Stats.{stats_in};
ghost use Rattle.rart_script.specs.Stats.{stats_line, sums_text};

use rart::TreeStats;
use std::io;
use std::io::Write;

/// Writes the sums, and then the nodes of each capacity with their children, ascending by capacity.
///
/// # Errors
///
/// The error of `output`, if a write fails.
pub fn write_stats<W: Write>(output: &mut W, stats: &TreeStats) -> io::Result<()>
    ensures { OnOk result
        (Appends (W.contents output.old) (W.contents output.new)
        (stats_line (stats_in stats.now))) }
{
    write_sums(output, stats)?;
    for (width, of_width) in &stats.node_stats {
        write!(
            output,
            " w{width}:{}/{}",
            of_width.total_nodes, of_width.total_children
        )?;
    }
    writeln!(output)
}

/// Writes the sums alone.
fn write_sums<W: Write>(output: &mut W, stats: &TreeStats) -> io::Result<()>
    ensures { OnOk result
        (Appends (W.contents output.old) (W.contents output.new) (sums_text (stats_in stats.now))) }
{
    write!(
        output,
        "leaves {} values {} inner {} children {} width {} height {}",
        stats.num_leaves,
        stats.num_values,
        stats.num_inner_nodes,
        stats.total_children,
        stats.total_width,
        stats.max_height
    )
}
