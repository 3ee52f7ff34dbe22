//! What a command prints.
ghost use Rattle.std.specs.Prelude.{OnOk, option_map};
ghost use Rattle.std.specs.Io.KnownBytes.{Appends};
ghost use Rattle.rart_keys.specs.ArrayKeyBytes.{array_key_bytes};
ghost use Rattle.rart_routes.specs.Answers.{PrintsDump, PrintsRoutes, dumped_line, found_line, none_line};
ghost use Rattle.rart_routes.specs.Answers.{refusal_line, route_word, target_line};
ghost use Rattle.rart_routes.specs.Found.{found_left};

use crate::found::Found;
use crate::net::Net;
use crate::target::Target;
use rart::TreeError;
use std::io;
use std::io::Write;

/// Writes that there is no route.
///
/// # Errors
///
/// The error of `output`, which then may hold a part of the line.
pub fn write_none<W: Write>(output: &mut W) -> io::Result<()>
    ensures { OnOk result (Appends (W.contents output.old) (W.contents output.new) none_line) }
{
    writeln!(output, "none")
}

/// Writes the target that a network has or had.
///
/// # Errors
///
/// The error of `output`, which then may hold a part of the line.
pub fn write_target<W: Write>(output: &mut W, target: &Target) -> io::Result<()>
    ensures { OnOk result (Appends (W.contents output.old) (W.contents output.new)
        (target_line (array_key_bytes target.now))) }
{
    write!(output, "some ")?;
    output.write_all(target.as_slice())?;
    writeln!(output)
}

/// Writes why a table refused a command.
///
/// # Errors
///
/// The error of `output`, which then may hold a part of the line.
pub fn write_refusal<W: Write>(output: &mut W, error: TreeError) -> io::Result<()>
    ensures { OnOk result
        (Appends (W.contents output.old) (W.contents output.new) (refusal_line error)) }
{
    match error {
        TreeError::Memory => writeln!(output, "Memory"),
        TreeError::Full => writeln!(output, "Full"),
    }
}

/// Writes the route that was found, or `none`.
///
/// # Errors
///
/// The error of `output`, which then may hold a part of the line.
pub fn write_found<W: Write>(output: &mut W, found: Option<(Net, &Target)>) -> io::Result<()>
    ensures { OnOk result (Appends (W.contents output.old) (W.contents output.new)
        (found_line (option_map (λ p. (p.0, p.1.now)) found.entry))) }
{
    let Some((net, target)) = found else {
        return writeln!(output, "none");
    };
    write!(output, "some ")?;
    write_route(output, &net, target)?;
    writeln!(output)
}

/// Writes the routes, one space between each two; `empty` if there is none.
///
/// # Errors
///
/// The error of `output`, which then may hold a part of the line.
pub fn write_routes<W: Write>(output: &mut W, routes: Found<'_>) -> io::Result<()>
    ensures { OnOk result
        (PrintsRoutes (found_left routes.entry) (W.contents output.old) (W.contents output.new)) }
{
    let mut routes = routes;
    write_remaining(output, &mut routes)
}

// Writes the routes to come, as `write_routes` does. It borrows them: each exit of a loop that owns them drops them,
// which the checker takes minutes for.
fn write_remaining<W: Write>(output: &mut W, routes: &mut Found<'_>) -> io::Result<()>
    ensures { OnOk result
        (PrintsRoutes (found_left routes.old) (W.contents output.old) (W.contents output.new)) }
{
    let Some((net, target)) = routes.next() else {
        return writeln!(output, "empty");
    };
    write_route(output, &net, target)?;
    for (net, target) in routes {
        write!(output, " ")?;
        write_route(output, &net, target)?;
    }
    writeln!(output)
}

/// Writes one route.
fn write_route<W: Write>(output: &mut W, net: &Net, target: &Target) -> io::Result<()>
    ensures { OnOk result
        (Appends (W.contents output.old) (W.contents output.new)
        (route_word (net.now, target.now))) }
{
    write!(output, "{net}=")?;
    output.write_all(target.as_slice())
}

/// Writes the routes as lines that load them: a network, a space and a target.
///
/// # Errors
///
/// The error of `output`, which then may hold a part of the lines.
pub fn write_dump<W: Write>(output: &mut W, routes: Found<'_>) -> io::Result<()>
    ensures { OnOk result
        (PrintsDump (found_left routes.entry) (W.contents output.old) (W.contents output.new)) }
{
    let mut routes = routes;
    dump_remaining(output, &mut routes)
}

// Writes the routes to come, as `write_dump` does. It borrows them, as `write_remaining` does.
fn dump_remaining<W: Write>(output: &mut W, routes: &mut Found<'_>) -> io::Result<()>
    ensures { OnOk result
        (PrintsDump (found_left routes.old) (W.contents output.old) (W.contents output.new)) }
{
    for (net, target) in routes {
        dump_route(output, &net, target)?;
    }
    Ok(())
}

/// Writes the line that loads one route.
fn dump_route<W: Write>(output: &mut W, net: &Net, target: &Target) -> io::Result<()>
    ensures { OnOk result
        (Appends (W.contents output.old) (W.contents output.new)
        (dumped_line (net.now, target.now))) }
{
    write!(output, "{net} ")?;
    output.write_all(target.as_slice())?;
    writeln!(output)
}
