//! Which devices name which, by id.

ghost use Rattle.dm_stack.specs.Prelude.{IfOk, OnOk, flat_map, links, lower_link, links_in};
ghost use Rattle.dm_stack.specs.lines.Span.{line_links};
ghost use Rattle.std.specs.Prelude.{◌≡◌, ◌++◌};

use crate::id::Lower;
use crate::lines::resolved::Resolved;
use crate::lines::resolved_line::{ResolvedLine, ResolvedTarget};
use crate::lines::span::Spans;
use std::alloc::{AllocError, Global};

/// For each device, the indexes of the devices that its lines name.
///
/// Fails only when out of memory. Cost: linear in the lines and their columns, with memory for one number for
/// each mention of a device.
pub(crate) fn links(alloc: Global, stack: &Resolved) -> Result<Vec<Vec<usize>>, AllocError>
    ensures { IfOk result (λ named. links_in named.items ≡ links stack.now) }
{
    let mut links = Vec::new(alloc);
    for device in stack.by_ids() {
        links.push(lines_links(alloc, device.table.lines())?)?;
    }
    Ok(links)
}

/// The indexes of the devices that these lines name, in order.
fn lines_links(alloc: Global, lines: &[ResolvedLine]) -> Result<Vec<usize>, AllocError>
    ensures { IfOk result (λ links. links.items ≡ flat_map line_links lines.now) }
{
    let mut links = Vec::new(alloc);
    for line in lines {
        match line.target {
            // Zero and error lines name no device, and testing the target is cheaper than going over its spans.
            ResolvedTarget::Zero | ResolvedTarget::Error => {}
            _ => add_line(&mut links, line)?,
        }
    }
    Ok(links)
}

/// Adds the indexes of the devices that a line names.
fn add_line(links: &mut Vec<usize>, line: &ResolvedLine) -> Result<(), AllocError>
    ensures { OnOk result (links.new.items ≡ links.old.items ++ line_links line.now) }
{
    for span in Spans::of(line) {
        add_lower(links, span.to)?;
    }
    Ok(())
}

/// Adds the index of the device, if `to` is a device.
fn add_lower(links: &mut Vec<usize>, to: Lower) -> Result<(), AllocError>
    ensures { OnOk result (links.new.items ≡ links.old.items ++ lower_link to) }
{
    if let Lower::Device(id) = to {
        links.push(id.index())?;
    }
    Ok(())
}
