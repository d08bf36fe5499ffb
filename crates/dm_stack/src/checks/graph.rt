//! Finds cycles and depths in the graph of which devices name which, by index.
//!
//! Depths are found first, in rounds that are linear in the links. Only a device that is too deep can be on a
//! cycle, so few devices or none are searched for a path to themselves.

ghost use Rattle.dm_stack.specs.Prelude.{ℕ, length, map, IfOk, IfSome, IfNone, OnOk, IsTrue, false, All, Contains, IsClosed, Names, Reaches, Visits, depth_over, depths_to, links_in};
ghost use Rattle.dm_stack.specs.declared.checks.graph.TheConstants.{FOLLOWED_LEVELS};
ghost use Rattle.std.specs.Prelude.{◌≡◌, ◌≤◌, ◌<◌};

use std::alloc::{AllocError, Global};

/// The greatest depth that a device of a stack may have.
pub const MOST_DEPTH: u32 = 32;

/// The number of levels after which a depth is cut off: one more than a stack may have, so that a greater depth
/// still shows.
const FOLLOWED_LEVELS: u32 = MOST_DEPTH + 1;

/// Finds the depth of each device, cut off at `FOLLOWED_LEVELS`.
///
/// A device that names no device has depth 1; any other is one deeper than the deepest device that it names. A
/// result of `FOLLOWED_LEVELS` means that or any greater depth, or that the device is on a cycle.
///
/// Fails only when out of memory. Cost: linear in the links for each level of devices, of which at most
/// `FOLLOWED_LEVELS` are followed, with memory for two numbers per device.
pub(crate) fn depths(alloc: Global, links: &[Vec<usize>]) -> Result<Vec<u32>, AllocError>
    requires { IsClosed (links_in links.now) }
    ensures { IfOk result (λ depths. depths.items ≡ depths_to (links_in links.now) FOLLOWED_LEVELS) }
{
    let mut depths: Vec<u32> = vec![in alloc; 0; links.len()]?;
    for _level in 0..FOLLOWED_LEVELS {
        let next = next_depths(alloc, links, &depths)?;
        if next == depths {
            return Ok(depths);
        }
        depths = next;
    }
    Ok(depths)
}

/// The depths of all devices, followed for one more level than `depths`.
fn next_depths(alloc: Global, links: &[Vec<usize>], depths: &[u32]) -> Result<Vec<u32>, AllocError>
    requires closed { (d e : ℕ) → Names (links_in links.now) d e → e < length depths.now }
    requires bounded { All (λ depth. depth ≤ FOLLOWED_LEVELS) depths.now }
    ensures { IfOk result (λ next. next.items ≡ map (depth_over depths.now) (links_in links.now)) }
{
    let mut next = Vec::new(alloc);
    for named in links {
        next.push(depth_over(named, depths))?;
    }
    Ok(next)
}

/// One more than the greatest depth of the named devices, or 1 if there are none.
fn depth_over(named: &[usize], depths: &[u32]) -> u32
    requires closed { All (λ e. e < length depths.now) named.now }
    requires bounded { All (λ depth. depth ≤ FOLLOWED_LEVELS) depths.now }
    ensures { result ≡ depth_over depths.now named.now }
{
    let mut greatest = 0;
    for device in named {
        greatest = greatest.max(depths[*device]);
    }
    greatest + 1
}

/// Whether a device names itself, directly or through other devices.
///
/// Fails only when out of memory. Cost: linear in the links, with memory for a mark for each device, and for the
/// devices that are still to be visited.
pub(crate) fn reaches_itself(
    alloc: Global,
    links: &[Vec<usize>],
    device: usize,
) -> Result<bool, AllocError>
    requires closed { IsClosed (links_in links.now) }
    requires within { device < length links.now }
    ensures yes { IfOk result (λ found. IsTrue found → Reaches (links_in links.now) device device) }
    ensures no { IfOk result (λ found. found ≡ false → Reaches (links_in links.now) device device → ⊥) }
{
    let mut visited: Vec<bool> = vec![in alloc; false; links.len()]?;
    let mut waiting = Vec::new(alloc);
    visit(&links[device], &mut visited, &mut waiting)?;
    while let Some(next) = waiting.pop() {
        visit(&links[next], &mut visited, &mut waiting)?;
    }
    Ok(visited[device])
}

/// Marks the named devices as visited, and adds those that were not marked before to `waiting`.
fn visit(named: &[usize], visited: &mut [bool], waiting: &mut Vec<usize>) -> Result<(), AllocError>
    requires { (e : ℕ) → Contains named.now e → e < length visited.old }
    ensures { OnOk result (Visits named.now visited.old visited.new waiting.old.items waiting.new.items) }
{
    for device in named {
        if !visited[*device] {
            visited[*device] = true;
            waiting.push(*device)?;
        }
    }
    Ok(())
}

/// The first device that names itself, directly or through others; `depths` is the result of the function
/// `depths`.
///
/// Fails only when out of memory. Cost: linear in the devices if none is too deep; else one search of all links
/// for each device that is too deep, up to the first on a cycle.
pub(crate) fn first_cycle(
    alloc: Global,
    links: &[Vec<usize>],
    depths: &[u32],
) -> Result<Option<usize>, AllocError>
    requires closed { IsClosed (links_in links.now) }
    requires depths { depths.now ≡ depths_to (links_in links.now) FOLLOWED_LEVELS }
    ensures found { IfOk result (λ found. IfSome found
        (λ d. d < length links.now × Reaches (links_in links.now) d d)) }
    ensures first { IfOk result (λ found. IfSome found
        (λ d. (e : ℕ) → e < d → Reaches (links_in links.now) e e → ⊥)) }
    ensures none { IfOk result (λ found. IfNone found
        ((d : ℕ) → d < length links.now → Reaches (links_in links.now) d d → ⊥)) }
{
    for (device, depth) in depths.iter().enumerate() {
        if *depth > MOST_DEPTH && reaches_itself(alloc, links, device)? {
            return Ok(Some(device));
        }
    }
    Ok(None)
}
