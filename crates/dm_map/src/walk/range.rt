//! The walk down a stack, which hands the operations on consecutive sectors to a sink.
//!
//! A whole range is walked at once, and each line that it passes is looked up once. The range is cut only where a
//! line ends and at chunks: chunks of stripes; of a snapshot, unless the next chunk is read from right after; and
//! of a written origin, if one of its snapshots has something left to do. The legs of a line (`dm_stack`'s `leg`)
//! determine where its sectors lie, so a new target without state needs no code here; a target with state needs
//! an arm of `map_leg` and a loop of its own. Contracts state which units are handed over, which state results,
//! and how often a read searches: at most once per level for each stretch of sectors with one path
//! (`specs/walk/Path`).

ghost use Rattle.dm_map.specs.Prelude.{true, length, Read, Write, Device, is_striped, IsLine, Description, found_mapping, origin_mapping, range_mapping, target_mapping, IsMapped, diskless_len, piece_len, units_in, units_of, Fails, IsOnDisks, or_home, zero_unit, refuses, AreAsked, AreAskedOfOrigin, AreAskedOfSnapshot, IsHanded, HasRoomFor, IsAtLine, IsLegOf};
ghost use Rattle.dm_stack.specs.declared.lines.resolved_line.ResolvedTarget.TheVariants.{Snapshot};
ghost use Rattle.dm_stack.specs.declared.checks.graph.TheConstants.{MOST_DEPTH};
ghost use Rattle.std.specs.Prelude.{◌≡◌, ◌+◌, ◌<◌, ◌≤◌};

use crate::pieces::piece::{Piece, disk_piece};
use crate::pieces::sink::Sink;
use crate::state::taken::Taken;
use crate::state::walker::Walker;
use crate::walk::chunk::{goes_on, part_of_chunk, source_of};
use crate::walk::home::{Home, handed, home_in};
use crate::walk::serving::{serve, settled_part};
use crate::walk::step::part_in;
use crate::walk::write_chunk::write_snapshot;
use dm_stack::{
    Beneath, DeviceId, Leg, Lower, MOST_DEPTH, ResolvedLine, ResolvedOrigin, ResolvedSnapshot,
    ResolvedTarget,
};
use dm_table::Op;

/// Hands over the operations on sectors of a device or a disk, through at most this many levels of devices.
///
/// Each piece covers sectors whose path down is in one line, and one chunk, of each device; chunks of a snapshot
/// that are read from consecutive sectors may share a piece. The walk ends if the sink fails. The function is
/// inlined, so that a part on a disk, as most parts of stripes are, costs no call.
#[cycle(walk)]
#[inline(always)]
pub(crate) fn map_range<S: Sink, T: Taken>(
    walker: &mut Walker<'_, T>,
    op: Op,
    levels: u32,
    lower: Lower,
    sector: u64,
    len: u64,
    sink: &mut S,
) -> Result<(), S::Fault>
    requires { AreAsked S.past sink.old walker.old.stack lower sector len }
    ensures { IsMapped S.past result sink.old sink.new walker.old walker.new
        (range_mapping op levels lower) sector len }
{
    match lower {
        Lower::Disk(disk) => sink.piece(disk_piece(op, disk, sector, len)),
        Lower::Device(device) => map_device(walker, op, levels, device, sector, len, sink),
    }
}

/// Hands over the operations on sectors of a request's device, through as many levels as any stack can have. If
/// the sectors are consecutive on one disk, below one line, as is usual, nothing is handed over and their place
/// is returned.
///
/// Of the walk, only the code up to a snapshot is inlined here. A function that grows very large isn't inlined
/// even if marked so, as would happen to `write_joined` of `dm_stream`, which calls this.
#[inline(always)]
pub(crate) fn map_top<S: Sink, T: Taken>(
    walker: &mut Walker<'_, T>,
    op: Op,
    device: DeviceId,
    sector: u64,
    len: u64,
    sink: &mut S,
) -> Result<Option<Home>, S::Fault>
    requires { AreAsked S.past sink.old walker.old.stack (Device device) sector len }
    ensures { IsMapped (or_home S.past walker.old.stack op len result) result sink.old sink.new
        walker.old walker.new (range_mapping op MOST_DEPTH (Device device)) sector len }
{
    if refuses(walker, op, device) {
        return handed(fail(len, sink));
    }
    let line = walker.look(device, sector);
    let distance = sector - line.start;
    if len <= line.len - distance {
        if let Some(home) = home_in(walker, device, line, sector, len) {
            return Ok(Some(home));
        }
        if let ResolvedTarget::Snapshot(snapshot) = &line.target {
            let levels = MOST_DEPTH - 1;
            return handed(map_snapshot(walker, op, levels, device, snapshot, distance, len, sink));
        }
    }
    handed(map_lines(walker, op, MOST_DEPTH, device, line, sector, len, sink))
}

/// Hands over the operations on sectors of a device. On a read-only device, all writes fail.
///
/// The sectors below a line are mapped by a tail call, so a range in one line uses one stack frame. The function
/// is never inlined, so that a loop that calls it has all registers.
#[cycle(walk)]
#[inline(never)]
fn map_device<S: Sink, T: Taken>(
    walker: &mut Walker<'_, T>,
    op: Op,
    levels: u32,
    device: DeviceId,
    sector: u64,
    len: u64,
    sink: &mut S,
) -> Result<(), S::Fault>
    requires { AreAsked S.past sink.old walker.old.stack (Device device) sector len }
    ensures { IsMapped S.past result sink.old sink.new walker.old walker.new
        (range_mapping op levels (Device device)) sector len }
{
    if levels == 0 || refuses(walker, op, device) {
        return fail(len, sink);
    }
    let line = walker.look(device, sector);
    if len <= line.len - (sector - line.start) {
        return map_line(walker, op, levels, device, line, sector, len, sink);
    }
    map_lines(walker, op, levels, device, line, sector, len, sink)
}

/// Hands over the operations on sectors of a device that allows them, line by line, starting with the line of the
/// first sector, which is `first`.
///
/// The last line, usually the only one, is mapped by a tail call, so a range in one line uses one stack frame.
/// The function is never inlined, so that the code before the call has all registers.
#[cycle(walk)]
#[inline(never)]
fn map_lines<S: Sink, T: Taken>(
    walker: &mut Walker<'_, T>,
    op: Op,
    levels: u32,
    device: DeviceId,
    first: &ResolvedLine,
    sector: u64,
    len: u64,
    sink: &mut S,
) -> Result<(), S::Fault>
    requires at { IsAtLine walker.old.stack op levels device first.now sector }
    requires asked { AreAsked S.past sink.old walker.old.stack (Device device) sector len }
    ensures { IsMapped S.past result sink.old sink.new walker.old walker.new
        (found_mapping op levels device) sector len }
{
    let mut line = first;
    let mut at = sector;
    let mut left = len;
    'lines: loop {
        let part = part_in(line, at - line.start, left);
        if part == left {
            return map_line(walker, op, levels, device, line, at, left, sink);
        }
        map_line(walker, op, levels, device, line, at, part, sink)?;
        at += part;
        left -= part;
        line = walker.look(device, at);
    }
}

/// Hands over the operations on sectors of one line of a device that allows them, leg by leg, through at most
/// this many levels of devices, including the device of the line.
#[cycle(walk)]
#[inline(always)]
fn map_line<S: Sink, T: Taken>(
    walker: &mut Walker<'_, T>,
    op: Op,
    levels: u32,
    device: DeviceId,
    line: &ResolvedLine,
    sector: u64,
    len: u64,
    sink: &mut S,
) -> Result<(), S::Fault>
    requires at { IsAtLine walker.old.stack op levels device line.now sector }
    requires some { 1 ≤ len }
    requires inside { sector + len ≤ line.now.start + line.now.len }
    requires sink { HasRoomFor S.past sink.old walker.old.stack len }
    ensures { IsMapped S.past result sink.old sink.new walker.old walker.new
        (found_mapping op levels device) sector len }
{
    walker.recall_soundness();
    let distance = sector - line.start;
    let leg = line.target.leg(distance, len);
    if leg.len == len {
        return map_leg(walker, op, levels - 1, device, &leg, distance, sink);
    }
    map_legs(walker, op, levels - 1, device, line, distance, len, sink)
}

/// Hands over the operations on sectors of a striped line from a distance into the line on, leg by leg, through
/// at most this many levels of devices below it.
///
/// The function is never inlined, so that its loop has all registers.
#[cycle(walk)]
#[inline(never)]
fn map_legs<S: Sink, T: Taken>(
    walker: &mut Walker<'_, T>,
    op: Op,
    levels: u32,
    device: DeviceId,
    line: &ResolvedLine,
    distance: u64,
    len: u64,
    sink: &mut S,
) -> Result<(), S::Fault>
    requires some { 1 ≤ len }
    requires inside { distance + len ≤ line.now.len }
    requires line { IsLine walker.old.stack device line.now }
    requires striped { is_striped line.now.target ≡ true }
    requires sink { HasRoomFor S.past sink.old walker.old.stack len }
    ensures { IsMapped S.past result sink.old sink.new walker.old walker.new
        (target_mapping op levels device line.now.start line.now.target) distance len }
{
    walker.recall_soundness();
    let mut legs = line.target.legs(distance, len);
    if line.target.has_disk_columns() {
        return sink.disk_legs(op, legs);
    }
    let mut at = distance;
    'legs: while let Some(leg) = legs.next_leg() {
        map_leg(walker, op, levels, device, &leg, at, sink)?;
        at += leg.len;
    }
    Ok(())
}

/// Hands over the operations on a leg at a distance into a line, through at most this many levels of devices
/// below it.
#[cycle(walk)]
#[inline(always)]
fn map_leg<S: Sink, T: Taken>(
    walker: &mut Walker<'_, T>,
    op: Op,
    levels: u32,
    device: DeviceId,
    leg: &Leg<'_>,
    distance: u64,
    sink: &mut S,
) -> Result<(), S::Fault>
    requires leg { (line : ResolvedLine) × IsLegOf walker.old.stack device line distance leg.now }
    requires sink { HasRoomFor S.past sink.old walker.old.stack leg.now.len }
    ensures { (line : ResolvedLine) → IsLegOf walker.old.stack device line distance leg.now
        → IsMapped S.past result sink.old sink.new walker.old walker.new
        (target_mapping op levels device line.start line.target) distance leg.now.len }
{
    let len = leg.len;
    match &leg.below {
        Beneath::Lies { to, sector } => map_range(walker, op, levels, *to, *sector, len, sink),
        Beneath::Zeros => hand_zeros(op, len, sink),
        Beneath::Errors => fail(len, sink),
        Beneath::Snapshot(snapshot) => {
            map_snapshot(walker, op, levels, device, snapshot, distance, len, sink)
        }
        Beneath::Origin(origin) => map_origin(walker, op, levels, origin, distance, len, sink),
    }
}

/// Hands over the operations on sectors of a snapshot, through at most this many levels of devices below it.
#[cycle(walk)]
#[inline(always)]
fn map_snapshot<S: Sink, T: Taken>(
    walker: &mut Walker<'_, T>,
    op: Op,
    levels: u32,
    device: DeviceId,
    snapshot: &ResolvedSnapshot,
    sector: u64,
    len: u64,
    sink: &mut S,
) -> Result<(), S::Fault>
    requires asked { AreAskedOfSnapshot S.past sink.old walker.old.stack device snapshot.now sector len }
    ensures { IsMapped S.past result sink.old sink.new walker.old walker.new
        (target_mapping op levels device 0 (Snapshot snapshot.now)) sector len }
{
    match op {
        Op::Read => read_snapshot(walker, levels, device, snapshot, sector, len, sink),
        Op::Write => write_snapshot(walker, device, snapshot, sector, len, sink),
    }
}

/// Hands over the reads of sectors of a snapshot, joining chunks that are read from consecutive sectors. All
/// sectors fail if the snapshot is lost.
///
/// This is never inlined, which makes the walk through lines and stripes faster.
#[cycle(walk)]
#[inline(never)]
fn read_snapshot<S: Sink, T: Taken>(
    walker: &mut Walker<'_, T>,
    levels: u32,
    device: DeviceId,
    snapshot: &ResolvedSnapshot,
    sector: u64,
    len: u64,
    sink: &mut S,
) -> Result<(), S::Fault>
    requires asked { AreAskedOfSnapshot S.past sink.old walker.old.stack device snapshot.now sector len }
    ensures { IsMapped S.past result sink.old sink.new walker.old walker.new
        (target_mapping Read levels device 0 (Snapshot snapshot.now)) sector len }
{
    if !walker.is_valid(device) {
        return fail(len, sink);
    }
    walker.recall_soundness();
    let chunk_size = snapshot.chunk;
    let mut from = sector;
    let mut left = len;
    let mut part = part_of_chunk(chunk_size, from, left);
    let mut source = source_of(walker, device, snapshot, from, part);
    'chunks: while part < left {
        let at = from + part;
        let count = part_of_chunk(chunk_size, at, left - part);
        let next = source_of(walker, device, snapshot, at, count);
        if goes_on(&source, part, &next) {
            part += count;
        } else {
            map_range(
                walker,
                Op::Read,
                levels,
                source.to,
                source.sector,
                part,
                sink,
            )?;
            from = at;
            left -= part;
            part = count;
            source = next;
        }
    }
    map_range(
        walker,
        Op::Read,
        levels,
        source.to,
        source.sector,
        left,
        sink,
    )
}

/// Hands over the operations on sectors of an origin's device, through at most this many levels of devices below
/// it. Before a write, the origin's snapshots take their chunks.
///
/// This is never inlined, which makes the walk through lines and stripes faster.
#[cycle(walk)]
#[inline(never)]
fn map_origin<S: Sink, T: Taken>(
    walker: &mut Walker<'_, T>,
    op: Op,
    levels: u32,
    origin: &ResolvedOrigin,
    sector: u64,
    len: u64,
    sink: &mut S,
) -> Result<(), S::Fault>
    requires { AreAskedOfOrigin S.past sink.old walker.old.stack origin.now sector len }
    ensures { IsMapped S.past result sink.old sink.new walker.old walker.new
        (origin_mapping op levels origin.now) sector len }
{
    match op {
        Op::Read => map_range(walker, op, levels, origin.to, sector, len, sink),
        Op::Write => write_origin(walker, levels, origin, sector, len, sink),
    }
}

/// Hands over the writes to sectors of an origin: the origin's snapshots take the chunk of the first sector, and
/// then the sectors before the first one with a chunk to take are written.
///
/// After a part that was cut short, the next part may be at most twice as long, so that the snapshots aren't
/// asked again and again about all later sectors.
#[cycle(walk)]
fn write_origin<S: Sink, T: Taken>(
    walker: &mut Walker<'_, T>,
    levels: u32,
    origin: &ResolvedOrigin,
    sector: u64,
    len: u64,
    sink: &mut S,
) -> Result<(), S::Fault>
    requires { AreAskedOfOrigin S.past sink.old walker.old.stack origin.now sector len }
    ensures { IsMapped S.past result sink.old sink.new walker.old walker.new
        (origin_mapping Write levels origin.now) sector len }
{
    walker.recall_soundness();
    let over = origin.over.as_slice();
    let mut from = sector;
    let mut left = len;
    let mut most = len;
    while left > 0 {
        serve(walker, over, from, sink)?;
        let part = settled_part(walker, over, from, left.min(most));
        map_range(walker, Op::Write, levels, origin.to, from, part, sink)?;
        from += part;
        left -= part;
        most = 2 * part;
    }
    Ok(())
}

/// Hands over errors for `len` sectors. Errors are rare, and an inlined call of the sink would take registers
/// from all other code, so the function is never inlined.
#[inline(never)]
pub(crate) fn fail<S: Sink>(len: u64, sink: &mut S) -> Result<(), S::Fault>
    requires some { 1 ≤ len }
    requires room { len ≤ (S.past.view sink.old).room }
    ensures { IsHanded S.past result sink.old sink.new (units_in Fails len) len }
{
    sink.piece(Piece::Error { len })
}

/// Hands over sectors of a zero target. The function is never inlined, so that its call of the sink takes no
/// registers from the caller.
#[inline(never)]
fn hand_zeros<S: Sink>(op: Op, len: u64, sink: &mut S) -> Result<(), S::Fault>
    requires some { 1 ≤ len }
    requires room { len ≤ (S.past.view sink.old).room }
    ensures { IsHanded S.past result sink.old sink.new (units_in (zero_unit op) len) len }
{
    sink.piece(zero_piece(op, len))
}

/// Whether a device fails all requests of this kind, because they are writes and the device is read-only.
fn refuses<T: Taken>(walker: &Walker<'_, T>, op: Op, device: DeviceId) -> bool
    requires { device < length walker.now.stack.devices }
    ensures { result ≡ refuses walker.now.stack op device }
{
    walker.is_ro(device) && matches!(op, Op::Write)
}

/// The piece for a read or a write of `len` sectors of a zero target.
fn zero_piece(op: Op, len: u64) -> Piece
    ensures units { units_of result ≡ units_in (zero_unit op) len }
    ensures len { piece_len result ≡ len }
    ensures diskless { diskless_len result ≡ len }
    ensures lies { (stack : Description) → IsOnDisks stack result }
{
    match op {
        Op::Read => Piece::Zero { len },
        Op::Write => Piece::Drop { len },
    }
}
