//! Lookers, which find the lines of sectors.
//!
//! Only lookers find lines, so a bound on a looker's count bounds the work of mapping. No method returns the
//! stack, and a looker can't be copied, so its count includes all searches. The line of an origin holds the
//! origin's snapshots (`ResolvedOrigin::over`), so finding the snapshots takes no search.

ghost use Rattle.dm_stack.specs.Prelude.{length, IsLineOf, device_len, disk_len, is_ro_at, lines_at, next_count, snapshots, AreSnapshots, stack_depth, IsLength, IsSound, binary_digits};
ghost use Rattle.std.specs.Prelude.{◌≡◌, ◌+◌, ◌-◌, ◌*◌, ◌<◌, ◌≤◌};

use crate::id::{DeviceId, DiskId};
use crate::lines::line_search::LastLine;
use crate::lines::resolved_line::Found;
use crate::stack::Stack;
use std::marker::Model;

/// Finds the lines of sectors in a stack, and counts its searches and their comparisons.
#[derive(Drop)]
pub struct Looker<'s> {
    stack: &'s Stack,
    searches: u64,
    comparisons: u64,
    /// The line found last in a device of more than three lines.
    last: LastLine,
}

impl<'s> Model for Looker<'s> {
    ghost use Rattle.dm_stack.specs.lines.LineSearch.{IsLast};
    ghost use Rattle.dm_stack.specs.Looker.{Looking};

    ghost Value = { Looking };

    ghost view = { λ looker. record {
      stack = looker.stack.now;
      searches = looker.searches;
      comparisons = looker.comparisons;
    } };

    ghost invariant = { λ looker. IsLast looker.stack.now looker.last };
}

impl Stack {
    /// A new looker for this stack, whose counts are 0.
    pub fn looker(&self) -> Looker<'_>
        ensures stack { result.stack ≡ self.now }
        ensures searches { result.searches ≡ 0 }
        ensures comparisons { result.comparisons ≡ 0 }
    {
        Looker {
            stack: self,
            searches: 0,
            comparisons: 0,
            last: LastLine::none(),
        }
    }
}

impl<'s> Looker<'s> {
    /// Returns the line that holds a sector of a device, with ids in place of names. Counts the search, and each
    /// comparison of a line's start with the sector: at most as many as the number of lines has binary digits, so
    /// at most 17. In a device of more than three lines, there is no comparison if the sector comes right after
    /// the line found last, whose end the looker remembers. When the searches have reached `u64::MAX`, neither
    /// count grows any more.
    ///
    /// The id must be one of the stack, and the sector below the device's length. No memory is allocated.
    pub fn look(&mut self, device: DeviceId, sector: u64) -> Found<'s>
        requires device { device < length self.old.stack.devices }
        requires sector { sector < device_len self.old.stack device }
        ensures line { IsLineOf self.old.stack device result.now sector }
        ensures stack { self.new.stack ≡ self.old.stack }
        ensures counted { self.new.searches ≡ next_count self.old.searches }
        ensures grown { self.old.comparisons ≤ self.new.comparisons }
        ensures few { self.new.comparisons
            ≤ self.old.comparisons + binary_digits (length (lines_at self.old.stack device)) }
        ensures most { self.new.comparisons
            ≤ self.old.comparisons + 17 * (self.new.searches - self.old.searches) }
    {
        let stack = self.stack;
        let (line, comparisons) = stack.find_line(device, sector, &mut self.last);
        // Either both counts grow or neither does, so that no comparison is counted without its search.
        if self.searches < u64::MAX {
            self.searches += 1;
            self.comparisons = self.comparisons.saturating_add(comparisons);
        }
        line
    }

    /// The number of searches so far; the count stops growing at `u64::MAX`.
    pub fn searches(&self) -> u64
        ensures { result ≡ self.now.searches }
    {
        self.searches
    }

    /// How often searches compared a line's start with a sector so far. The count stops growing at `u64::MAX`, or
    /// when the count of searches has reached `u64::MAX`.
    pub fn comparisons(&self) -> u64
        ensures { result ≡ self.now.comparisons }
    {
        self.comparisons
    }

    /// The number of devices of the stack.
    pub fn device_count(&self) -> usize
        ensures { result ≡ length self.now.stack.devices }
    {
        self.stack.device_count()
    }

    /// The length of a device of the stack in sectors, from 1 to 2^50.
    pub fn len(&self, device: DeviceId) -> u64
        requires { device < length self.now.stack.devices }
        ensures len { result ≡ device_len self.now.stack device }
        ensures size { IsLength result }
    {
        self.stack.len(device)
    }

    /// The length of a disk of the stack in sectors, from 1 to 2^50.
    pub fn disk_len(&self, disk: DiskId) -> u64
        requires { disk < length self.now.stack.disks }
        ensures len { result ≡ disk_len self.now.stack disk }
        ensures size { IsLength result }
    {
        self.stack.disk_len(disk)
    }

    /// Whether a device of the stack is read-only.
    pub fn is_ro(&self, device: DeviceId) -> bool
        requires { device < length self.now.stack.devices }
        ensures { result ≡ is_ro_at self.now.stack device }
    {
        self.stack.is_ro(device)
    }

    /// The ids of the devices that are snapshots, in rising order.
    pub fn snapshots(&self) -> &[DeviceId]
        ensures ids { result.now ≡ snapshots self.now.stack }
        ensures all { AreSnapshots self.now.stack result.now }
    {
        self.stack.snapshots()
    }

    /// The greatest depth of a device of the stack, or 0 if it has no devices.
    pub fn depth(&self) -> u32
        ensures depth { result ≡ stack_depth self.now.stack }
        // Every value of type `Stack` is sound.
        ensures sound { IsSound self.now.stack }
    {
        self.stack.depth()
    }
}
