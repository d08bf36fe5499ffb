//! The type of a request, as a request line describes it, and the faults of request lines.
//!
//! A request borrows its device name from its line, so that reading a request allocates nothing. A new field
//! of a request also has to be read from the line, in `request_line`.

ghost use Rattle.dm_table.specs.declared.requests.request.TheConstants.{MOST_SECTORS};
ghost use Rattle.std.specs.Prelude.{◌≤◌};

use thiserror::Error;

/// The largest length of a request, in sectors.
pub const MOST_SECTORS: u64 = 1_048_576;

/// Whether a request reads or writes.
#[derive(Clone, Copy, Debug, PartialEq, Eq)]
pub enum Op {
    Read,
    Write,
}

/// A request to read or write `len` sectors of a device from sector `start` on, described on line `number`, from 1.
#[derive(Clone, Copy, Debug)]
pub struct Request<'a> {
    pub number: u64,
    pub op: Op,
    pub device: &'a str,
    pub start: u64,
    pub len: u64,
    ghost at_least: { 1 ≤ len },
    ghost at_most: { len ≤ MOST_SECTORS },
}

/// Why a line isn't a valid request.
#[derive(Clone, Copy, Debug, PartialEq, Eq, Error)]
pub enum RequestFault {
    /// The line doesn't consist of `R` or `W`, a valid device name and two more fields, separated by single spaces.
    #[error("form")]
    Form,
    /// The start or the length isn't a valid number.
    #[error("number")]
    Number,
    /// The length is 0 or more than `MOST_SECTORS` sectors.
    #[error("length")]
    Length,
}
