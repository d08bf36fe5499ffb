//! The exit statuses. Each number is written only here.

/// The command did all that was asked, or printed help or the version.
pub const STATUS_DONE: u8 = 0;

/// A source, disk list, list of paths, exception store, earlier request or name was refused, or `replay` refused a
/// stack with two claims that clash; nothing was written.
pub const STATUS_REFUSED: u8 = 1;

/// The command line was wrong.
pub const STATUS_WORDS: u8 = 2;

/// A request was bad; the requests before it were answered.
pub const STATUS_BAD_REQUEST: u8 = 3;

/// Reading requests failed; the requests before the fault were answered.
pub const STATUS_READ_FAULT: u8 = 4;

/// Writing or flushing the output failed.
pub const STATUS_WRITE_FAULT: u8 = 5;

/// Memory ran out.
pub const STATUS_MEMORY: u8 = 6;

/// A sector of a device can't be read; the sectors before it were written.
pub const STATUS_STOPPED: u8 = 7;
