//! How a run over requests ends.
//!
//! Each word for a bad request is a variant of `RequestWord`, in the order in which the checks are made; `message`
//! writes the words. Put a new word where its check is made.

/// What is wrong with a request: the first fault that the checks find.
#[derive(Clone, Copy, Debug, PartialEq, Eq)]
pub enum RequestWord {
    /// The line is longer than 4,096 bytes, not counting its newline.
    Long,
    /// The input ended cleanly, but its last line has no newline.
    Unended,
    /// The line's number exceeds the maximum number of requests in a run.
    Many,
    /// The line doesn't consist of the four fields of a request.
    Form,
    /// The start or the length isn't a number.
    Number,
    /// The length is 0, or above 1,048,576.
    Length,
    /// No device has the name in the request.
    Unknown,
}

/// How a run ends.
#[derive(Clone, Copy, Debug, PartialEq, Eq)]
pub enum Ending {
    /// The requests ended cleanly, and all were answered.
    Done,
    /// The request with this number was bad; those before it were answered.
    BadRequest(u64, RequestWord),
    /// Reading requests failed; those delivered before were answered.
    ReadFault,
    /// Writing or flushing the output failed.
    WriteFault,
}

/// Why a request was not mapped to an output.
#[derive(Clone, Copy, PartialEq, Eq)]
pub(crate) enum NotMapped {
    /// No device has the name in the request with this number.
    Unknown(u64),
    /// Writing the answer failed.
    Output,
}
