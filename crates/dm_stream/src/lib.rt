//! Requests in, lines out: from the bytes of requests to the bytes of answers.
//!
//! Finds lines in an input, however its reads cut them. A mapper turns each request into pieces, which are joined and
//! written as lines. dm_map defines the units of a request; this crate writes them as text.
#![tactic(auto)]

mod pieces;
mod requests;
mod runs;

pub use pieces::disk_texts::DiskTexts;
pub use pieces::join::Join;
pub use requests::exchange::Exchange;
pub use requests::front::Front;
pub use requests::handler::{Handler, HandlesFrom, ReadsFrom};
pub use requests::handling::handle_requests;
pub use requests::lines::{Lines, Next};
pub use runs::closing::close_and_tell;
pub use runs::earlier::{EarlierFault, play_earlier};
pub use runs::ending::{Ending, RequestWord};
pub use runs::map_run::run;
pub use runs::message::{earlier_message, message_of, refused_request, tell};
