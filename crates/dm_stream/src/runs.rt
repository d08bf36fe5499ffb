//! Runs: the requests played before a run, how a run maps requests and ends, and its message.

pub mod closing;
pub mod earlier;
pub mod ending;
pub mod map_run;
pub mod message;
pub mod request_mapper;
pub mod status_lines;
