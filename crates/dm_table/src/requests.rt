//! Requests: their type, and how a request line is read.

pub mod request;
pub mod request_line;
