//! Requests: their lines are found in what an input delivers, and handed to a handler.

pub mod batch;
pub mod exchange;
pub mod front;
pub mod handler;
pub mod handling;
pub mod line_buffer;
pub mod lines;
