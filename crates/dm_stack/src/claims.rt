//! Claims: the lower sectors that lines rely on, and when two claims clash.

pub mod claim;
pub mod clash;
pub mod reach;
pub mod tidy;
