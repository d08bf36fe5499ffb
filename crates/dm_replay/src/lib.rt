//! Plays requests on the values of disks.
//!
//! A `Replay` plays requests one after the other on disks whose sectors hold their old values at first. It returns what
//! each sector of a request reads or stores. Memory grows with the stored ranges, not with the disks.
#![tactic(auto)]

mod asked_request;
mod disk_ranges;
mod disk_values;
mod ghost_asked;
mod ghost_start;
mod halting;
mod kept_write;
mod playback;
mod player;
mod playing;
mod range_values;
mod replay;
mod replay_fault;
mod rerun;
mod run_text;
mod value;
mod value_run;
mod value_runs;

pub use replay::Replay;
pub use replay_fault::ReplayFault;
pub use run_text::write_runs;
pub use value_run::ValueRun;
