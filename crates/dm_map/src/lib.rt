//! Maps requests to devices of a checked stack, as reads and writes of disks.
//!
//! `specs/walk/Mapping.antt` defines what a request does with each sector; the code hands these operations to a
//! `Sink` in pieces.
//!
//! Callers use `mapper`, which walks down a stack (`walk`), in the state that earlier requests left (`state`),
//! and hands pieces to a sink (`pieces`). `own` states laws about what disks hold after requests.
#![tactic(auto)]

#[cfg(test)]
mod fixtures;
mod mapper;
mod own;
mod pieces;
mod stack_room;
mod state;
mod walk;

pub use mapper::{MapFault, Mapper};
pub use own::cuts::cuts_are_alone;
pub use own::errors::{errors_have_causes, nothing_is_lost};
pub use own::lists::lists_are_left;
pub use own::play::play_goes_on;
pub use own::requests::requests_are_alone;
pub use own::tops::tops_are_alone;
pub use pieces::discard::Discard;
pub use pieces::piece::Piece;
pub use pieces::piece_list::PieceList;
pub use pieces::sink::Sink;
pub use stack_room::has_stack_room;
pub use state::plain_taken::PlainTaken;
pub use state::run_taken::RunTaken;
pub use state::taken::Taken;
pub use state::trie_taken::TrieTaken;
pub use state::usage::Usage;
pub use state::walker::lower_len;
pub use walk::home::Home;
pub use walk::homes::HomeStretch;
pub use walk::levels::levels_are_enough;
pub use walk::stretch::{Ground, Stretch};
