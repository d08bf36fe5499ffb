//! The operations that a request becomes, sector by sector (units) and as ranges (pieces), and the sink that
//! receives the pieces.

pub(crate) mod discard;
pub(crate) mod piece;
pub(crate) mod piece_list;
pub(crate) mod sink;
