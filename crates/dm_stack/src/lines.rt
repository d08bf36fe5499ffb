//! Lines with ids: finding the line of a sector, what lies below the sector, and the layout of exception stores.

pub mod chunk_size;
pub mod divisor;
pub mod leg;
pub mod legs;
pub mod line_search;
pub mod over;
pub mod resolve;
pub mod resolved;
pub mod resolved_columns;
pub mod resolved_line;
pub mod resolved_table;
pub mod span;
pub mod store_layout;
pub mod stripe_position;
