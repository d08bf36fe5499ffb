//! The parts of a load: how each part is read and checked, and the faults and messages of refused loads.

pub mod load_fault;
pub mod load_message;
pub mod part_input;
pub mod place;
pub mod reading;
pub mod row_faults;
pub mod text_checks;
