//! The rows of a list that were read last.

ghost use Rattle.std.specs.Prelude.{◌≡◌, ◌≤◌};

/// Consecutive rows of a list, `count` of them from `first` on. Each row is one sector.
#[derive(Clone, Copy, Debug, Drop)]
pub(crate) struct RowRange {
    pub(crate) first: u64,
    pub(crate) count: u64,
    /// Rows below `single` are read one by one, because reading them together failed.
    pub(crate) single: u64,
    ghost few: { count ≤ 128 },
}

impl RowRange {
    /// A range without rows.
    pub(crate) fn none() -> RowRange
        ensures { result.count ≡ 0 }
    {
        RowRange {
            first: 0,
            count: 0,
            single: 0,
        }
    }
}
