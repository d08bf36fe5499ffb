//! Lists and counts that exist only in proofs.
//! The history of a device can have any length and any counts, so no machine variable could hold it.
//! Two proofs written by hand change the lists: add a method only if `new` and `note` don't suffice.
ghost use Rattle.dm_table.specs.Base.{ℕ, List, [], length, ftrue};
ghost use Rattle.std.specs.Prelude.{◌≡◌, ◌+◌, ◌++◌};

use std::marker::{Model, PhantomData};

/// A growing list that only proofs read; it uses no memory.
#[derive(Drop)]
pub struct GhostList<T> {
    of: PhantomData<T>,
    pub ghost items: { List T },
}

impl<T> Model for GhostList<T> {
    ghost also_owns = { λ _. ftrue };
}

impl<T> GhostList<T> {
    /// An empty list.
    #[inline(always)]
    pub fn new() -> GhostList<T>
        ensures { result.items ≡ [] }
    {
        GhostList { of: PhantomData }
    }

    /// Appends a slice to the list, at no cost at run time.
    #[inline(always)]
    pub fn note(&mut self, _more: &[T])
        ensures { self.new.items ≡ self.old.items ++ _more.now }
    {}
}

/// A count that only proofs read; it has no upper limit and uses no memory.
#[derive(Drop)]
pub struct Tally {
    ticks: GhostList<()>,
}

impl Model for Tally {
    ghost Value = { ℕ };

    ghost view = { λ t. length t.ticks.items };
}

impl Tally {
    /// A count of 0.
    #[inline(always)]
    pub fn new() -> Tally
        ensures { result ≡ 0 }
    {
        Tally {
            ticks: GhostList::new(),
        }
    }

    /// Raises the count by one, at no cost at run time.
    #[inline(always)]
    pub fn raise(&mut self)
        ensures { self.new ≡ self.old + 1 }
    {
        self.ticks.note(&[()]);
    }
}
