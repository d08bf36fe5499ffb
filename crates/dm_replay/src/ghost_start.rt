//! The state in which a replay started. Only proofs read it.

ghost use Rattle.std.specs.Prelude.{◌≡◌};

use dm_map::{Mapper, Taken};
use dm_table::GhostList;
use std::marker::Model;
use std::slice::from_ref;

/// The state of a mapper at an earlier moment. It has size zero at run time.
#[derive(Drop)]
pub(crate) struct GhostStart<'s, T: Taken> {
    mappers: GhostList<Mapper<'s, T>>,
}

impl<'s, T: Taken> Model for GhostStart<'s, T> {
    ghost use Rattle.dm_replay.specs.Base.{State};
    ghost use Rattle.dm_replay.specs.Reruns.{first_state};

    ghost Value = { State };

    ghost view = { λ start. first_state start.mappers.items };
}

impl<'s, T: Taken> GhostStart<'s, T> {
    /// Records the state that a mapper is in now.
    #[inline(always)]
    pub(crate) fn of(mapper: &Mapper<'s, T>) -> GhostStart<'s, T>
        ensures { result ≡ mapper.now.state }
    {
        let mut mappers = GhostList::new();
        mappers.note(from_ref(mapper));
        GhostStart { mappers }
    }
}
