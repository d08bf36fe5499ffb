//! The list of requests that a replay accepted. Only proofs read it.

ghost use Rattle.dm_replay.specs.Prelude.{[], kept_request};
ghost use Rattle.std.specs.Prelude.{◌≡◌, ◌++◌, ◌∷◌};

use crate::asked_request::AskedRequest;
use dm_stack::DeviceId;
use dm_table::{GhostList, Request};
use std::marker::Model;

/// A growing list of requests. It has size zero at run time.
#[derive(Drop)]
pub(crate) struct GhostAsked {
    requests: GhostList<AskedRequest>,
}

impl Model for GhostAsked {
    ghost use Rattle.dm_replay.specs.Base.{List};
    ghost use Rattle.dm_replay.specs.Histories.{Asked};
    ghost use Rattle.dm_replay.specs.Reruns.{all_asked};

    ghost Value = { List Asked };

    ghost view = { λ asked. all_asked asked.requests.items };
}

impl GhostAsked {
    /// A list without requests.
    #[inline(always)]
    pub(crate) fn new() -> GhostAsked
        ensures { result ≡ [] }
    {
        GhostAsked {
            requests: GhostList::new(),
        }
    }

    /// Adds a request at the end of the list.
    pub(crate) fn add(&mut self, request: &Request<'_>, device: DeviceId, halted_after: Option<u64>)
        ensures { self.new ≡ self.old ++ kept_request request.now device halted_after ∷ [] }
    {
        self.requests
            .note(&[AskedRequest::new(request, device, halted_after)]);
    }
}
