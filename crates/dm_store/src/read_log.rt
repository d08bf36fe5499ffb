//! A log of reads that exists only for proofs. It needs no memory and no time.
//!
//! The contents of real images are known only through such a log. An `impl Images` must note each read when it returns.

ghost use Rattle.dm_store.specs.Prelude.{[], length, AreRead, Contents, AgreesWith};
ghost use Rattle.std.specs.Prelude.{◌≡◌, ◌↔◌};

use crate::asked::Asked;
use crate::images::ReadFault;
use dm_table::GhostList;
use std::marker::Model;

/// All reads of images so far. In contracts, the value is what was asked for and what was returned.
#[derive(Drop)]
pub struct ReadLog {
    asked: GhostList<Asked>,
    paths: GhostList<u8>,
    given: GhostList<u8>,
}

impl Model for ReadLog {
    ghost use Rattle.dm_store.specs.Base.{length};
    ghost use Rattle.dm_store.specs.ReadLog.{Logged, given_total, path_total};
    ghost use Rattle.std.specs.Prelude.{◌≡◌};

    ghost Value = { Logged };

    ghost view = { λ log. record { asked = log.asked.items; paths = log.paths.items; given = log.given.items } };

    ghost invariant = { λ log. (length log.paths.items ≡ path_total log.asked.items)
        × (length log.given.items ≡ given_total log.asked.items) };
}

impl ReadLog {
    /// A log without reads. All contents of images agree with it.
    pub fn new() -> ReadLog
        ensures asked { result.asked ≡ [] }
        ensures paths { result.paths ≡ [] }
        ensures given { result.given ≡ [] }
        ensures all { (held : Contents) → AgreesWith held result }
    {
        ReadLog {
            asked: GhostList::new(),
            paths: GhostList::new(),
            given: GhostList::new(),
        }
    }

    /// Notes a read of the image with this line and path, and the result.
    pub fn note(
        &mut self,
        line: u64,
        path: &str,
        sector: u64,
        answer: Result<(), ReadFault>,
        bytes: &[u8],
    )
        ensures { (held : Contents) → AgreesWith held self.new
            ↔ (AgreesWith held self.old × AreRead (held line path.now) sector answer bytes.now) }
    {
        self.asked.note(&[Asked {
            line,
            path_len: path.len(),
            sector,
            len: bytes.len(),
            answer,
        }]);
        self.paths.note(path.as_bytes());
        self.given.note(bytes);
    }
}
