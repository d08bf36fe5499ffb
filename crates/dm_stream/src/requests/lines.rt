//! The lines of an input, found in a buffer of bytes that were read but not yet returned. In contracts, the value is
//! only those bytes, so lines never depend on how reads cut them. Nothing is allocated. The search for a newline
//! continues where the last search stopped, so each byte is searched once.
ghost use Rattle.dm_stream.specs.Prelude.{[], length, take, drop, IfOk, OnErr, OnTrue, OnFalse, sem, delivery, since, HasRead, IsReadOn, MetNothing};
ghost use Rattle.std.specs.Io.BufRead.{Rests};
ghost use Rattle.std.specs.Prelude.{◌≡◌, ◌+◌, ◌≤◌, ◌++◌, ◌≢◌, ◌∷◌};

use crate::requests::handler::{ReadsFrom, Unanswered};
use crate::requests::line_buffer::{line_len, make_room, read_after};
use dm_table::{InFault, Input};
use std::marker::Model;

/// The maximum length of a line in bytes, not counting its newline.
pub const MOST_LINE_BYTES: usize = 4096;

/// The size of the buffer in bytes.
const BUFFER_BYTES: usize = 65536;

/// What comes next in an input: a line, or why there is none.
#[derive(Clone, Copy, Debug, PartialEq, Eq)]
pub enum Next<'a> {
    /// A line, without its newline.
    Line(&'a [u8]),
    /// The input ended cleanly after its last newline.
    End,
    /// The input ended cleanly after bytes without a newline.
    Unended,
    /// A line of more than 4,096 bytes, even if its newline hasn't been read yet.
    Long,
    /// The input failed before the next line was complete.
    ReadFault,
}

/// Like `Next`, but with only the length of a line, because the held bytes begin with the line.
enum NextHeld {
    Line(usize),
    End,
    Unended,
    Long,
    ReadFault,
}

/// The lines of an input. In contracts, the value is the bytes that were read but not yet returned.
#[derive(Drop)]
pub struct Lines {
    buffer: [u8; BUFFER_BYTES],
    start: usize,
    end: usize,
}

impl Model for Lines {
    ghost use Rattle.dm_stream.specs.Base.{List, ℕ, slice_range};
    ghost use Rattle.dm_stream.specs.declared.requests.lines.TheConstants.{BUFFER_BYTES};
    ghost use Rattle.std.specs.Prelude.{◌≤◌};

    ghost Value = { List ℕ };

    ghost view = { λ lines. slice_range lines.buffer lines.start lines.end };

    ghost invariant = { λ lines. (lines.start ≤ lines.end) × (lines.end ≤ BUFFER_BYTES) };
}

impl Lines {
    ghost use Rattle.dm_stream.specs.requests.Lines.{line_parts, next_answer, answer_of, left_of, OnLine};
    ghost use Rattle.dm_stream.specs.requests.NextHeld.{held_answer, FitsIn, IsLook, OnHeldLine};
    ghost use Rattle.dm_stream.specs.contracts.requests.lines.Lines.{the_row};

    /// The lines of an input that hasn't been read yet.
    pub fn new() -> Lines
        ensures { result ≡ [] }
    {
        Lines {
            buffer: [0; BUFFER_BYTES],
            start: 0,
            end: 0,
        }
    }

    /// The bytes that were read but not yet returned.
    #[inline(always)]
    pub(crate) fn held(&self) -> &[u8]
        ensures { result.now ≡ self.now }
    {
        let buffer: &[u8] = &self.buffer;
        &buffer[self.start..self.end]
    }

    /// Whether a newline is held, so that the next line can be returned without a read.
    pub(crate) fn has_newline(&self) -> bool
        ensures held { OnTrue result (line_parts self.now ≢ self.now ∷ []) }
        ensures none { OnFalse result (line_parts self.now ≡ self.now ∷ []) }
    {
        line_len(self.held(), 0).is_some()
    }

    /// Drops the first `len` held bytes.
    #[inline(always)]
    pub(crate) fn skip(&mut self, len: usize)
        requires { len ≤ length self.old }
        ensures { self.new ≡ drop len self.old }
    {
        self.start += len;
    }

    /// How many bytes are held.
    fn len(&self) -> usize
        ensures { result ≡ length self.now }
    {
        self.end - self.start
    }

    /// What comes next, if the held bytes alone settle that. The first `searched` of them have no newline.
    fn look(&self, searched: usize) -> Option<NextHeld>
        requires within { searched ≤ length self.now }
        requires clear { line_parts (take searched self.now) ≡ take searched self.now ∷ [] }
        ensures { IsLook result self.now }
    {
        let held = &self.buffer[self.start..self.end];
        if let Some(n) = line_len(held, searched) {
            return Some(if n > MOST_LINE_BYTES {
                NextHeld::Long
            } else {
                NextHeld::Line(n)
            });
        }
        if held.len() > MOST_LINE_BYTES {
            Some(NextHeld::Long)
        } else {
            None
        }
    }

    /// Reads once, behind the held bytes, and returns how many bytes were read.
    fn fill<Q, H: ReadsFrom<Q>>(&mut self, requests: &mut Q, handler: &H) -> Result<usize, InFault>
        requires room { length self.old ≤ MOST_LINE_BYTES }
        requires out { H.is_out handler.now }
        ensures read { HasRead (H.asked requests.old) (H.asked requests.new) result
            (since (H.asked requests.old).handed (H.asked requests.new).handed) }
        ensures held { self.new ≡ self.old ++ since (H.asked requests.old).handed (H.asked requests.new).handed }
        ensures count { IfOk result (λ n. length self.new ≡ length self.old + n) }
        ensures none { IfOk result (λ n. n ≡ 0 → self.new ≡ self.old) }
        ensures err { OnErr result (self.new ≡ self.old) }
        ensures room { length self.new ≤ BUFFER_BYTES }
    {
        let held = self.end - self.start;
        self.start = make_room(&mut self.buffer, self.start, self.end, MOST_LINE_BYTES);
        self.end = self.start + held;
        let n = read_after(&mut self.buffer, self.end, requests, handler)?;
        self.end += n;
        Ok(n)
    }

    /// Reads until the held bytes settle what comes next. If that is a line, it stays in the held bytes.
    fn advance<Q, H: ReadsFrom<Q>>(&mut self, requests: &mut Q, handler: &H) -> NextHeld
        requires { line_parts self.old ≡ self.old ∷ [] → H.is_out handler.now }
        ensures reads { IsReadOn (H.asked requests.old) (H.asked requests.new) }
        ensures held { self.new ≡ self.old ++ since (H.asked requests.old).handed (H.asked requests.new).handed }
        ensures fits { FitsIn result self.new }
        ensures quiet { OnHeldLine result (MetNothing (H.asked requests.old) (H.asked requests.new)) }
        ensures answer { next_answer (delivery (H.asked requests.old) (H.asked requests.new)).stand
            (line_parts self.new)
            ≡ held_answer result self.new }
    {
        let mut searched = 0;
        'turns: loop {
            if let Some(found) = self.look(searched) {
                return found;
            }
            searched = self.len();
            match self.fill(requests, handler) {
                Err(InFault) => return NextHeld::ReadFault,
                Ok(0) => {
                    return if searched == 0 {
                        NextHeld::End
                    } else {
                        NextHeld::Unended
                    };
                }
                Ok(_) => {}
            }
        }
    }

    /// The next line of an input, or why there is none. Only a line that is returned is removed from the held bytes.
    ///
    /// Cost: time linear in the bytes read, however reads cut them. Allocates nothing.
    pub fn next<R: Input>(&mut self, input: &mut R) -> Next<'_>
        ensures* after { sem 𝓛 (Rests the_row self.entry (λ new.
            new ≡ left_of (answer_of result)
            (self.old ++ since (R.past input.old).handed (R.past input.new).handed))) }
        // Nothing is read after an end or a fault.
        ensures reads { IsReadOn (R.past input.old) (R.past input.new) }
        // If a line is returned or is too long, reading met neither the end nor a fault.
        ensures quiet { OnLine result (MetNothing (R.past input.old) (R.past input.new)) }
        ensures answer { answer_of result
            ≡ next_answer (delivery (R.past input.old) (R.past input.new)).stand
            (line_parts (self.old ++ since (R.past input.old).handed (R.past input.new).handed)) }
    {
        self.next_for(input, &Unanswered)
    }

    /// The next line of requests that a handler answers, or why there is none.
    pub(crate) fn next_for<Q, H: ReadsFrom<Q>>(&mut self, requests: &mut Q, handler: &H) -> Next<'_>
        // Unless a newline is held, something is read, so all answers must have been passed on.
        requires { line_parts self.old ≡ self.old ∷ [] → H.is_out handler.now }
        ensures* after { sem 𝓛 (Rests the_row self.entry (λ new.
            new ≡ left_of (answer_of result)
            (self.old ++ since (H.asked requests.old).handed (H.asked requests.new).handed))) }
        // Nothing is read after an end or a fault.
        ensures reads { IsReadOn (H.asked requests.old) (H.asked requests.new) }
        // If a line is returned or is too long, reading met neither the end nor a fault.
        ensures quiet { OnLine result (MetNothing (H.asked requests.old) (H.asked requests.new)) }
        ensures answer { answer_of result
            ≡ next_answer (delivery (H.asked requests.old) (H.asked requests.new)).stand
            (line_parts (self.old ++ since (H.asked requests.old).handed (H.asked requests.new).handed)) }
    {
        match self.advance(requests, handler) {
            NextHeld::Line(n) => {
                let start = self.start;
                self.start = start + n + 1;
                let buffer = &self.buffer;
                Next::Line(&buffer[start..start + n])
            }
            NextHeld::End => Next::End,
            NextHeld::Unended => Next::Unended,
            NextHeld::Long => Next::Long,
            NextHeld::ReadFault => Next::ReadFault,
        }
    }
}
