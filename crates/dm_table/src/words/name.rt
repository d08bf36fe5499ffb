//! Names: texts that have been checked once.
//!
//! A `CheckedName` is always a valid name, so no code above checks it again. There is one type for all
//! names, and one rule for each kind of name: the rule for devices is in `device_name`, and the rule for
//! disks in `disk_name`.

ghost use Rattle.dm_table.specs.Base.{Some, Err, true, false, IsTrue, IfOk, OnOk, List, ℕ, Bool, IsAscii, string_bytes};
ghost use Rattle.std.specs.Prelude.{◌≡◌, ◌↔◌};

use crate::reserved::ReservedText;
use std::alloc::{AllocError, Global};
use std::fmt;
use std::marker::{Model, PhantomData};
use thiserror::Error;

/// Why a text was not accepted as a name.
#[derive(Clone, Copy, Debug, PartialEq, Eq, Error)]
pub enum CheckFault {
    /// The text isn't a valid name of this kind.
    #[error("the text is no name")]
    Form,
    /// Memory ran out: an allocation was refused.
    #[error("out of memory")]
    Memory,
}

/// A rule that says which texts are names of one kind: of devices, or of disks.
pub trait NameRule {
    /// Whether a text is a valid name.
    ghost is_name: { List ℕ → Bool };

    /// Whether the bytes are a valid name.
    fn is_name(bytes: &[u8]) -> bool
        ensures { result ≡ is_name bytes.now };

    /// A valid name is ASCII.
    ghost ascii: { (text : List ℕ) → IsTrue (is_name text) → IsAscii text };
}

/// A text that is a valid name by the rule `R`, in an allocation of its own.
#[derive(Debug, Drop)]
pub struct CheckedName<R: NameRule> {
    text: ReservedText,
    rule: PhantomData<R>,
}

impl<R: NameRule> Model for CheckedName<R> {
    ghost use Rattle.dm_table.specs.Base.{List, ℕ, true};
    ghost use Rattle.std.specs.Prelude.{◌≡◌};

    ghost Value = { List ℕ };

    ghost view = { λ name. name.text };

    ghost invariant = { λ name. R.is_name name.text ≡ true };
}

impl<R: NameRule> CheckedName<R> {
    /// Makes a name of this kind from a text, which is copied.
    ///
    /// Cost: reads the text twice, and allocates once if the text is a valid name. Returns `Form` if it isn't
    /// valid, and `Memory` if the allocation was refused.
    pub fn new(alloc: Global, text: &str) -> Result<CheckedName<R>, CheckFault>
        ensures kept { IfOk result (λ name. name ≡ text.now) }
        ensures form { (result ≡ Err CheckFault.Form) ↔ (R.is_name text.now ≡ false) }
        ensures tested { OnOk result (IsTrue (R.is_name text.now)) }
    {
        if !R::is_name(text.as_bytes()) {
            return Err(CheckFault::Form);
        }
        match String::from_str(alloc, text) {
            Ok(text) => Ok(CheckedName {
                text: ReservedText::from_string(text),
                rule: PhantomData,
            }),
            Err(AllocError) => Err(CheckFault::Memory),
        }
    }

    /// Makes a name from bytes that are known to be valid. Fails only if memory runs out.
    pub(crate) fn of_bytes(alloc: Global, bytes: &[u8]) -> Result<CheckedName<R>, AllocError>
        requires { IsTrue (R.is_name bytes.now) }
        ensures { IfOk result (λ name. name ≡ bytes.now) }
    {
        Ok(CheckedName {
            text: ReservedText::from_string(String::from_str(alloc, ascii_str(bytes))?),
            rule: PhantomData,
        })
    }

    /// A copy of the name, which isn't checked again.
    ///
    /// Cost: reads the text once, and allocates once. Fails only if the allocation was refused.
    pub fn copy(&self, alloc: Global) -> Result<CheckedName<R>, AllocError>
        ensures { IfOk result (λ copy. copy ≡ self.now) }
    {
        CheckedName::of_bytes(alloc, self.as_str().as_bytes())
    }

    /// The name as a `str`.
    pub fn as_str(&self) -> &str
        ensures text { result.now ≡ self.now }
        // Every value of this type is a valid name.
        ensures name { IsTrue (R.is_name self.now) }
    {
        self.text.as_str()
    }

    /// The name as a string. Allocates nothing.
    pub fn into_string(self) -> String
        ensures { string_bytes result ≡ self }
    {
        self.text.into_string()
    }
}

impl<R: NameRule> fmt::Display for CheckedName<R> {
    ghost output = { λ name. Some name };

    fn fmt<W: fmt::Write>(&self, f: &mut fmt::Formatter<W>) -> fmt::Result {
        f.write_str(self.as_str())
    }
}

/// ASCII bytes as a `str`.
pub(crate) fn ascii_str(bytes: &[u8]) -> &str
    requires { IsAscii bytes.now }
    ensures { result.now ≡ bytes.now }
{
    // The bytes needn't be checked, because ASCII is UTF-8, as the proof shows.
    unsafe { str::from_utf8_unchecked(bytes) }
}
