//! An index of names, which numbers them 0, 1, 2 and so on in the order in which they are added.
//!
//! A look-up takes about the same time for any number of names. The last bytes of a name yield a guess of its
//! number, so that usually only one name is compared and the set isn't searched. For a name at the front of a
//! text, a table of places, which contain keys of names, is searched; a short name is compared by its key alone.
//! The key determines the first place to look at; if another name is in that place, the key is in one of the next
//! places. No proof relies on a guess or a place, because if neither finds the name, the set of all names does.
//! Contracts see an index as the list of its names, in the order in which they were added.
//!
//! Guesses and places are here for speed alone, since the set finds each name, too: RESULTS.md lists their gain
//! as *a name's number tried before its hash* and *requests read where they stand*. If you change them, measure
//! small requests, and loads of many lines, before and after.

ghost use Rattle.dm_stack.specs.Prelude.{[], IfOk, IfSome, List, ℕ, Some, drop, get_or, length, not, position, take, list_any, code, is_same, ArePlaces, IsKeyOf, IsPlaceOf};
ghost use Rattle.dm_stack.specs.declared.names.name_key.TheConstants.{KEY_BYTES};
ghost use Rattle.std.specs.Prelude.{◌≡◌, ◌+◌, ◌++◌, ◌∷◌, ◌<◌, ◌≤◌, if◌then◌else◌};

use crate::names::name_key::{KEY_BYTES, NameKey, first_space};
use dm_table::are_same;
use indexmap::IndexSet;
use std::alloc::{AllocError, Global};
use std::marker::Model;

/// The number of entries in the table of guesses: four for each device or disk that a stack may have.
const GUESSES: usize = 4096;

/// How many consecutive places, from the first place of a key on, may contain that key.
const TRIES: usize = 8;

/// How many bytes of a text are searched for the space after a name.
const LONGEST: usize = 128;

/// The length in the key of an empty place; no name has this length.
const NO_NAME: usize = LONGEST;

/// The greatest exponent for the number of first places: 2^13 places are eight for each of 1,024 names.
const MOST_DIGITS: u32 = 13;

/// An entry of the table of places: the key of a name, and its number.
#[derive(Clone, Copy)]
pub(crate) struct Place {
    pub key: NameKey,
    pub number: usize,
}

/// Different names, numbered in the order in which they were added.
#[derive(Drop)]
pub(crate) struct NameIndex {
    names: IndexSet<String>,
    /// For each guess, the number of the name with that guess that was added last.
    guesses: Vec<u16>,
    places: Vec<Place>,
    /// How far a key's product is shifted right to get the index of its first place.
    shift: u32,
}

impl Model for NameIndex {
    ghost use Rattle.dm_stack.specs.Base.{List, ℕ};
    ghost use Rattle.dm_stack.specs.names.NameIndex.{IsIndex, names_in};

    ghost Value = { List (List ℕ) };

    ghost view = { λ index. names_in index.names };

    ghost invariant = { λ index. IsIndex index.names index.places.items };
}

impl NameIndex {
    /// An empty index, with places for this many names.
    ///
    /// Fails only when out of memory. Cost: linear in the names, with memory for 4 to 8 places of 32 bytes for
    /// each, 8 more places, and 8 KiB.
    pub(crate) fn new(alloc: Global, names: usize) -> Result<NameIndex, AllocError>
        ensures { IfOk result (λ index. index ≡ []) }
    {
        let digits = place_digits(names);
        Ok(NameIndex {
            names: IndexSet::new(alloc),
            guesses: no_guesses(alloc)?,
            places: Vec::from_elem(alloc, empty_place(), (1 << digits) + TRIES)?,
            shift: 64 - digits,
        })
    }

    /// Adds a name after the others, unless the index contains it already; returns whether the name was new.
    ///
    /// Cost: about the same for any number of names, with memory for a copy of the name.
    pub(crate) fn add(&mut self, alloc: Global, name: &str) -> Result<bool, AllocError>
        ensures new { IfOk result (λ new. new ≡ not (list_any (λ other. is_same other name.now) self.old)) }
        ensures added { IfOk result
            (λ new. self.new ≡ (if new then self.old ++ name.now ∷ [] else self.old)) }
    {
        let guess = guess_of(name);
        let place = Place {
            key: NameKey::of(name.as_bytes()),
            number: self.names.len(),
        };
        let name = String::from_str(alloc, name)?;
        match self.names.insert(name) {
            Ok(true) => {
                keep(&mut self.guesses, guess, place.number);
                put(&mut self.places, first_place(&place.key, self.shift), place);
                Ok(true)
            }
            Ok(false) => Ok(false),
            Err(_) => Err(AllocError),
        }
    }

    /// The number of a name, counted from 0 in the order of adding. No memory is allocated.
    pub(crate) fn find(&self, name: &str) -> Option<usize>
        ensures { result ≡ position (λ other. is_same other name.now) self.now }
    {
        if let Some(guess) = self.guesses.get(guess_of(name)) {
            let number = usize::from(*guess);
            if let Some(other) = self.names.get_index(number) {
                if are_same(other.as_bytes(), name.as_bytes()) {
                    return Some(number);
                }
            }
        }
        self.names.get_index_of(name)
    }

    /// The number and the length of the name at the front of a text, which ends at a space. `None` tells nothing
    /// about the text.
    #[inline(always)]
    pub(crate) fn find_in_text(&self, text: &[u8]) -> Option<(usize, usize)>
        ensures number { IfSome result
            (λ found. position (λ other. is_same other (take found.1 text.now)) self.now ≡ Some found.0) }
        ensures space { IfSome result
            (λ found. text.now ≡ take found.1 text.now ++ code " " ∷ drop (found.1 + 1) text.now) }
    {
        let array = text.first_chunk::<KEY_BYTES>()?;
        let Some(len) = first_space(array) else {
            return self.find_long(text);
        };
        let number = self.find_key(&NameKey::short(array, len))?;
        Some((number, len))
    }

    /// The number and the length of a name of 16 bytes or more at the front of a text, which ends at a space.
    #[inline(never)]
    fn find_long(&self, text: &[u8]) -> Option<(usize, usize)>
        ensures number { IfSome result
            (λ found. position (λ other. is_same other (take found.1 text.now)) self.now ≡ Some found.0) }
        ensures space { IfSome result
            (λ found. text.now ≡ take found.1 text.now ++ code " " ∷ drop (found.1 + 1) text.now) }
    {
        let len = space_ahead(text)?;
        let number = self.find_placed(&text[..len])?;
        Some((number, len))
    }

    /// The number of a name, if the table of places contains it. `None` tells nothing about the name.
    fn find_placed(&self, name: &[u8]) -> Option<usize>
        ensures { IfSome result (λ number. position (λ other. is_same other name.now) self.now ≡ Some number) }
    {
        let number = self.find_key(&NameKey::of(name))?;
        if name.len() < KEY_BYTES {
            return Some(number);
        }
        // A long name may share its key with another name, so the names are compared, too.
        if are_same(self.names.get_index(number)?.as_bytes(), name) {
            Some(number)
        } else {
            None
        }
    }

    /// The number in the first place with this key, if there is one.
    #[inline(always)]
    fn find_key(&self, key: &NameKey) -> Option<usize>
        ensures { (name : List ℕ) → length name < KEY_BYTES → IsKeyOf name key.now
            → IfSome result (λ number. position (λ other. is_same other name) self.now ≡ Some number) }
    {
        let ahead = self.places.get(first_place(key, self.shift)..)?;
        for place in ahead.get(..TRIES)? {
            if place.key.is(key) {
                return Some(place.number);
            }
        }
        None
    }
}

/// A table of guesses in which every guess is name 0.
fn no_guesses(alloc: Global) -> Result<Vec<u16>, AllocError> {
    Vec::from_elem(alloc, 0, GUESSES)
}

/// Stores the number of a name under its guess, if the number fits into 16 bits.
fn keep(guesses: &mut Vec<u16>, guess: usize, number: usize) {
    if let (Some(guess), Ok(number)) = (guesses.get_mut(guess), u16::try_from(number)) {
        *guess = number;
    }
}

/// The guess of a name: a hash of its last eight bytes, or of all bytes of a shorter name.
#[inline(always)]
fn guess_of(name: &str) -> usize {
    let bytes = name.as_bytes();
    let mut word = 0;
    match bytes.last_chunk::<8>() {
        Some(last) => word = u64::from_le_bytes(*last),
        None => {
            for byte in bytes {
                word = word << 8 | u64::from(*byte);
            }
        }
    }
    (word.wrapping_mul(0x9E37_79B9_7F4A_7C15) >> 52) as usize
}

/// The exponent for the number of first places: 2^digits is four to eight places for each name, up to a limit.
fn place_digits(names: usize) -> u32
    ensures { result ≤ MOST_DIGITS }
{
    match names.saturating_mul(4).checked_ilog2() {
        Some(digits) => MOST_DIGITS.min(digits + 1),
        None => 1,
    }
}

/// A place without a name.
fn empty_place() -> Place
    ensures { KEY_BYTES ≤ result.key.len }
{
    Place {
        key: NameKey {
            first: 0,
            last: 0,
            len: NO_NAME,
        },
        number: 0,
    }
}

/// The index of the first place that may contain a key.
#[inline(always)]
fn first_place(key: &NameKey, shift: u32) -> usize {
    let mixed = key
        .first
        .wrapping_add(key.last.rotate_left(29))
        .wrapping_mul(0x9E37_79B9_7F4A_7C15);
    mixed.wrapping_shr(shift) as usize
}

/// Stores a place at the first empty one of the places for its key, or drops it if none of these is empty.
fn put(places: &mut Vec<Place>, from: usize, place: Place)
    ensures { (names : List (List ℕ)) → ArePlaces names places.old.items
        → (place.key.len < KEY_BYTES → IsPlaceOf names place) → ArePlaces names places.new.items }
{
    let end = places.len().min(from.saturating_add(TRIES));
    let mut at = from;
    'tries: while at < end {
        if places[at].key.len == NO_NAME {
            places[at] = place;
            return;
        }
        at += 1;
    }
}

/// The number of bytes before the first space of a text, if it is within the length that is searched.
fn space_ahead(text: &[u8]) -> Option<usize>
    ensures within { IfSome result (λ len. len < length text.now) }
    ensures space { IfSome result (λ len. get_or text.now len 0 ≡ code " ") }
{
    let mut from = 0;
    'steps: while from < LONGEST {
        let array = text.get(from..)?.first_chunk::<KEY_BYTES>()?;
        if let Some(at) = first_space(array) {
            return Some(from + at);
        }
        from += KEY_BYTES;
    }
    None
}
