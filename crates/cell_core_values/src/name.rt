//! Names of maps, and lists of distinct names.

ghost use Rattle.std.specs.Prelude.{◌≡◌, ◌↔◌, ℕ, ◌<◌, List, ◌++◌, [], ◌∷◌, Some, None, Ok, Err, IfSome, IfOk, IfErr, OnOk, OnErr, true, false, length, slice_get};
ghost use Rattle.std.specs.List.{list_all};
ghost use Rattle.cell_core_values.specs.Name.{is_name, is_name_start, is_name_byte, starts_like_name, place_of_name, AreDistinctNames};

use crate::memory::Memory;
use std::alloc::Global;
use std::collections::BTreeMap;
use std::marker::Model;

// Maximum length of a name in bytes.
const MOST_NAME_BYTES: usize = 64;

/// Why bytes could not be read as a name.
#[derive(Clone, Copy, Debug, PartialEq, Eq)]
pub enum NameFault {
    /// The bytes do not form a name.
    BadName,
    /// Memory ran out.
    Memory,
}

/// The name of a map: 1 to 64 bytes, starting with an ASCII letter or `_`, followed by ASCII letters, digits, `_` and
/// `.` (profile).
#[derive(Debug, Drop)]
pub struct Name {
    text: Vec<u8>,
}

impl Model for Name {
    ghost use Rattle.std.specs.Prelude.{List, ℕ, ◌≡◌, true};
    ghost use Rattle.cell_core_values.specs.Name.{is_name};

    ghost Value = { List ℕ };

    ghost view = { λ n. n.text.items };

    ghost invariant = { λ n. is_name n.text.items ≡ true };
}

fn is_name_start(b: u8) -> bool
    ensures { result ≡ is_name_start b }
{
    (b'A' <= b && b <= b'Z') || (b'a' <= b && b <= b'z') || b == b'_'
}

/// Returns whether a byte may occur in a name: an ASCII letter, a digit, `_` or `.`. Does not allocate.
pub fn is_name_byte(b: u8) -> bool
    ensures { result ≡ is_name_byte b }
{
    is_name_start(b) || (b'0' <= b && b <= b'9') || b == b'.'
}

/// Returns whether a name may start with the first byte: an ASCII letter or `_`. Does not allocate.
pub fn starts_like_name(text: &[u8]) -> bool
    ensures { result ≡ starts_like_name text.now }
{
    match text {
        [] => false,
        [first, ..] => is_name_start(*first),
    }
}

fn is_name(text: &[u8]) -> bool
    ensures { result ≡ is_name text.now }
{
    starts_like_name(text) && has_only_name_bytes(text) && text.len() <= MOST_NAME_BYTES
}

fn has_only_name_bytes(text: &[u8]) -> bool
    ensures { result ≡ list_all is_name_byte text.now }
{
    text.iter().all(|b| is_name_byte(*b))
}

impl Name {
    /// Reads bytes as a name.
    ///
    /// # Errors
    ///
    /// [`NameFault::BadName`] if and only if the bytes do not form a name, otherwise [`NameFault::Memory`] if
    /// memory for a copy runs out.
    pub fn read(alloc: Global, text: &[u8]) -> Result<Name, NameFault>
        ensures text { IfOk result (λ name. name ≡ text.now) }
        ensures good { OnOk result (is_name text.now ≡ true) }
        ensures bad { (result ≡ Err NameFault.BadName) ↔ (is_name text.now ≡ false) }
    {
        if !is_name(text) {
            return Err(NameFault::BadName);
        }
        match Vec::from_slice(alloc, text) {
            Ok(text) => Ok(Name { text }),
            Err(_) => Err(NameFault::Memory),
        }
    }

    /// Returns the bytes of the name.
    pub fn bytes(&self) -> &[u8]
        ensures value { result.now ≡ self.now }
        ensures name { is_name self.now ≡ true }
    {
        &self.text
    }

    /// Returns a copy of the name.
    ///
    /// # Errors
    ///
    /// [`Memory`] if memory for the copy runs out.
    pub fn copy(&self, alloc: Global) -> Result<Name, Memory>
        ensures { IfOk result (λ name. name ≡ self.now) }
    {
        let text = Vec::from_slice(alloc, self.bytes())?;
        Ok(Name { text })
    }
}

/// Distinct names, in the order in which they were pushed. The time to find a name grows with the logarithm of their
/// number.
#[derive(Debug, Drop)]
pub struct Names {
    alloc: Global,
    names: Vec<Name>,
    // Maps a copy of each name's bytes to its index. A script may create tens of thousands of maps, so a linear search
    // would be slow.
    places: BTreeMap<Vec<u8>, usize>,
}

impl Model for Names {
    ghost use Rattle.std.specs.Prelude.{List, ℕ};
    ghost use Rattle.cell_core_values.specs.Name.{AreDistinctNames};
    ghost use Rattle.cell_core_values.specs.parts.NamePlaces.{ArePlacesOfNames};

    ghost Value = { List (List ℕ) };

    ghost view = { λ n. n.names.items };

    ghost invariant = { λ n. AreDistinctNames n.names.items × ArePlacesOfNames (λ key. key.items) n.names.items n.places.entries };
}

impl Names {
    /// Returns an empty list of names. Does not allocate.
    pub fn new(alloc: Global) -> Names
        ensures { result ≡ [] }
    {
        Names {
            alloc,
            names: Vec::new(alloc),
            places: BTreeMap::new(alloc),
        }
    }

    /// Returns the number of names.
    pub fn len(&self) -> usize
        ensures count { result ≡ length self.now }
        ensures distinct { AreDistinctNames self.now }
    {
        self.names.len()
    }

    /// Returns the index of a name, or `None` if it is not in the list.
    pub fn find(&self, text: &[u8]) -> Option<usize>
        ensures place { result ≡ place_of_name text.now self.now }
        ensures within { IfSome result (λ i. i < length self.now) }
    {
        self.places.get(text).copied()
    }

    /// Returns the name at index `i`.
    pub fn name(&self, i: usize) -> &Name
        requires { i < length self.now }
        ensures value { slice_get self.now i ≡ Some result.now }
        ensures place { place_of_name result.now self.now ≡ Some i }
    {
        &self.names[i]
    }

    /// Appends a new name.
    ///
    /// # Errors
    ///
    /// [`Memory`] if memory runs out; the list is then unchanged, and the new name is dropped.
    pub fn push(&mut self, name: Name) -> Result<(), Memory>
        requires { place_of_name name self.old ≡ None }
        ensures ok { OnOk result (self.new ≡ self.old ++ name ∷ []) }
        ensures err { OnErr result (self.new ≡ self.old) }
    {
        match self.push_or_return(name) {
            Ok(()) => Ok(()),
            Err(_) => Err(Memory),
        }
    }

    /// Appends a new name, or returns it if memory runs out.
    pub fn push_or_return(&mut self, name: Name) -> Result<(), Name>
        requires { place_of_name name self.old ≡ None }
        ensures ok { OnOk result (self.new ≡ self.old ++ name ∷ []) }
        ensures err { OnErr result (self.new ≡ self.old) }
        ensures given_back { IfErr result (λ back. back ≡ name) }
    {
        // All memory is allocated before the first change.
        let Ok(()) = self.names.reserve(1) else {
            return Err(name);
        };
        let Ok(key) = Vec::from_slice(self.alloc, name.bytes()) else {
            return Err(name);
        };
        let Ok(_) = self.places.insert(key, self.names.len()) else {
            return Err(name);
        };
        self.names.push(name).map_err(|back| back.value)
    }
}
