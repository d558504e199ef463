// Keywords, and sets of them in byte order.
ghost use Rattle.std.specs.Prelude.{◌≡◌, ◌≤◌, ◌↔◌, [], length, nat_le, None, IfOk, OnOk, OnErr, IsTrue};
ghost use Rattle.std.specs.Slice.Iter.{iter_rest};
ghost use Rattle.mail_message.specs.Keywords.{keyword_fault, keyword_of, is_atom_byte, has_atom_bytes, keyword_in};
ghost use Rattle.mail_message.specs.Keywords.{with_keyword, without_keyword, with_keywords, without_keywords, AreSortedKeywords};

use arrayvec::ArrayVec;
use mur_base::limits::KEYWORD_LIMIT;
use mur_base::{Copied, Memory, NameFault};
use std::alloc::Global;
use std::cmp::Ordering;
use std::marker::Model;
use std::slice;

/// A keyword of a message: an atom of 1 to 64 bytes, which lie in the value itself (RFC 9051, 9: flag-keyword). Keywords are
/// compared byte by byte.
#[derive(Drop)]
pub struct Keyword {
    text: ArrayVec<u8, KEYWORD_LIMIT>,
}

impl Model for Keyword {
    ghost use Rattle.std.specs.Prelude.{◌≡◌, List, ℕ, None};
    ghost use Rattle.mail_message.specs.Keywords.{keyword_fault};

    ghost Value = { List ℕ };

    ghost view = { λ keyword. keyword.text.items };

    ghost invariant = { λ keyword. keyword_fault keyword.text.items ≡ None };
}

impl Keyword {
    /// The keyword of a text that breaks no rule of keywords.
    pub fn new(text: &[u8]) -> Keyword
        requires { keyword_fault text.now ≡ None }
        ensures { result ≡ text.now }
    {
        match ArrayVec::try_from(text) {
            Ok(text) => Keyword { text },
            Err(_) => unreachable!(),
        }
    }

    /// The keyword that a text is, refused by the first rule that it breaks.
    pub fn read(text: &[u8]) -> Result<Keyword, NameFault>
        ensures { result ≡ keyword_of text.now }
    {
        match keyword_fault(text) {
            Some(fault) => Err(fault),
            None => Ok(Keyword::new(text)),
        }
    }

    pub fn as_bytes(&self) -> &[u8]
        ensures text { result.now ≡ self.now }
        ensures named { keyword_fault self.now ≡ None }
    {
        self.text.as_slice()
    }
}

impl Copied for Keyword {
    fn copy(&self, _alloc: Global) -> Result<Keyword, Memory> {
        Ok(Keyword::new(self.as_bytes()))
    }
}

impl PartialEq for Keyword {
    ghost use Rattle.std.specs.Prelude.{nat_eq};
    ghost use Rattle.std.specs.Cmp.{partial_equiv_from_equiv};
    ghost use Rattle.std.specs.Cmp.Lexicographic.{nat_list_eq_equiv, pointwise};

    ghost eq = { pointwise nat_eq };

    ghost laws = { partial_equiv_from_equiv nat_list_eq_equiv };

    fn eq(&self, other: &Keyword) -> bool {
        self.as_bytes() == other.as_bytes()
    }
}

impl Eq for Keyword {
    ghost use Rattle.std.specs.Cmp.Lexicographic.{nat_list_eq_equiv};

    ghost laws = { nat_list_eq_equiv };
}

impl PartialOrd for Keyword {
    ghost use Rattle.std.specs.Prelude.{Some};
    ghost use Rattle.std.specs.Ordering.{nat_cmp};
    ghost use Rattle.std.specs.Cmp.Lexicographic.{slice_cmp, texts_po};

    ghost partial_cmp = { λ x y. Some (slice_cmp nat_cmp x y) };

    ghost laws = { texts_po };

    fn partial_cmp(&self, other: &Keyword) -> Option<Ordering> {
        Some(self.cmp(other))
    }
}

impl Ord for Keyword {
    ghost use Rattle.std.specs.Prelude.{refl};
    ghost use Rattle.std.specs.Ordering.{nat_cmp};
    ghost use Rattle.std.specs.Cmp.Lexicographic.{slice_cmp, nat_list_cmp_total, texts_ties};

    ghost cmp = { slice_cmp nat_cmp };

    ghost total = { nat_list_cmp_total };

    ghost matches_partial_cmp = { λ x y. refl };

    ghost matches_eq = { texts_ties };

    fn cmp(&self, other: &Keyword) -> Ordering {
        self.as_bytes().cmp(other.as_bytes())
    }
}

#[tactic(auto, unfolding(crate::specs::Keywords::keyword_fault))]
fn keyword_fault(text: &[u8]) -> Option<NameFault>
    ensures { result ≡ keyword_fault text.now }
{
    if text.is_empty() {
        Some(NameFault::Empty)
    } else if text.len() > KEYWORD_LIMIT {
        Some(NameFault::TooLong)
    } else if !is_atom(text) {
        Some(NameFault::BadByte)
    } else {
        None
    }
}

#[tactic(auto, unfolding(crate::specs::Keywords::has_atom_bytes))]
fn is_atom(text: &[u8]) -> bool
    ensures { result ≡ has_atom_bytes text.now }
{
    text.iter().all(|byte| is_atom_byte(*byte))
}

#[tactic(auto, unfolding(crate::specs::Keywords::is_atom_byte))]
fn is_atom_byte(byte: u8) -> bool
    ensures { result ≡ is_atom_byte byte }
{
    matches!(byte, b'!'..=b'~')
        && !matches!(byte, b'(' | b')' | b'{' | b'%' | b'*' | b'"' | b'\\' | b']')
}

/// A set of keywords in byte order. The empty one takes no memory, and a copy of another one allocation.
#[derive(Drop)]
pub struct Keywords {
    list: Vec<Keyword>,
}

impl Model for Keywords {
    ghost use Rattle.std.specs.Prelude.{List, ℕ};
    ghost use Rattle.mail_message.specs.Keywords.{AreSortedKeywords};

    ghost Value = { List (List ℕ) };

    ghost view = { λ keywords. keywords.list.items };

    ghost invariant = { λ keywords. AreSortedKeywords keywords.list.items };
}

impl Keywords {
    pub fn new(alloc: Global) -> Keywords
        ensures { result ≡ [] }
    {
        Keywords {
            list: Vec::new(alloc),
        }
    }

    pub fn len(&self) -> usize
        ensures { result ≡ length self.now }
    {
        self.list.len()
    }

    pub fn contains(&self, keyword: &Keyword) -> bool
        ensures value { result ≡ keyword_in self.now keyword.now }
        ensures ordered { AreSortedKeywords self.now }
    {
        self.list.binary_search(keyword).is_ok()
    }

    /// Whether there are at most so many keywords with this one.
    pub fn has_room(&self, keyword: &Keyword, most: usize) -> bool
        ensures { result ≡ nat_le (length (with_keyword self.now keyword.now)) most }
    {
        if self.contains(keyword) {
            return self.len() <= most;
        }
        self.len() < most
    }

    /// The keywords in byte order.
    pub fn iter(&self) -> slice::Iter<'_, Keyword>
        ensures rest { iter_rest result ≡ self.now }
        ensures ordered { AreSortedKeywords self.now }
    {
        self.list.iter()
    }

    /// Whether the other set has just these keywords, byte by byte.
    pub fn is_same(&self, others: &Keywords) -> bool
        ensures { IsTrue result ↔ (self.now ≡ others.now) }
    {
        self.list == others.list
    }

    /// Takes room for so many keywords more, so that they are put in without another allocation.
    pub fn reserve(&mut self, more: usize) -> Result<(), Memory>
        ensures { self.new ≡ self.old }
    {
        self.list.reserve_exact(more)?;
        Ok(())
    }

    /// Puts a keyword in, unless it is there; for want of memory the set stays as it was.
    pub fn insert(&mut self, keyword: Keyword) -> Result<(), Memory>
        ensures ok { OnOk result (self.new ≡ with_keyword self.old keyword) }
        ensures err { OnErr result (self.new ≡ self.old) }
    {
        match self.list.binary_search(&keyword) {
            Ok(_) => Ok(()),
            Err(place) => Ok(self.list.insert(place, keyword)?),
        }
    }

    /// Takes a keyword out, if it is there.
    pub fn remove(&mut self, keyword: &Keyword)
        ensures value { self.new ≡ without_keyword self.old keyword.now }
        ensures fewer { length self.new ≤ length self.old }
    {
        match self.list.binary_search(keyword) {
            Ok(place) => {
                let _ = self.list.remove(place);
            }
            Err(_) => {}
        }
    }

    /// The keywords of both sets.
    pub fn with_all(&self, alloc: Global, others: &Keywords) -> Result<Keywords, Memory>
        ensures { IfOk result (λ all. all ≡ with_keywords self.now others.now) }
    {
        let mut all = self.copy_with_room(alloc, others.len())?;
        for keyword in others.iter() {
            all.insert(keyword.copy(alloc)?)?;
        }
        Ok(all)
    }

    /// The keywords that the other set lacks.
    pub fn without_all(&self, alloc: Global, others: &Keywords) -> Result<Keywords, Memory>
        ensures value { IfOk result (λ left. left ≡ without_keywords self.now others.now) }
        ensures fewer { IfOk result (λ left. length left ≤ length self.now) }
    {
        let mut left = self.copy(alloc)?;
        for keyword in others.iter() {
            left.remove(keyword);
        }
        if left.len() == 0 {
            return Ok(Keywords::new(alloc));
        }
        Ok(left)
    }

    /// A copy with room for so many keywords more.
    fn copy_with_room(&self, alloc: Global, more: usize) -> Result<Keywords, Memory>
        ensures { IfOk result (λ copy. copy ≡ self.now) }
    {
        let mut list = Vec::with_capacity(alloc, self.len().saturating_add(more))?;
        for keyword in &self.list {
            list.push(keyword.copy(alloc)?)?;
        }
        Ok(Keywords { list })
    }
}

impl Copied for Keywords {
    fn copy(&self, alloc: Global) -> Result<Keywords, Memory> {
        self.copy_with_room(alloc, 0)
    }
}
