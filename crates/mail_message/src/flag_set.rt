// The flags of a message.
ghost use Rattle.std.specs.Prelude.{◌≡◌, ◌≤◌, ◌↔◌, [], length, IfOk, IfErr, OnOk, OnErr, IsTrue};
ghost use Rattle.mail_message.specs.FlagSets.{no_flags, has_flag, with_flag, without_flag, flags_after, IsMade, now_holding, IsNoRoom, limited};
ghost use Rattle.mail_message.specs.Keywords.{with_keyword};
ghost use Rattle.mail_message.specs.declared.flag_name.FlagFault.TheVariants.{Memory as memory};
ghost use Rattle.mail_message.specs.SameFlags.{is_same_flags};

use crate::flag_name::{FlagFault, FlagName};
use crate::keyword::{Keyword, Keywords};
use crate::mode::Mode;
use crate::system_flags::SystemFlags;
use mur_base::limits::MESSAGE_KEYWORD_LIMIT;
use mur_base::{Copied, Memory};
use std::alloc::Global;
use std::marker::Model;

/// The flags of a message: system flags, and at most 16 keywords in byte order (RFC 9051, 2.3.2).
#[derive(Drop)]
pub struct FlagSet {
    system: SystemFlags,
    keywords: Keywords,
}

impl Model for FlagSet {
    ghost use Rattle.std.specs.Prelude.{◌≤◌, length};
    ghost use Rattle.mur_base.specs.declared.limits.TheConstants.{MESSAGE_KEYWORD_LIMIT as most_keywords};
    ghost use Rattle.mail_message.specs.FlagSets.{Flags};

    ghost Value = { Flags };

    ghost view = { λ set. record { system = set.system; keywords = set.keywords } };

    ghost invariant = { λ set. length set.keywords ≤ most_keywords };
}

impl FlagSet {
    /// No flags. It takes no memory.
    pub fn new(alloc: Global) -> FlagSet
        ensures { result ≡ no_flags }
    {
        FlagSet {
            system: SystemFlags::new(),
            keywords: Keywords::new(alloc),
        }
    }

    pub fn system(&self) -> SystemFlags
        ensures { result ≡ self.now.system }
    {
        self.system
    }

    /// The keywords, in byte order.
    pub fn keywords(&self) -> &Keywords
        ensures { result.now ≡ self.now.keywords }
    {
        &self.keywords
    }

    pub fn has(&self, flag: &FlagName) -> bool
        ensures { result ≡ has_flag self.now flag.now }
    {
        match flag {
            FlagName::System(flag) => self.system.has(*flag),
            FlagName::Keyword(keyword) => self.keywords.contains(keyword),
        }
    }

    /// Whether the flags are the same as sets, whatever they were made of.
    pub fn is_same(&self, others: &FlagSet) -> bool
        ensures { result ≡ is_same_flags self.now others.now }
    {
        are_same(self, others)
    }

    /// Takes room for so many keywords more, so that they are put in without another allocation.
    pub fn reserve(&mut self, more: usize) -> Result<(), Memory>
        ensures { self.new ≡ self.old }
    {
        self.keywords.reserve(more)
    }

    /// Puts a flag in. `TooMany` exactly where it would be a 17th keyword; where it is refused, the flags stay as they were.
    pub fn insert(&mut self, flag: FlagName) -> Result<(), FlagFault>
        ensures made { IsMade (with_flag self.old flag) (now_holding self.new result) }
        ensures err { OnErr result (self.new ≡ self.old) }
    {
        match flag {
            FlagName::System(flag) => {
                self.system = self.system.with(flag, true);
                Ok(())
            }
            FlagName::Keyword(keyword) => put_keyword(&mut self.keywords, keyword),
        }
    }

    /// The flags and this one. `TooMany` exactly where it would be a 17th keyword.
    pub fn with(&self, alloc: Global, flag: &FlagName) -> Result<FlagSet, FlagFault>
        ensures { IsMade (with_flag self.now flag.now) result }
    {
        let mut keywords = self.keywords.copy(alloc)?;
        let mut system = self.system;
        match flag {
            FlagName::System(flag) => system = system.with(*flag, true),
            FlagName::Keyword(keyword) => keywords.insert(keyword.copy(alloc)?)?,
        }
        limited(system, keywords)
    }

    /// The flags without this one.
    pub fn without(&self, alloc: Global, flag: &FlagName) -> Result<FlagSet, Memory>
        ensures { IfOk result (λ flags. flags ≡ without_flag self.now flag.now) }
    {
        let mut keywords = self.keywords.copy(alloc)?;
        let mut system = self.system;
        match flag {
            FlagName::System(flag) => system = system.with(*flag, false),
            FlagName::Keyword(keyword) => keywords.remove(keyword),
        }
        Ok(FlagSet { system, keywords })
    }

    /// What a STORE of some flags makes of these. `TooMany` exactly where there would be more than 16 keywords, so never for flags
    /// that are no keywords.
    pub fn after(&self, alloc: Global, mode: Mode, flags: &FlagSet) -> Result<FlagSet, FlagFault>
        ensures made { IsMade (flags_after mode self.now flags.now) result }
        ensures system { flags.now.keywords ≡ [] → IfErr result (λ fault. fault ≡ memory) }
    {
        match mode {
            Mode::Replace => Ok(flags.copy(alloc)?),
            Mode::Add => limited(
                self.system.or(flags.system),
                self.keywords.with_all(alloc, &flags.keywords)?,
            ),
            Mode::Remove => Ok(FlagSet {
                system: self.system.but(flags.system),
                keywords: self.keywords.without_all(alloc, &flags.keywords)?,
            }),
        }
    }
}

impl Copied for FlagSet {
    fn copy(&self, alloc: Global) -> Result<FlagSet, Memory> {
        Ok(FlagSet {
            system: self.system,
            keywords: self.keywords.copy(alloc)?,
        })
    }
}

/// Puts a keyword to those of a message, if there is room.
fn put_keyword(keywords: &mut Keywords, keyword: Keyword) -> Result<(), FlagFault>
    requires { length keywords.old ≤ MESSAGE_KEYWORD_LIMIT }
    ensures ok { OnOk result (keywords.new ≡ with_keyword keywords.old keyword) }
    ensures err { OnErr result (keywords.new ≡ keywords.old) }
    ensures room { length keywords.new ≤ MESSAGE_KEYWORD_LIMIT }
    ensures fault { IfErr result (IsNoRoom (with_keyword keywords.old keyword)) }
{
    if !keywords.has_room(&keyword, MESSAGE_KEYWORD_LIMIT) {
        return Err(FlagFault::TooMany);
    }
    Ok(keywords.insert(keyword)?)
}

/// Whether flags are the same; sets of keywords are compared only if there are some.
fn are_same(one: &FlagSet, others: &FlagSet) -> bool
    ensures { IsTrue result ↔ (one.now ≡ others.now) }
{
    if one.keywords.len() == 0 && others.keywords.len() == 0 {
        return one.system == others.system;
    }
    one.system == others.system && one.keywords.is_same(&others.keywords)
}

fn limited(system: SystemFlags, keywords: Keywords) -> Result<FlagSet, FlagFault>
    ensures { result ≡ limited (record { system = system; keywords = keywords }) }
{
    if keywords.len() > MESSAGE_KEYWORD_LIMIT {
        return Err(FlagFault::TooMany);
    }
    Ok(FlagSet { system, keywords })
}
