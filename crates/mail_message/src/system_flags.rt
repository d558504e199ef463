// The system flags of a message.
ghost use Rattle.std.specs.Prelude.{◌≡◌};
ghost use Rattle.mail_message.specs.SystemFlags.{system_flag_in, with_system_flag, system_flags_or, system_flags_but, no_system_flags};

/// A system flag (RFC 9051, 2.3.2).
#[derive(Clone, Copy, Debug, PartialEq, Eq)]
pub enum SystemFlag {
    Answered,
    Flagged,
    Deleted,
    Seen,
    Draft,
}

/// Which system flags a message has.
#[derive(Clone, Copy, Debug, PartialEq, Eq)]
pub struct SystemFlags {
    pub answered: bool,
    pub flagged: bool,
    pub deleted: bool,
    pub seen: bool,
    pub draft: bool,
}

impl SystemFlags {
    /// None of the flags.
    pub fn new() -> SystemFlags
        ensures { result ≡ no_system_flags }
    {
        SystemFlags {
            answered: false,
            flagged: false,
            deleted: false,
            seen: false,
            draft: false,
        }
    }

    pub fn has(self, flag: SystemFlag) -> bool
        ensures { result ≡ system_flag_in self flag }
    {
        match flag {
            SystemFlag::Answered => self.answered,
            SystemFlag::Flagged => self.flagged,
            SystemFlag::Deleted => self.deleted,
            SystemFlag::Seen => self.seen,
            SystemFlag::Draft => self.draft,
        }
    }

    /// The flags with one of them set or taken away.
    pub fn with(self, flag: SystemFlag, is_set: bool) -> SystemFlags
        ensures { result ≡ with_system_flag self flag is_set }
    {
        let mut flags = self;
        match flag {
            SystemFlag::Answered => flags.answered = is_set,
            SystemFlag::Flagged => flags.flagged = is_set,
            SystemFlag::Deleted => flags.deleted = is_set,
            SystemFlag::Seen => flags.seen = is_set,
            SystemFlag::Draft => flags.draft = is_set,
        }
        flags
    }

    /// The flags of either.
    pub fn or(self, others: SystemFlags) -> SystemFlags
        ensures { result ≡ system_flags_or self others }
    {
        SystemFlags {
            answered: self.answered || others.answered,
            flagged: self.flagged || others.flagged,
            deleted: self.deleted || others.deleted,
            seen: self.seen || others.seen,
            draft: self.draft || others.draft,
        }
    }

    /// The flags that the others lack.
    pub fn but(self, others: SystemFlags) -> SystemFlags
        ensures { result ≡ system_flags_but self others }
    {
        SystemFlags {
            answered: self.answered && !others.answered,
            flagged: self.flagged && !others.flagged,
            deleted: self.deleted && !others.deleted,
            seen: self.seen && !others.seen,
            draft: self.draft && !others.draft,
        }
    }
}
