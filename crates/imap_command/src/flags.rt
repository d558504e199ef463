// Flags (RFC 9051, 9: flag-list).
ghost use Rattle.std.specs.Prelude.{◌≡◌, ◌≤◌, ◌==◌, ◌++◌, true, OnOk, IfOk, map};
ghost use Rattle.std.specs.List.{list_all};
ghost use Rattle.mur_base.specs.Ascii.{space};
ghost use Rattle.grammar.specs.Forms.{more_text, list_text};
ghost use Rattle.grammar.specs.Gives.{Finds, Gives};
ghost use Rattle.grammar.specs.Words.{word};
ghost use Rattle.mail_message.specs.Keywords.{is_atom_byte};
ghost use Rattle.mail_message.specs.declared.flag_name.FlagName.TheVariants.{Keyword as named};
ghost use Rattle.imap_command.specs.Flags.{system_flag, any_keyword, is_full, keywords_beside, put_flag, flag, some_flags, flag_list_part};
ghost use Rattle.imap_command.specs.Flags.{store_flags_part, text_if, system_texts, flag_list_text};

use grammar::{
    Class, Members, Only, ReadError, RunUpTo, Stop, Turn, begins, byte_of, repeated_of, table_of,
    word_of,
};
use imap_text::{are_all, system_name};
use mail_message::{FlagFault, FlagName, FlagSet, Keyword, Keywords, SystemFlag, SystemFlags};
use mur_base::limits::{KEYWORD_LIMIT, MESSAGE_KEYWORD_LIMIT};
use mur_base::{Bytes, Items, Memory};
use std::alloc::Global;

/// A byte of a keyword.
#[derive(Clone, Copy)]
struct KeywordByte;

impl Class for KeywordByte {
    ghost test = { λ _. is_atom_byte };

    #[tactic(auto, unfolding(mail_message::specs::Keywords::is_atom_byte))]
    fn holds(&self, byte: u8) -> bool {
        matches!(byte, b'!'..=b'~')
            && !matches!(byte, b'(' | b')' | b'{' | b'%' | b'*' | b'"' | b'\\' | b']')
    }
}

/// The system flags.
const SYSTEM_ROWS: [(&[u8], SystemFlag); 5] = [
    (b"Answered", SystemFlag::Answered),
    (b"Flagged", SystemFlag::Flagged),
    (b"Deleted", SystemFlag::Deleted),
    (b"Seen", SystemFlag::Seen),
    (b"Draft", SystemFlag::Draft),
];

/// Reads a system flag.
fn system_flag_of(bytes: &[u8]) -> Result<(SystemFlag, &[u8]), Stop>
    ensures { Finds (λ x. (x.0, x.1.now)) result (system_flag.part.at bytes.now) }
{
    let rest = byte_of(b'\\', bytes)?;
    table_of(SystemFlag::Answered, &SYSTEM_ROWS, rest)
}

/// The texts of keywords, in their order.
fn texts_of<'k>(alloc: Global, keywords: &'k Keywords) -> Result<Items<&'k [u8]>, Memory>
    ensures { IfOk result (λ texts. map (λ text. text.now) texts ≡ keywords.now) }
{
    let mut texts = Items::new(alloc);
    for keyword in keywords.iter() {
        texts.push(keyword.as_bytes())?;
    }
    Ok(texts)
}

/// Whether a text is a keyword.
fn is_keyword(text: &[u8]) -> bool
    ensures { result ≡ any_keyword.whole text.now }
{
    are_all(&KeywordByte, text) && text.len() <= KEYWORD_LIMIT && !text.is_empty()
}

fn are_keywords(texts: &[&[u8]]) -> bool
    ensures { result ≡ list_all any_keyword.whole (map (λ text. text.now) texts.now) }
{
    for text in texts {
        if !is_keyword(text) {
            return false;
        }
    }
    true
}

/// Whether there are so many keywords that no other may stand beside them.
fn is_full(texts: &[&[u8]]) -> bool
    ensures { result ≡ is_full (map (λ text. text.now) texts.now) }
{
    texts.len() >= MESSAGE_KEYWORD_LIMIT && are_keywords(texts)
}

/// Reads the text of a keyword that may stand beside others.
#[tactic(auto, using(crate::proofs::FlagsLaw::member_is_keyword))]
fn keyword_text<'a>(texts: &[&[u8]], bytes: &'a [u8]) -> Result<(&'a [u8], &'a [u8]), Stop>
    ensures reads { Finds (λ x. (x.0.now, x.1.now)) result ((word (keywords_beside (map (λ text. text.now) texts.now))).at bytes.now) }
    ensures keyword { IfOk result (λ x. any_keyword.whole x.0.now ≡ true) }
{
    if is_full(texts) {
        let (text, rest) = word_of(
            &Members {
                of: KeywordByte,
                texts,
            },
            bytes,
        )?;
        Ok((text, rest))
    } else {
        word_of(
            &RunUpTo {
                of: KeywordByte,
                most: KEYWORD_LIMIT,
            },
            bytes,
        )
    }
}

/// The keyword that a text is.
#[tactic(auto, using(crate::proofs::FlagSteps::no_fault))]
fn keyword_named(text: &[u8]) -> Keyword
    requires { any_keyword.whole text.now ≡ true }
    ensures { result ≡ text.now }
{
    Keyword::new(text)
}

/// Reads a keyword that stands alone.
pub fn lone_keyword_of(bytes: &[u8]) -> Result<(Keyword, &[u8]), Stop>
    ensures { Finds (λ x. (x.0, x.1.now)) result ((word any_keyword).at bytes.now) }
{
    let (text, rest) = word_of(
        &RunUpTo {
            of: KeywordByte,
            most: KEYWORD_LIMIT,
        },
        bytes,
    )?;
    Ok((keyword_named(text), rest))
}

/// Reads a keyword that may stand beside others. Only where they are many, the keyword has to be one of them.
#[tactic(auto, using(crate::proofs::FlagSteps::beside_few))]
fn keyword_of<'a>(
    alloc: Global,
    known: &Keywords,
    bytes: &'a [u8],
) -> Result<(Keyword, &'a [u8]), ReadError>
    ensures { Gives (λ x. (x.0, x.1.now)) result ((word (keywords_beside known.now)).at bytes.now) }
{
    if known.len() < MESSAGE_KEYWORD_LIMIT {
        return Ok(lone_keyword_of(bytes)?);
    }
    let texts = texts_of(alloc, known)?;
    let (text, rest) = keyword_text(texts.as_slice(), bytes)?;
    Ok((keyword_named(text), rest))
}

/// Puts a flag to others, where there is room for it.
#[tactic(auto, using(crate::proofs::FlagSteps::made_is, crate::proofs::FlagSteps::no_room))]
fn put_flag(flags: &mut FlagSet, name: FlagName) -> Result<(), Memory>
    ensures { OnOk result (flags.new ≡ put_flag flags.old name) }
{
    match flags.insert(name) {
        Ok(()) => Ok(()),
        Err(FlagFault::TooMany) => Ok(()),
        Err(FlagFault::Memory) => Err(Memory),
        Err(_) => unreachable!(),
    }
}

/// How many keywords a list has at most whose further flags are these: one, and one for each space before the list's end.
fn most_keywords(rest: &[u8]) -> usize
    ensures { result ≤ MESSAGE_KEYWORD_LIMIT }
{
    let mut most = 1;
    for byte in rest {
        if *byte == b')' || most >= MESSAGE_KEYWORD_LIMIT {
            break;
        }
        if *byte == b' ' {
            most += 1;
        }
    }
    most
}

/// Puts a keyword to flags. The first one takes the room of all that may follow.
fn put_keyword(flags: &mut FlagSet, keyword: Keyword, rest: &[u8]) -> Result<(), Memory>
    ensures { OnOk result (flags.new ≡ put_flag flags.old (named keyword)) }
{
    if flags.keywords().len() == 0 {
        flags.reserve(most_keywords(rest))?;
    }
    put_flag(flags, FlagName::Keyword(keyword))
}

/// Reads a flag, and puts it to others.
#[tactic(auto, unfolding(crate::specs::Flags::flag))]
fn flag_of(alloc: Global, so_far: FlagSet, bytes: &[u8]) -> Result<(FlagSet, &[u8]), ReadError>
    ensures { Gives (λ x. (x.0, x.1.now)) result ((flag so_far).at bytes.now) }
{
    let mut flags = so_far;
    if begins(&Only(b'\\'), bytes) {
        let (system, rest) = system_flag_of(bytes)?;
        put_flag(&mut flags, FlagName::System(system))?;
        Ok((flags, rest))
    } else {
        let (keyword, rest) = keyword_of(alloc, flags.keywords(), bytes)?;
        put_keyword(&mut flags, keyword, rest)?;
        Ok((flags, rest))
    }
}

/// Flags, one behind another.
#[derive(Clone, Copy)]
struct MoreFlags {
    alloc: Global,
}

impl Turn for MoreFlags {
    type State = FlagSet;

    ghost use Rattle.mur_base.specs.Ascii.{space};
    ghost use Rattle.grammar.specs.Part.{spaced};

    ghost starts = { λ _ c. c == space };

    ghost part = { λ _. spaced flag };

    fn starts(&self, byte: u8) -> bool {
        byte == b' '
    }

    fn turn<'a>(&self, state: FlagSet, bytes: &'a [u8]) -> Result<(FlagSet, &'a [u8]), ReadError> {
        let rest = byte_of(b' ', bytes)?;
        flag_of(self.alloc, state, rest)
    }
}

/// Reads flags that stand bare.
#[tactic(auto, unfolding(crate::specs::Flags::some_flags))]
fn some_flags_of(alloc: Global, bytes: &[u8]) -> Result<(FlagSet, &[u8]), ReadError>
    ensures { Gives (λ x. (x.0, x.1.now)) result (some_flags.at bytes.now) }
{
    let (first, rest) = flag_of(alloc, FlagSet::new(alloc), bytes)?;
    repeated_of(&MoreFlags { alloc }, first, rest)
}

/// Reads flags in parentheses.
#[tactic(auto, unfolding(crate::specs::Flags::flag_list_part))]
pub fn flag_list_of(alloc: Global, bytes: &[u8]) -> Result<(FlagSet, &[u8]), ReadError>
    ensures { Gives (λ x. (x.0, x.1.now)) result (flag_list_part.at bytes.now) }
{
    let rest = byte_of(b'(', bytes)?;
    if begins(&Only(b')'), rest) {
        let rest = byte_of(b')', rest)?;
        Ok((FlagSet::new(alloc), rest))
    } else {
        let (flags, rest) = some_flags_of(alloc, rest)?;
        let rest = byte_of(b')', rest)?;
        Ok((flags, rest))
    }
}

/// Reads the flags of a STORE.
#[tactic(auto, unfolding(crate::specs::Flags::store_flags_part))]
pub fn store_flags_of(alloc: Global, bytes: &[u8]) -> Result<(FlagSet, &[u8]), ReadError>
    ensures { Gives (λ x. (x.0, x.1.now)) result (store_flags_part.at bytes.now) }
{
    if begins(&Only(b'('), bytes) {
        flag_list_of(alloc, bytes)
    } else {
        some_flags_of(alloc, bytes)
    }
}

/// Puts the name of a system flag behind texts, where it is set.
#[tactic(auto, using(std::proofs::lemmas::Grind::common_steps))]
fn push_if(is_set: bool, flag: SystemFlag, texts: &mut Items<&[u8]>) -> Result<(), Memory>
    ensures { OnOk result (map (λ text. text.now) texts.new ≡ map (λ text. text.now) texts.old ++ text_if is_set flag) }
{
    if is_set {
        texts.push(system_name(flag))
    } else {
        Ok(())
    }
}

/// The names of the system flags that are set.
#[tactic(auto, using(std::proofs::lemmas::Grind::common_steps))]
fn system_texts<'k>(alloc: Global, flags: SystemFlags) -> Result<Items<&'k [u8]>, Memory>
    ensures { IfOk result (λ texts. map (λ text. text.now) texts ≡ system_texts flags) }
{
    let mut texts = Items::new(alloc);
    push_if(flags.answered, SystemFlag::Answered, &mut texts)?;
    push_if(flags.flagged, SystemFlag::Flagged, &mut texts)?;
    push_if(flags.deleted, SystemFlag::Deleted, &mut texts)?;
    push_if(flags.seen, SystemFlag::Seen, &mut texts)?;
    push_if(flags.draft, SystemFlag::Draft, &mut texts)?;
    Ok(texts)
}

/// Prints texts, a space before each.
#[tactic(auto, using(std::proofs::lemmas::Grind::common_steps))]
fn put_more_texts(texts: &[&[u8]], out: &mut Bytes) -> Result<(), Memory>
    ensures { OnOk result (out.new ≡ out.old ++ more_text space (λ text. text) (map (λ text. text.now) texts.now)) }
{
    for text in texts {
        out.push(b' ')?;
        out.extend_from_slice(text)?;
    }
    Ok(())
}

/// Prints texts, a space between any two.
#[tactic(auto, using(std::proofs::lemmas::Grind::common_steps))]
fn put_texts(texts: &[&[u8]], out: &mut Bytes) -> Result<(), Memory>
    ensures { OnOk result (out.new ≡ out.old ++ list_text space (λ text. text) (map (λ text. text.now) texts.now)) }
{
    match texts {
        [] => Ok(()),
        [text, more @ ..] => {
            out.extend_from_slice(text)?;
            put_more_texts(more, out)
        }
    }
}

/// The names of flags: of the system flags, and keywords.
fn flag_texts<'k>(alloc: Global, flags: &'k FlagSet) -> Result<Items<&'k [u8]>, Memory>
    ensures { IfOk result (λ texts. map (λ text. text.now) texts ≡ system_texts flags.now.system ++ flags.now.keywords) }
{
    let mut texts = system_texts(alloc, flags.system())?;
    for keyword in flags.keywords().iter() {
        texts.push(keyword.as_bytes())?;
    }
    Ok(texts)
}

/// Prints flags in parentheses.
#[tactic(auto, using(std::proofs::lemmas::Grind::common_steps))]
pub fn put_flags(alloc: Global, flags: &FlagSet, out: &mut Bytes) -> Result<(), Memory>
    ensures { OnOk result (out.new ≡ out.old ++ flag_list_text flags.now) }
{
    let texts = flag_texts(alloc, flags)?;
    out.push(b'(')?;
    put_texts(texts.as_slice(), out)?;
    out.push(b')')
}
