// Flags: a byte of system flags, and keywords in strictly rising byte order.
ghost use Rattle.std.specs.Prelude.{◌≡◌, ◌<◌, ◌≤◌, ◌∷◌, [], ◌++◌, false, length, None, IfOk, OnOk};
ghost use Rattle.std.specs.List.{AllByRecursion};
ghost use Rattle.std.specs.declared.cmp.Ordering.TheVariants.{Less};
ghost use Rattle.std.specs.Ordering.{nat_cmp};
ghost use Rattle.std.specs.Cmp.Lexicographic.{slice_cmp};
ghost use Rattle.mail_message.specs.SystemFlags.{system_flag_in, with_system_flag};
ghost use Rattle.mail_message.specs.Keywords.{keyword_fault};
ghost use Rattle.grammar.specs.Part.{map};
ghost use Rattle.grammar.specs.Gives.{Gives};
ghost use Rattle.node_record.specs.Parts.{sized_text, members_text};
ghost use Rattle.node_record.specs.Flags.{is_set, if_set, system_byte, flags_of, keywords, flags, flags_text};

use crate::keyword::keyword_of;
use crate::number::{put_length, small_of};
use crate::text::put_text;
use grammar::{Between, ReadError, byte_in};
use mail_message::{FlagFault, FlagName, FlagSet, Keyword, Keywords, SystemFlag, SystemFlags};
use mur_base::{Bytes, Memory};
use std::alloc::Global;

/// Sets a system flag, where its bit is set in a byte.
#[tactic(auto, using(crate::proofs::FlagSteps::bit_is, crate::proofs::FlagSteps::bit_is_not, crate::proofs::FlagSteps::bit_fault))]
fn set_bit(flags: &mut FlagSet, byte: u8, bit: u8, flag: SystemFlag) -> Result<(), Memory>
    requires bare { flags.old.keywords ≡ [] }
    requires clear { system_flag_in flags.old.system flag ≡ false }
    requires some { 0 < bit }
    ensures { OnOk result (flags.new ≡ record flags.old { system = with_system_flag flags.old.system flag (is_set bit byte) }) }
{
    if byte / bit % 2 != 1 {
        return Ok(());
    }
    match flags.insert(FlagName::System(flag)) {
        Ok(()) => Ok(()),
        Err(FlagFault::Memory) => Err(Memory),
        Err(_) => unreachable!(),
    }
}

/// The system flags whose bits are set in a byte.
#[tactic(auto, unfolding(crate::specs::Flags::system_in))]
fn system_flags(alloc: Global, byte: u8) -> Result<FlagSet, Memory>
    ensures { IfOk result (λ made. made ≡ flags_of byte []) }
{
    let mut made = FlagSet::new(alloc);
    set_bit(&mut made, byte, 1, SystemFlag::Answered)?;
    set_bit(&mut made, byte, 2, SystemFlag::Flagged)?;
    set_bit(&mut made, byte, 4, SystemFlag::Deleted)?;
    set_bit(&mut made, byte, 8, SystemFlag::Seen)?;
    set_bit(&mut made, byte, 16, SystemFlag::Draft)?;
    Ok(made)
}

/// Puts one keyword more to flags, which is higher than theirs.
#[tactic(auto, using(crate::proofs::FlagSteps::highest_is, crate::proofs::FlagSteps::highest_fault))]
fn put_highest(flags: &mut FlagSet, text: &[u8]) -> Result<(), Memory>
    requires named { keyword_fault text.now ≡ None }
    requires room { length flags.old.keywords < 16 }
    requires above { AllByRecursion (λ keyword. slice_cmp nat_cmp keyword text.now ≡ Less) flags.old.keywords }
    ensures { OnOk result (flags.new ≡ record flags.old { keywords = flags.old.keywords ++ text.now ∷ [] }) }
{
    match flags.insert(FlagName::Keyword(Keyword::new(text))) {
        Ok(()) => Ok(()),
        Err(FlagFault::Memory) => Err(Memory),
        Err(_) => unreachable!(),
    }
}

/// Reads keywords, and puts them to system flags, in room that is taken once.
fn keywords_of(system: FlagSet, bytes: &[u8]) -> Result<(FlagSet, &[u8]), ReadError>
    requires { system.keywords ≡ [] }
    ensures { Gives (λ x. (x.0, x.1.now)) result ((map (λ texts. record system { keywords = texts }) keywords).at bytes.now) }
{
    let (count, after) = small_of(&Between(0, 16), bytes)?;
    let mut made = system;
    made.reserve(usize::from(count))?;
    let mut before: &[u8] = &[];
    let mut rest = after;
    let mut left = count;
    while left > 0 {
        let (text, behind) = keyword_of(before, left - 1, rest)?;
        put_highest(&mut made, text)?;
        before = text;
        rest = behind;
        left -= 1;
    }
    Ok((made, rest))
}

/// Reads flags.
pub fn flags_of(alloc: Global, bytes: &[u8]) -> Result<(FlagSet, &[u8]), ReadError>
    ensures { Gives (λ x. (x.0, x.1.now)) result (flags.part.at bytes.now) }
{
    let (byte, rest) = byte_in(&Between(0, 31), bytes)?;
    let system = system_flags(alloc, byte)?;
    keywords_of(system, rest)
}

/// A bit, where it is set.
fn bit_if(is_set: bool, bit: u8) -> u8
    ensures value { result ≡ if_set is_set bit }
    ensures within { result ≤ bit }
{
    if is_set { bit } else { 0 }
}

/// The byte of system flags.
#[tactic(auto, unfolding(crate::specs::Flags::system_byte))]
fn system_byte(flags: SystemFlags) -> u8
    ensures { result ≡ system_byte flags }
{
    bit_if(flags.answered, 1)
        + bit_if(flags.flagged, 2)
        + bit_if(flags.deleted, 4)
        + bit_if(flags.seen, 8)
        + bit_if(flags.draft, 16)
}

/// Puts keywords at the end of bytes, one behind another.
#[tactic(auto, using(std::proofs::lemmas::Grind::common_steps))]
fn put_keywords(keywords: &Keywords, out: &mut Bytes) -> Result<(), Memory>
    ensures { OnOk result (out.new ≡ out.old ++ members_text sized_text keywords.now) }
{
    for keyword in keywords.iter() {
        put_text(keyword.as_bytes(), out)?;
    }
    Ok(())
}

/// Puts flags at the end of bytes.
#[tactic(auto, using(std::proofs::lemmas::Grind::common_steps), unfolding(crate::specs::Flags::flags_text, crate::specs::Parts::list_text))]
pub fn put_flags(flags: &FlagSet, out: &mut Bytes) -> Result<(), Memory>
    ensures { OnOk result (out.new ≡ out.old ++ flags_text flags.now) }
{
    out.push(system_byte(flags.system()))?;
    put_length(flags.keywords().len(), out)?;
    put_keywords(flags.keywords(), out)
}
