// Lists, each behind its number of members.
ghost use Rattle.std.specs.Prelude.{◌≡◌, ◌++◌, OnOk};
ghost use Rattle.grammar.specs.Gives.{Gives};
ghost use Rattle.node_record.specs.Parts.{list, list_text, members_text};

use crate::number::{number_of, put_length};
use grammar::{Production, ReadError};
use mur_base::{Bytes, Items, Memory};
use std::alloc::Global;

/// Reads a list. It takes room only for members that are there.
pub fn list_of<'a, P: Production>(
    alloc: Global,
    of: &P,
    bytes: &'a [u8],
) -> Result<(Items<P::Value>, &'a [u8]), ReadError>
    ensures { Gives (λ x. (x.0, x.1.now)) result ((list (P.form of.now)).part.at bytes.now) }
{
    let (count, after) = number_of(bytes)?;
    let mut members = Items::new(alloc);
    let mut rest = after;
    let mut left = count;
    while left > 0 {
        let (member, behind) = of.read(alloc, rest)?;
        members.push(member)?;
        rest = behind;
        left -= 1;
    }
    Ok((members, rest))
}

/// Puts members at the end of bytes, one behind another.
#[tactic(auto, using(std::proofs::lemmas::Grind::common_steps))]
fn put_members<P: Production>(of: &P, members: &[P::Value], out: &mut Bytes) -> Result<(), Memory>
    ensures { OnOk result (out.new ≡ out.old ++ members_text (P.form of.now).text members.now) }
{
    for member in members {
        of.put(member, out)?;
    }
    Ok(())
}

/// Puts a list at the end of bytes.
#[tactic(auto, using(std::proofs::lemmas::Grind::common_steps), unfolding(crate::specs::Parts::list_text))]
pub fn put_list<P: Production>(of: &P, members: &[P::Value], out: &mut Bytes) -> Result<(), Memory>
    ensures { OnOk result (out.new ≡ out.old ++ list_text (P.form of.now).text members.now) }
{
    put_length(members.len(), out)?;
    put_members(of, members, out)
}
