// Texts with a space between each two.
ghost use Rattle.std.specs.Prelude.{◌≡◌, ◌++◌, OnOk};
ghost use Rattle.imap_reply.specs.Spaced.{more_spaced, spaced_text};

use mur_base::{Bytes, Memory};

/// Writes texts with a space between each two.
#[tactic(auto, using(std::proofs::lemmas::Grind::common_steps), unfolding(crate::specs::Spaced::spaced_text))]
pub fn put_spaced(texts: &[Bytes], out: &mut Bytes) -> Result<(), Memory>
    ensures { OnOk result (out.new ≡ out.old ++ spaced_text texts.now) }
{
    match texts {
        [] => Ok(()),
        [text, more @ ..] => {
            out.extend_from_slice(text.as_slice())?;
            put_more_spaced(more, out)
        }
    }
}

/// Writes texts, a space before each.
#[tactic(auto, using(std::proofs::lemmas::Grind::common_steps), unfolding(crate::specs::Spaced::more_spaced))]
fn put_more_spaced(texts: &[Bytes], out: &mut Bytes) -> Result<(), Memory>
    ensures { OnOk result (out.new ≡ out.old ++ more_spaced texts.now) }
{
    for text in texts {
        out.push(b' ')?;
        out.extend_from_slice(text.as_slice())?;
    }
    Ok(())
}
