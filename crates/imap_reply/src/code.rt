// Response codes of a tagged OK (RFC 9051, 7.1).
ghost use Rattle.std.specs.Prelude.{◌≡◌, ◌++◌, OnOk};
ghost use Rattle.imap_reply.specs.Codes.{appended_text, copied_text, code_text};

use crate::sets::put_set;
use imap_types::Code;
use mur_base::{Bytes, Memory, put_number};

/// Writes a response code with its space, if there is one.
#[tactic(auto, unfolding(crate::specs::Codes::code_text))]
pub fn put_code(code: &Code, out: &mut Bytes) -> Result<(), Memory>
    ensures { OnOk result (out.new ≡ out.old ++ code_text code.now) }
{
    match code {
        Code::None => Ok(()),
        Code::AppendUid(serial, uid) => put_append_uid(u64::from(*serial), u64::from(*uid), out),
        Code::CopyUid(serial, uids, copies) => {
            put_copy_uid(u64::from(*serial), uids.as_slice(), copies.as_slice(), out)
        }
        Code::ExpungeIssued => out.extend_from_slice(b"[EXPUNGEISSUED] "),
        Code::ReadWrite => out.extend_from_slice(b"[READ-WRITE] "),
        Code::ReadOnly => out.extend_from_slice(b"[READ-ONLY] "),
    }
}

#[tactic(auto, using(std::proofs::lemmas::Grind::common_steps))]
fn put_append_uid(serial: u64, uid: u64, out: &mut Bytes) -> Result<(), Memory>
    ensures { OnOk result (out.new ≡ out.old ++ appended_text serial uid) }
{
    out.extend_from_slice(b"[APPENDUID ")?;
    put_number(serial, out)?;
    out.push(b' ')?;
    put_number(uid, out)?;
    out.extend_from_slice(b"] ")
}

#[tactic(auto, using(std::proofs::lemmas::Grind::common_steps))]
fn put_copy_uid(serial: u64, uids: &[u32], copies: &[u32], out: &mut Bytes) -> Result<(), Memory>
    ensures { OnOk result (out.new ≡ out.old ++ copied_text serial uids.now copies.now) }
{
    out.extend_from_slice(b"[COPYUID ")?;
    put_number(serial, out)?;
    out.push(b' ')?;
    put_set(uids, out)?;
    out.push(b' ')?;
    put_set(copies, out)?;
    out.extend_from_slice(b"] ")
}
