// Steps of a home of mailboxes.
use crate::operation::op_of;
use crate::outs::put_outs;
use backend_core::{Backend, Held};
use case_base::{Fault, Steps, number_of, parts_of, put_steps};
use link_msg::{FrontAsk, Op, Outs};
use mail_message::{Change, first_acl};
use mur_base::{
    AskId, Bytes, Copied, Location, MailName, Memory, NodeName, Phase, mail_name, node_name,
    user_name,
};
use node_record::{BackendRecord, apply_backend};
use std::alloc::Global;

/// The command for which everything is asked.
const ID: AskId = AskId {
    conn: 7,
    command: 2,
};

/// The home of a case.
#[derive(Drop)]
struct Home {
    backend: Backend,
}

/// Takes steps of a home that begins without mailboxes, and prints what each gives.
pub fn put(alloc: Global, steps: &[&str], out: &mut Bytes) -> Result<(), Fault> {
    let mut home = Home {
        backend: empty(alloc)?,
    };
    put_steps(alloc, &mut home, steps, out)
}

/// A home without mailboxes.
pub fn empty(alloc: Global) -> Result<Backend, Fault> {
    let server = node_name(alloc, b"b1")?;
    let partition = Bytes::from_slice(alloc, b"p1")?;
    Ok(Backend::boot(alloc, Location { server, partition }))
}

impl Steps for Home {
    fn take_step(&mut self, alloc: Global, step: &str, out: &mut Bytes) -> Result<(), Fault> {
        take(alloc, &mut self.backend, step, out)
    }
}

/// Takes a step of a home, and prints what comes of it.
pub fn take(alloc: Global, home: &mut Backend, step: &str, out: &mut Bytes) -> Result<(), Fault> {
    let words = parts_of(alloc, step, " ")?;
    take_words(alloc, home, words.as_slice(), out)
}

fn take_words(
    alloc: Global,
    home: &mut Backend,
    words: &[&str],
    out: &mut Bytes,
) -> Result<(), Fault> {
    match words {
        ["name", name, what @ ..] => {
            take_name(alloc, home, &mail_name(alloc, name.as_bytes())?, what, out)
        }
        _ => put_asked(alloc, home, words, out),
    }
}

/// Makes a mailbox, prints the phase of a name, takes the name away, or gives it another state.
fn take_name(
    alloc: Global,
    home: &mut Backend,
    name: &MailName,
    what: &[&str],
    out: &mut Bytes,
) -> Result<(), Fault> {
    match what {
        ["made", serial] => Ok(make(alloc, home, name, number_of(serial)?)?),
        ["phase"] => put_phase(home, name, out),
        ["gone"] => forget(alloc, home, name, out),
        state => match home.held.get_mut(name) {
            Some(held) => make_so(alloc, held, state),
            None => Err(Fault::Unreadable("no such name here")),
        },
    }
}

fn put_phase(home: &Backend, name: &MailName, out: &mut Bytes) -> Result<(), Fault> {
    Ok(out.extend_from_slice(match home.phase(name) {
        None => b"none",
        Some(Phase::Open) => b"open",
        Some(Phase::Closing) => b"closing",
        Some(Phase::Pointer(_)) => b"pointer",
        Some(_) => b"another",
    })?)
}

/// Takes a name away, and prints how many are left.
fn forget(
    alloc: Global,
    home: &mut Backend,
    name: &MailName,
    out: &mut Bytes,
) -> Result<(), Fault> {
    let _ = home.held.remove(name);
    let left = format!(in alloc; "{} left", home.held.len())?;
    Ok(out.extend_from_slice(left.as_bytes())?)
}

/// Makes a mailbox with this UIDVALIDITY and opens it, by the entries of a backend that the name master lets.
pub fn make(alloc: Global, home: &mut Backend, name: &MailName, serial: u32) -> Result<(), Memory> {
    let acl = first_acl(alloc, name)?;
    let made = BackendRecord::Make(name.copy(alloc)?, serial, acl);
    apply_backend(alloc, &mut home.held, made)?;
    let opened = BackendRecord::Opened(name.copy(alloc)?);
    apply_backend(alloc, &mut home.held, opened)
}

/// Gives a name another phase, or its mailbox another UIDNEXT.
fn make_so(alloc: Global, held: &mut Held, state: &[&str]) -> Result<(), Fault> {
    match state {
        ["closing"] => held.phase = Phase::Closing,
        ["pointer", node] => held.phase = Phase::Pointer(node_name(alloc, node.as_bytes())?),
        ["next", uid] => held.content.apply(Change::NextUid(number_of(uid)?))?,
        _ => return Err(Fault::Unreadable("no such state")),
    }
    Ok(())
}

/// Prints what the home puts out for what a node asks of a mailbox, with the UIDVALIDITY of the one that is selected.
fn put_asked(
    alloc: Global,
    home: &mut Backend,
    words: &[&str],
    out: &mut Bytes,
) -> Result<(), Fault> {
    let [node, name, selected, op @ ..] = words else {
        return Err(Fault::Unreadable("no step"));
    };
    let selected = serial_of(selected)?;
    let name = mail_name(alloc, name.as_bytes())?;
    let ask = ask_of(alloc, name, selected, op_of(alloc, op)?)?;
    let outs = outs_of(alloc, home, node_name(alloc, node.as_bytes())?, ask)?;
    Ok(put_outs(alloc, outs.as_slice(), out)?)
}

/// What the home puts out for an ask of this node.
pub fn outs_of(
    alloc: Global,
    home: &mut Backend,
    from: NodeName,
    ask: FrontAsk,
) -> Result<Outs, Memory> {
    let plan = home.plan(alloc, from, ask)?;
    home.settle(alloc, plan)
}

/// What bob asks of a mailbox.
pub fn ask_of(
    alloc: Global,
    name: MailName,
    selected: Option<u32>,
    op: Op,
) -> Result<FrontAsk, Fault> {
    Ok(FrontAsk {
        id: ID,
        user: user_name(alloc, b"bob")?,
        name,
        selected,
        op,
    })
}

/// The UIDVALIDITY that a field writes; `-` is none.
fn serial_of(field: &str) -> Result<Option<u32>, Fault> {
    match field {
        "-" => Ok(None),
        serial => Ok(Some(number_of(serial)?)),
    }
}
