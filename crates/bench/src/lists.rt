// Answers LIST for an administrator: 1,000 of 4,096 names, by a pattern that finds mailboxes alone and by one that looks at each level above them
// too. Beside each stands the printing of its lines. It fails where the answer takes more than 20 times as long.
use crate::fault::Fault;
use crate::task::Task;
use crate::times::{Cost, Which, Work, print_times};
use imap_reply::write;
use mur_base::{Bytes, Items, MailName, mail_name, put_number, user_name};
use mur_model::{Gathered, Listing, Reply, ReplyLines, Tag, Verdict};
use name_listing::Pattern;
use std::alloc::Global;

/// How many mailboxes there are: as many as there may be.
const NAMES: u32 = 4_096;

/// How many of them match.
const MATCHING: u32 = 1_000;

/// How many times as long as the printing an answer may take.
const MOST: u128 = 20;

/// A LIST that is answered.
#[derive(Clone, Copy)]
struct Load {
    name: &'static str,
    pattern: &'static [u8],
}

static LOADS: [Load; 2] = [
    Load {
        name: "LIST box.* of 4,096 names",
        pattern: b"box.*",
    },
    Load {
        name: "LIST box.% of 4,096 names",
        pattern: b"box.%",
    },
];

/// The first level of a name.
fn level_of(number: u32) -> &'static [u8] {
    if number < MATCHING { b"box." } else { b"user." }
}

/// A mailbox name for each number, in byte order.
fn name_of(alloc: Global, number: u32) -> Result<MailName, Fault> {
    let mut text = Bytes::from_slice(alloc, level_of(number))?;
    put_number(u64::from(number.wrapping_add(1_000)), &mut text)?;
    match mail_name(alloc, text.as_slice()) {
        Ok(name) => Ok(name),
        Err(_) => Err(Fault::Missing),
    }
}

/// What a LIST of an administrator asks for.
fn listing_of(alloc: Global, load: Load) -> Result<Listing, Fault> {
    let Ok(user) = user_name(alloc, b"adm") else {
        return Err(Fault::Missing);
    };
    Ok(Listing {
        user,
        is_admin: true,
        pattern: Pattern::of(alloc, b"", load.pattern)?,
    })
}

/// A LIST, the names of all mailboxes, and the reply.
#[derive(Drop)]
struct Answering {
    alloc: Global,
    listing: Listing,
    names: Items<MailName>,
    tag: Tag,
    reply: Reply,
}

impl Answering {
    /// Before there are names and lines.
    fn new(alloc: Global, load: Load) -> Result<Answering, Fault> {
        let tag = Bytes::from_slice(alloc, b"a1")?;
        Ok(Answering {
            alloc,
            listing: listing_of(alloc, load)?,
            names: Items::new(alloc),
            tag: Tag::Text(tag),
            reply: Reply {
                lines: ReplyLines::new(alloc),
                verdict: Verdict::Nothing,
            },
        })
    }
}

impl Work for Answering {
    fn prepare(&mut self) -> Result<(), Fault> {
        for number in 0..NAMES {
            self.names.push(name_of(self.alloc, number)?)?;
        }
        Ok(())
    }

    /// Answers, and gives how many lines the reply has.
    fn done(&mut self) -> Result<u64, Fault> {
        self.reply = answered(self.alloc, &self.listing, self.names.as_slice())?;
        Ok(self.reply.lines.len() as u64)
    }

    /// Prints the reply, and gives how many bytes it has.
    fn plain(&mut self, _done: u64) -> Result<u64, Fault> {
        let mut out = Bytes::new(self.alloc);
        write(&self.tag, &self.reply, &mut out)?;
        Ok(out.len() as u64)
    }
}

/// What a LIST is answered, where there are these mailboxes.
fn answered(alloc: Global, listing: &Listing, names: &[MailName]) -> Result<Reply, Fault> {
    let mut gathered = Gathered::new(alloc);
    for name in names {
        gathered.put(alloc, listing, name)?;
    }
    Ok(listing.reply(alloc, &gathered)?)
}

fn cost_of(rt: &HostRuntime, load: Load, rounds: u32) -> Result<Cost, Fault> {
    let answering = Answering::new(rt.alloc(), load)?;
    Cost::of(rt, Which::Thread, answering, rounds)
}

fn print_counts(rt: &HostRuntime, name: &str, cost: Cost) -> Result<(), Fault> {
    let (lines, bytes) = (cost.done, cost.plain);
    Ok(println!(rt; "{name}: {lines} lines, {bytes} bytes")?)
}

fn print(rt: &HostRuntime, name: &str, cost: Cost) -> Result<(), Fault> {
    print_times(rt, name, cost.done, "lines", cost)?;
    let (most, each) = (MOST, cost.took / u128::from(NAMES));
    Ok(println!(rt; "the printing of them, at most {most}; {each} ns a name")?)
}

/// Runs all loads; where they are timed, each has to keep within the bound.
pub fn run(rt: &HostRuntime, task: Task) -> Result<(), Fault> {
    let mut is_met = true;
    for load in &LOADS {
        let cost = cost_of(rt, *load, task.rounds())?;
        match task {
            Task::Count => print_counts(rt, load.name, cost)?,
            Task::Time(_) => {
                print(rt, load.name, cost)?;
                is_met = is_met && cost.is_within(MOST);
            }
        }
    }
    if is_met { Ok(()) } else { Err(Fault::Slow) }
}
