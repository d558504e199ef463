// Cuts made-up connections into frames: many short lines, literals of the greatest length in pieces as a socket gives them, and
// the short lines byte by byte. Beside each stands a search for LF in the same pieces, the least that a framer does.
use crate::fault::Fault;
use crate::making::Filled;
use crate::task::Task;
use crate::times::{Cost, Which, Work, print_count, print_times};
use imap_wire::Framer;
use memchr::memchr;
use mur_base::Memory;
use mur_base::limits::{MESSAGE_LIMIT, PIECE_LIMIT};

/// What a connection sends, and how many bytes come at once.
struct Load {
    name: &'static str,
    bytes: Filled,
    piece: usize,
}

const SHORT_LINES: Filled = Filled {
    front: b"",
    text: b"a1 UID FETCH 1:* (FLAGS)\r\n",
    count: 1_000,
    back: b"",
};

const LITERALS: Filled = Filled {
    front: b"a1 APPEND INBOX {1048576}\r\n",
    text: b"x",
    count: MESSAGE_LIMIT,
    back: b"\r\n",
};

static LOADS: [Load; 3] = [
    Load {
        name: "short lines",
        bytes: SHORT_LINES,
        piece: PIECE_LIMIT,
    },
    Load {
        name: "literals of 1 MiB",
        bytes: LITERALS,
        piece: PIECE_LIMIT,
    },
    Load {
        name: "short lines byte by byte",
        bytes: SHORT_LINES,
        piece: 1,
    },
];

/// A connection, the bytes that it sends in a round, and how many rounds there are.
#[derive(Drop)]
struct Connection<'a> {
    load: &'a Load,
    framer: Framer,
    bytes: Vec<u8>,
    rounds: u32,
}

impl Work for Connection<'_> {
    fn prepare(&mut self) -> Result<(), Fault> {
        Ok(self.load.bytes.put(&mut self.bytes)?)
    }

    /// How many frames end in the pieces.
    fn done(&mut self) -> Result<u64, Fault> {
        let mut frames: u64 = 0;
        for _ in 0..self.rounds {
            for piece in self.bytes.chunks(self.load.piece.max(1)) {
                frames = frames.wrapping_add(count_in_piece(&mut self.framer, piece)?);
            }
        }
        Ok(frames)
    }

    /// How many LFs the pieces have.
    fn plain(&mut self, _done: u64) -> Result<u64, Fault> {
        let mut found: u64 = 0;
        for _ in 0..self.rounds {
            for piece in self.bytes.chunks(self.load.piece.max(1)) {
                found = found.wrapping_add(line_feeds_in_piece(piece));
            }
        }
        Ok(found)
    }
}

fn count_in_piece(framer: &mut Framer, piece: &[u8]) -> Result<u64, Memory> {
    let mut frames: u64 = 0;
    let mut taken = 0;
    while taken < piece.len() && !framer.spent() {
        let (frame, more) = framer.feed(&piece[taken..])?;
        taken += more;
        frames = frames.wrapping_add(u64::from(frame.is_some()));
    }
    Ok(frames)
}

fn line_feeds_in_piece(piece: &[u8]) -> u64 {
    let mut found: u64 = 0;
    let mut rest = piece;
    while let Some(at) = memchr(b'\n', rest) {
        found = found.wrapping_add(1);
        rest = &rest[at + 1..];
    }
    found
}

fn print(rt: &HostRuntime, name: &str, cost: Cost) -> Result<(), Fault> {
    print_times(rt, name, cost.done, "frames", cost)?;
    let (search, found) = (cost.plain_took / 1_000, cost.plain);
    Ok(println!(rt; "the {search} of a search for {found} LFs")?)
}

fn cost_of(rt: &HostRuntime, load: &Load, rounds: u32) -> Result<Cost, Fault> {
    let connection = Connection {
        load,
        framer: Framer::new(rt.alloc()),
        bytes: Vec::new(rt.alloc()),
        rounds,
    };
    Cost::of(rt, Which::World, connection, 1)
}

pub fn run(rt: &HostRuntime, task: Task) -> Result<(), Fault> {
    for load in &LOADS {
        let cost = cost_of(rt, load, task.rounds())?;
        match task {
            Task::Count => print_count(rt, load.name, cost.done, "frames")?,
            Task::Time(_) => print(rt, load.name, cost)?,
        }
    }
    Ok(())
}
