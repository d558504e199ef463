// The texts of configurations that are timed.
use mur_base::{Bytes, Memory, put_number};

/// How many users make about 10 MB.
const USERS: u64 = 180_000;

/// How many numbers make about 10 MB.
const NUMBERS: u64 = 2_000_000;

/// How deep arrays nest in a text that is refused.
const DEPTH: u64 = 100_000;

const NODES: &[u8] = br#"{"nodes":[{"name":"m","kind":"master"},{"name":"f1","kind":"frontend"},
{"name":"b1","kind":"backend","partition":"p"}],"date":"17-Jul-1996 02:44:25 -0700","#;

/// A text that is timed.
#[derive(Clone, Copy)]
pub enum Load {
    /// Users of names of their own: all of it is looked at.
    Users,
    /// A field that is passed over.
    PassedOver,
    /// Arrays in arrays, which is no JSON.
    Nested,
}

pub static LOADS: [Load; 3] = [Load::Users, Load::PassedOver, Load::Nested];

impl Load {
    pub fn name(self) -> &'static str {
        match self {
            Load::Users => "a configuration of 180,000 users",
            Load::PassedOver => "a configuration with a field of 2,000,000 numbers",
            Load::Nested => "arrays that nest 100,000 deep",
        }
    }

    /// Writes the text behind what is there.
    pub fn put(self, out: &mut Bytes) -> Result<(), Memory> {
        match self {
            Load::Users => put_users(out),
            Load::PassedOver => put_passed_over(out),
            Load::Nested => put_nested(out),
        }
    }
}

fn put_users(out: &mut Bytes) -> Result<(), Memory> {
    out.extend_from_slice(NODES)?;
    out.extend_from_slice(br#""users":["#)?;
    for number in 0..USERS {
        put_user(number, out)?;
    }
    out.extend_from_slice(br#"{"name":"adm","password":"x"}]}"#)
}

/// A user, and a comma.
fn put_user(number: u64, out: &mut Bytes) -> Result<(), Memory> {
    out.extend_from_slice(br#"{"name":"u"#)?;
    put_number(number, out)?;
    out.extend_from_slice(br#"","password":"pppppppppppppppppppp"},"#)
}

fn put_passed_over(out: &mut Bytes) -> Result<(), Memory> {
    out.extend_from_slice(NODES)?;
    out.extend_from_slice(br#""users":[],"other":["#)?;
    for _ in 0..NUMBERS {
        out.extend_from_slice(b"1234,")?;
    }
    out.extend_from_slice(b"0]}")
}

fn put_nested(out: &mut Bytes) -> Result<(), Memory> {
    for _ in 0..DEPTH {
        out.push(b'[')?;
    }
    for _ in 0..DEPTH {
        out.push(b']')?;
    }
    Ok(())
}
