// The frames that are read.
use crate::making::Filled;
use mur_base::limits::{LINE_LIMIT, MESSAGE_LIMIT};

/// A frame, and how often a round reads it.
pub struct Load {
    pub name: &'static str,
    pub frame: Filled,
    pub times: u32,
}

const NOTHING: Filled = Filled {
    front: b"",
    text: b"",
    count: 0,
    back: b"",
};

/// Short commands, lines of up to the greatest length, and messages.
pub static LOADS: [Load; 11] = [
    Load {
        name: "LOGIN of 21 bytes",
        frame: Filled {
            front: b"a1 LOGIN adm secret\r\n",
            ..NOTHING
        },
        times: 10_000,
    },
    Load {
        name: "SELECT INBOX",
        frame: Filled {
            front: b"a1 SELECT INBOX\r\n",
            ..NOTHING
        },
        times: 10_000,
    },
    Load {
        name: "UID FETCH 1:* (FLAGS)",
        frame: Filled {
            front: b"a1 UID FETCH 1:* (FLAGS)\r\n",
            ..NOTHING
        },
        times: 10_000,
    },
    Load {
        name: "UID STORE 1:* +FLAGS.SILENT (\\Seen)",
        frame: Filled {
            front: b"a1 UID STORE 1:* +FLAGS.SILENT (\\Seen)\r\n",
            ..NOTHING
        },
        times: 10_000,
    },
    Load {
        name: "UID SEARCH of five keys",
        frame: Filled {
            front: b"a1 UID SEARCH UNSEEN NOT DELETED SINCE 1-Jan-2020 LARGER 1024 UID 1:*\r\n",
            ..NOTHING
        },
        times: 10_000,
    },
    Load {
        name: "UID EXPUNGE of 2,000 ranges",
        frame: Filled {
            front: b"a1 UID EXPUNGE 1",
            text: b",1:*",
            count: 2_000,
            back: b"\r\n",
        },
        times: 100,
    },
    Load {
        name: "CREATE of an atom in a line of 8,192 bytes",
        frame: Filled {
            front: b"a1 CREATE ",
            text: b"x",
            count: LINE_LIMIT - 10,
            back: b"\r\n",
        },
        times: 100,
    },
    Load {
        name: "CREATE of a quoted string in a line of 4,096 bytes",
        frame: Filled {
            front: b"a1 CREATE \"",
            text: b"x",
            count: LINE_LIMIT / 2 - 12,
            back: b"\"\r\n",
        },
        times: 200,
    },
    Load {
        name: "CREATE of a quoted string in a line of 8,192 bytes",
        frame: Filled {
            front: b"a1 CREATE \"",
            text: b"x",
            count: LINE_LIMIT - 12,
            back: b"\"\r\n",
        },
        times: 100,
    },
    Load {
        name: "APPEND of 512 KiB",
        frame: Filled {
            front: b"a1 APPEND INBOX {524288}\r\n",
            text: b"x",
            count: MESSAGE_LIMIT / 2,
            back: b"\r\n",
        },
        times: 2,
    },
    Load {
        name: "APPEND of 1 MiB",
        frame: Filled {
            front: b"a1 APPEND INBOX {1048576}\r\n",
            text: b"x",
            count: MESSAGE_LIMIT,
            back: b"\r\n",
        },
        times: 1,
    },
];
