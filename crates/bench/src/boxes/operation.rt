// What is done to a box.

/// What one call does to a box.
#[derive(Clone, Copy)]
pub enum Call {
    Put,
    SetFlags,
    Append,
    Store,
    ExpungeNamed,
    ExpungeAll,
    Look,
    Read,
}

/// An operation that is timed. Those on one or a hundred messages are done until a tenth of the box is touched, appends until
/// a thousand messages are put.
#[derive(Clone, Copy)]
pub struct Operation {
    pub name: &'static str,
    pub call: Call,
    /// Messages that are appended to a box of 1,000 messages less.
    pub appended: u32,
    /// How far apart the UIDs stand that it touches, in a box of any size.
    pub step: u32,
    /// Messages that one call touches.
    pub batch: usize,
    /// Whether it changes nothing, so that its cost stands beside a plain copy.
    pub is_reading: bool,
    /// Whether the messages that it touches have `\Deleted` before.
    pub is_expunge: bool,
}

/// One that touches all messages in one call.
const ALL: Operation = Operation {
    name: "",
    call: Call::Look,
    appended: 0,
    step: 1,
    batch: usize::MAX,
    is_reading: false,
    is_expunge: false,
};

pub static OPERATIONS: [Operation; 12] = [
    Operation {
        name: "put one by one",
        call: Call::Put,
        appended: 1_000,
        batch: 1,
        ..ALL
    },
    Operation {
        name: "set flags one by one",
        call: Call::SetFlags,
        step: 10,
        batch: 1,
        ..ALL
    },
    Operation {
        name: "append one by one",
        call: Call::Append,
        appended: 1_000,
        batch: 1,
        ..ALL
    },
    Operation {
        name: "append 1000",
        call: Call::Append,
        appended: 1_000,
        ..ALL
    },
    Operation {
        name: "store one by one",
        call: Call::Store,
        step: 10,
        batch: 1,
        ..ALL
    },
    Operation {
        name: "store 100 by 100",
        call: Call::Store,
        step: 10,
        batch: 100,
        ..ALL
    },
    Operation {
        name: "store all",
        call: Call::Store,
        ..ALL
    },
    Operation {
        name: "expunge one by one",
        call: Call::ExpungeNamed,
        step: 10,
        batch: 1,
        is_expunge: true,
        ..ALL
    },
    Operation {
        name: "expunge every second",
        call: Call::ExpungeAll,
        step: 2,
        is_expunge: true,
        ..ALL
    },
    Operation {
        name: "expunge all",
        call: Call::ExpungeAll,
        is_expunge: true,
        ..ALL
    },
    Operation {
        name: "look",
        call: Call::Look,
        is_reading: true,
        ..ALL
    },
    Operation {
        name: "read all",
        call: Call::Read,
        is_reading: true,
        ..ALL
    },
];
