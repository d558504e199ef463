//! How much of each thing the cluster takes. Sizes are in bytes, and each limit is itself allowed.

/// Frontends of one cluster.
pub const FRONTEND_LIMIT: usize = 8;

/// Backends of one cluster.
pub const BACKEND_LIMIT: usize = 8;

/// Bytes of a mailbox name.
pub const NAME_LIMIT: usize = 255;

/// Bytes of a user, node or partition name.
pub const SHORT_NAME_LIMIT: usize = 64;

/// Bytes of a message, and so of a literal for which the client waits.
pub const MESSAGE_LIMIT: usize = 1_048_576;

/// Bytes of all literals of one command together.
pub const COMMAND_LITERALS_LIMIT: usize = 1_056_768;

/// Bytes of a command outside its literals; the CRLF behind each of its lines isn't counted.
pub const LINE_LIMIT: usize = 8_192;

/// Bytes of a literal `{n+}`, which the client sends unasked (RFC 9051, 4.3).
pub const PLUS_LITERAL_LIMIT: usize = 4_096;

/// Messages of one mailbox.
pub const MAILBOX_MESSAGE_LIMIT: usize = 20_000;

/// Mailboxes of one cluster.
pub const MAILBOX_LIMIT: usize = 4_096;

/// Keywords of one message.
pub const MESSAGE_KEYWORD_LIMIT: usize = 16;

/// Bytes of a keyword.
pub const KEYWORD_LIMIT: usize = 64;

/// Bytes of the bodies that one COPY appends.
pub const COPY_LIMIT: usize = 4_194_304;

/// Changes of one batch of a transfer.
pub const BATCH_CHANGE_LIMIT: usize = 64;

/// Weight of one batch of a transfer: each change weighs `CHANGE_WEIGHT` and the bytes of its body.
pub const BATCH_WEIGHT_LIMIT: usize = 1_114_112;

/// What a change of a batch weighs without its body.
pub const CHANGE_WEIGHT: usize = 2_048;

/// Bytes of a schedule.
pub const SCHEDULE_LIMIT: usize = 268_435_456;

/// Bytes of the log that one node prints while it serves.
pub const LOG_LIMIT: usize = 15_728_640;

/// Bytes that are read from a client at a time while a node serves.
pub const PIECE_LIMIT: usize = 65_536;

// The logs of a whole cluster, its master's among them, fit a schedule.
const _: () = prove!((FRONTEND_LIMIT + BACKEND_LIMIT + 1) * LOG_LIMIT <= SCHEDULE_LIMIT);

// A batch has room for the longest message.
const _: () = prove!(MESSAGE_LIMIT + CHANGE_WEIGHT <= BATCH_WEIGHT_LIMIT);
