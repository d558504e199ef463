// How long the parts of a line may be, in bytes.

/// Of a tag.
pub const TAG_MOST: usize = 41;

/// Of a string, in quotes or as a literal.
pub const STRING_LIMIT: usize = 65_536;

/// Of a mailbox name.
pub const NAME_BYTES: usize = 255;

/// Of a location at least: a server of one byte, `!`, and a partition of one.
pub const LOCATION_LEAST: usize = 3;

/// Of a location at most: a server of 64 bytes, `!`, and a partition of 64.
pub const LOCATION_MOST: usize = 129;

/// Of a string that is printed in quotes.
pub const QUOTED_MOST: usize = 1_024;
