// The commands that a home answers, a file each (RFC 9051, 6).
pub mod append;
pub mod close;
pub mod create;
pub mod delete;
pub mod expunge;
pub mod fetch;
pub mod noop;
pub mod search;
pub mod select;
pub mod status;
pub mod store;
