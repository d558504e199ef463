// The master's entries, in words.
use crate::fields::{put_count, put_place};
use case_base::put_field;
use mur_base::{Bytes, Memory};
use node_record::MasterRecord;

/// Puts an entry: its kind and its fields.
pub fn put(entry: &MasterRecord, out: &mut Bytes) -> Result<(), Memory> {
    match entry {
        MasterRecord::Reserved(name, place, serial) => {
            put_field(b"reserved", out)?;
            put_field(name.as_bytes(), out)?;
            put_place(place, out)?;
            put_count(*serial, out)
        }
        MasterRecord::Active(name, place, acl) => {
            put_field(b"active", out)?;
            put_field(name.as_bytes(), out)?;
            put_place(place, out)?;
            put_field(acl.as_slice(), out)
        }
        MasterRecord::Inactive(name, place) => {
            put_field(b"inactive", out)?;
            put_field(name.as_bytes(), out)?;
            put_place(place, out)
        }
        MasterRecord::Deleted(name) => {
            put_field(b"deleted", out)?;
            put_field(name.as_bytes(), out)
        }
    }
}
