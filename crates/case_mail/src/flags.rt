// Flags of a message without one of them.
use case_base::{Fault, parts_of, put_field, put_value};
use mail_fetch::flags_part;
use mail_message::{FlagSet, flag};
use mur_base::Bytes;
use std::alloc::Global;

/// Prints whether flags have one, what they are without it, and whether they have it then.
pub fn put_without(alloc: Global, flags: &str, name: &str, out: &mut Bytes) -> Result<(), Fault> {
    let flags = flags_of(alloc, parts_of(alloc, flags, " ")?.as_slice())?;
    let Ok(name) = flag(name.as_bytes()) else {
        return Err(Fault::Unreadable("no flag"));
    };
    let left = flags.without(alloc, &name)?;
    put_value(alloc, &flags.has(&name), out)?;
    put_field(flags_part(alloc, &left)?.as_slice(), out)?;
    Ok(put_value(alloc, &left.has(&name), out)?)
}

/// The flags with these names.
pub fn flags_of(alloc: Global, names: &[&str]) -> Result<FlagSet, Fault> {
    let mut flags = FlagSet::new(alloc);
    for name in names {
        flags = with_flag(alloc, &flags, name)?;
    }
    Ok(flags)
}

fn with_flag(alloc: Global, flags: &FlagSet, name: &str) -> Result<FlagSet, Fault> {
    let Ok(name) = flag(name.as_bytes()) else {
        return Err(Fault::Unreadable("no flag"));
    };
    match flags.with(alloc, &name) {
        Ok(flags) => Ok(flags),
        Err(_) => Err(Fault::Unreadable("too many flags")),
    }
}
