// The drill of number 7, whose first values were worked out by hand.
use crate::drill;
use crate::values::{next_state, value_of};
use schedule_text::{Event, print_schedule};
use std::test::Fail;

const ONE_TURN: &[u8] = b"open f1 1\n\
data 1 a LOGIN adm x\\r\\na CREATE user.u1\\r\\na CREATE user.u2\\r\\na CREATE user.u3\\r\\na CREATE user.u4\\r\\n\
a CREATE user.u5\\r\\na CREATE user.u6\\r\\na CREATE user.u7\\r\\na CREATE user.u8\\r\\n\n\
flow 10000\n\
open f1 2\ndata 2 s LOGIN u1 p\\r\\ns SELECT INBOX\\r\\n\n\
open f2 3\ndata 3 s LOGIN u2 p\\r\\ns SELECT INBOX\\r\\n\n\
open f1 4\ndata 4 s LOGIN u3 p\\r\\ns SELECT INBOX\\r\\n\n\
open f2 5\ndata 5 s LOGIN u4 p\\r\\ns SELECT INBOX\\r\\n\n\
open f1 6\ndata 6 s LOGIN u5 p\\r\\ns SELECT INBOX\\r\\n\n\
open f2 7\ndata 7 s LOGIN u6 p\\r\\ns SELECT INBOX\\r\\n\n\
open f1 8\ndata 8 s LOGIN u7 p\\r\\ns SELECT INBOX\\r\\n\n\
open f2 9\ndata 9 s LOGIN u8 p\\r\\ns SELECT INBOX\\r\\n\n\
flow 10000\n\
data 8 t UID STORE 9 +FLAGS.SILENT (\\\\Deleted)\\r\\n\n\
flow 7\n\
flow 100000\n";

#[test]
fn the_first_value_of_number_7(rt: HostRuntime) -> Result<(), Fail> {
    assert_eq!(rt; value_of(next_state(7)), 1_059_165_278);
    Ok(())
}

#[test]
fn a_drill_of_one_turn(rt: HostRuntime) -> Result<(), Fail> {
    let alloc = rt.alloc();
    let (config, events) = drill(alloc, 7, 1)?;
    let text = print_schedule(alloc, &events, &config)?;
    assert_eq!(rt; text.as_slice(), ONE_TURN);
    Ok(())
}

#[test]
fn ten_transfers_and_four_crashes(rt: HostRuntime) -> Result<(), Fail> {
    let alloc = rt.alloc();
    let (config, events) = drill(alloc, 7, 400)?;
    let text = print_schedule(alloc, &events, &config)?;
    assert_eq!(rt; text.len(), 37_466);
    let crashes = events
        .as_slice()
        .iter()
        .filter(|event| matches!(event, Event::Crash(_, _, _)))
        .count();
    let starts = events
        .as_slice()
        .iter()
        .filter(|event| matches!(event, Event::Start(_)))
        .count();
    assert_eq!(rt; (crashes, starts), (4, 4));
    Ok(())
}
