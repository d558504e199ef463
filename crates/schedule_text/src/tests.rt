// A schedule with all words, in spellings other than those that are printed.
use crate::{print_schedule, read_schedule};
use mur_config::read_config;
use std::test::Fail;

const CONFIG: &[u8] =
    b"{\"nodes\":[{\"name\":\"m\",\"kind\":\"master\"},{\"name\":\"f1\",\"kind\":\"frontend\"},\
    {\"name\":\"b1\",\"kind\":\"backend\",\"partition\":\"p\"}],\"users\":[],\"date\":\"17-Jul-1996 02:44:25 -0700\"}";

const WRITTEN: &[u8] =
    b"# all words\r\nopen f1 007\r\n\ndata 7 a\\x20b\\x5c\\r\\n\\x00 \ndeliver f1 b1\ncut f1 b1 01 002\njoin b1 f1\nflow 010\nheal\nhang 07";

const PRINTED: &[u8] =
    b"open f1 7\ndata 7 a b\\\\\\r\\n\\x00 \ndeliver f1 b1\ncut f1 b1 1 2\njoin b1 f1\nflow 10\nheal\nhang 7\n";

#[test]
fn a_schedule_is_printed_in_its_one_form(rt: HostRuntime) -> Result<(), Fail> {
    let alloc = rt.alloc();
    let config = read_config(alloc, CONFIG)?;
    let events = read_schedule(alloc, WRITTEN, &config)?;
    let printed = print_schedule(alloc, &events, &config)?;
    assert_eq!(rt; printed.as_slice(), PRINTED);
    let again = read_schedule(alloc, printed.as_slice(), &config)?;
    assert_eq!(rt; print_schedule(alloc, &again, &config)?.as_slice(), PRINTED);
    Ok(())
}
