//! Token streams: items as they are written. What streams say, and what is wrong with bytes that are none, stands in `cases/`.

use std::alloc::{AllocError, Global};
use tcg_tokens::{Item, Value, item_len, read_item, value_text, writable, write_item};

/// A Get of the columns 3 and 4 of C_PIN_MSID.
const GET: &[u8] =
    b"\xf8\xa8\x00\x00\x00\x0b\x00\x00\x84\x02\xa8\x00\x00\x00\x06\x00\x00\x00\x16\xf0\xf0\xf2\
        \x03\x03\xf3\xf2\x04\x03\xf3\xf1\xf1\xf9\xf0\x00\x00\x00\xf1";

/// A Set of a PIN of 32 bytes.
const PIN: &[u8] =
    b"\xf8\xa8\x00\x00\x00\x0b\x00\x03\x00\x01\xa8\x00\x00\x00\x06\x00\x00\x00\x17\xf0\xd0\x20\
        \x5a\x5a\x5a\x5a\x5a\x5a\x5a\x5a\x5a\x5a\x5a\x5a\x5a\x5a\x5a\x5a\x5a\x5a\x5a\x5a\x5a\x5a\
        \x5a\x5a\x5a\x5a\x5a\x5a\x5a\x5a\x5a\x5a\xf1\xf9\xf0\x00\x00\x00\xf1";

/// Items, and their shortest spelling.
const ITEMS: [(&[u8], &[u8]); 7] = [
    (b"\xfb\x00", b"\xfb\x00"),
    (b"\xfc\x81\x01", b"\xfc\x01"),
    (b"\xfa", b"\xfa"),
    (
        b"\xf0\x80\xf1\xf9\xf0\x00\x00\x00\xf1",
        b"\xf0\x00\xf1\xf9\xf0\x00\x00\x00\xf1",
    ),
    (GET, GET),
    (
        b"\xf0\x88\xff\xff\xff\xff\xff\xff\xff\xff\xf1\xf9\xf0\x00\x00\x00\xf1",
        b"\xf0\x88\xff\xff\xff\xff\xff\xff\xff\xff\xf1\xf9\xf0\x00\x00\x00\xf1",
    ),
    (PIN, PIN),
];

/// Whether an item has this spelling.
fn is_spelled(alloc: Global, item: &Item, spelling: &[u8]) -> bool {
    if !writable(item) {
        return false;
    }
    match write_item(alloc, item) {
        Ok(written) => written.as_slice() == spelling && item_len(item) == spelling.len(),
        Err(_) => false,
    }
}

/// Whether each item is read, and has its spelling.
fn are_spelled(alloc: Global) -> bool {
    let mut are = true;
    for (bytes, spelling) in ITEMS {
        are &= match read_item(alloc, bytes) {
            Ok(item) => is_spelled(alloc, &item, spelling),
            Err(_) => false,
        };
    }
    are
}

/// A number in so many lists.
fn nested(alloc: Global, lists: u8) -> Result<Value, AllocError> {
    let mut value = Value::Number(5);
    for _ in 0..lists {
        value = Value::List(vec![in alloc; value]?);
    }
    Ok(value)
}

/// A value whose name is a list.
fn named(alloc: Global) -> Result<Value, AllocError> {
    let list = Value::List(Vec::new(alloc));
    let named = Box::new(alloc, (list, Value::Number(5)))?;
    Ok(Value::Named(named))
}

/// Whether a reply of a value can be written.
fn can_be_written(alloc: Global, value: Value) -> Result<bool, AllocError> {
    let results = vec![in alloc; value]?;
    let status = [0, 0, 0];
    Ok(writable(&Item::Reply { results, status }))
}

/// Whether eight lists in one another can be written and nine cannot.
fn is_depth_told(alloc: Global) -> Result<bool, AllocError> {
    let deepest = can_be_written(alloc, nested(alloc, 7)?)?;
    let deeper = can_be_written(alloc, nested(alloc, 8)?)?;
    Ok(deepest && !deeper)
}

/// Whether a list is shown as a name, and cannot be written as one.
fn is_no_name(alloc: Global) -> Result<bool, AllocError> {
    let shown = value_text(alloc, &named(alloc)?)?;
    let can = can_be_written(alloc, named(alloc)?)?;
    Ok(shown.as_str() == "{[]=5}" && !can)
}

#[test]
fn items_and_values_are_written(rt: HostRuntime) {
    let is_told = is_depth_told(rt.alloc()) == Ok(true) && is_no_name(rt.alloc()) == Ok(true);
    assert!(rt; is_told && are_spelled(rt.alloc()));
}
