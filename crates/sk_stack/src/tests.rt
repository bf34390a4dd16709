//! Texts of limits.
use crate::{least_message, short_limit, stack_limit};
use std::test::Fail;

const USUAL: &[u8] =
    b"Limit                     Soft Limit           Hard Limit           Units     \nMax data size             4194304              unlimited            bytes     \nMax stack size            8388608              unlimited            bytes     \nMax core file size        0                    unlimited            bytes     \n";

const LARGE: &[u8] =
    b"Max stack size            unlimited            unlimited            bytes     \n";

const SMALL: &[u8] =
    b"Max stack size            7340031              8388608              bytes     \n";

/// A text, the limit that it tells, and that limit where it is short.
struct Row {
    text: &'static [u8],
    limit: Option<u64>,
    short: Option<u64>,
}

const ROWS: &[Row] = &[
    Row {
        text: USUAL,
        limit: Some(8_388_608),
        short: None,
    },
    Row {
        text: LARGE,
        limit: None,
        short: None,
    },
    Row {
        text: SMALL,
        limit: Some(7_340_031),
        short: Some(7_340_031),
    },
    Row {
        text: b"Max stack size 7340032",
        limit: Some(7_340_032),
        short: None,
    },
    Row {
        text: b"Max stack size 0\n",
        limit: Some(0),
        short: Some(0),
    },
    Row {
        text: b"Max stack size 18446744073709551616\n",
        limit: None,
        short: None,
    },
    Row {
        text: b"no Max stack size 5\nMax stack size 6\nMax stack size 7\n",
        limit: Some(6),
        short: Some(6),
    },
    Row {
        text: b"Max stack size",
        limit: None,
        short: None,
    },
    Row {
        text: b"",
        limit: None,
        short: None,
    },
];

#[test]
fn limits_are_found(rt: HostRuntime) -> Result<(), Fail> {
    for (at, row) in ROWS.iter().enumerate() {
        assert!(rt; stack_limit(row.text) == row.limit, "the limit of row {at}");
        assert!(rt;
            short_limit(row.text) == row.short,
            "the short limit of row {at}"
        );
    }
    Ok(())
}

#[test]
fn the_line_has_both_numbers(rt: HostRuntime) -> Result<(), Fail> {
    let line = least_message(rt.alloc(), 4_194_304)?;
    assert!(rt;
        line.as_slice() == b"small stack 4194304 7340032".as_slice(),
        "the line"
    );
    Ok(())
}
