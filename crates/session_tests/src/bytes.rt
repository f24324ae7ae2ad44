//! Lines that the input ends, the greatest length of a line, and bytes that are no text.

use crate::sessions::{Calls, expect_done, run_flat};
use std::alloc::{AllocError, Global};
use std::process::Abort;
use std::sync::Wait;
use std::thread::Threads;

/// A session is answered by this text.
fn is_answered<R: Abort + Threads + Wait + Sync>(
    rt: &R,
    alloc: Global,
    session: &[u8],
    text: &[u8],
) -> Result<(), AllocError> {
    let outcome = run_flat(rt, alloc, 4, "64", session, Calls::of(64))?;
    expect_done(rt, &outcome, text);
    Ok(())
}

/// A line of so many bytes with this end is answered by this text.
fn is_answered_with<R: Abort + Threads + Wait + Sync>(
    rt: &R,
    alloc: Global,
    bytes: usize,
    end: &[u8],
    text: &[u8],
) -> Result<(), AllocError> {
    let mut line = vec![in alloc; b'x'; bytes]?;
    line.extend_from_slice(end)?;
    is_answered(rt, alloc, line.as_slice(), text)
}

const UNKNOWN: &[u8] = b"0 main - -> refused unknown command\n";

const LONG: &[u8] = b"0 main - -> refused long line\n";

#[test]
fn a_line_has_4096_bytes_before_its_end(rt: HostRuntime) -> Result<(), AllocError> {
    let alloc = rt.alloc();
    for end in ["", "\n", "\r\n"] {
        is_answered_with(&rt, alloc, 4_096, end.as_bytes(), UNKNOWN)?;
        is_answered_with(&rt, alloc, 4_097, end.as_bytes(), LONG)?;
    }
    // a carriage return that no newline follows is a byte of its line
    is_answered_with(&rt, alloc, 4_095, b"\r", UNKNOWN)?;
    is_answered_with(&rt, alloc, 4_096, b"\r", LONG)
}

#[test]
fn a_line_that_the_input_cuts_is_answered_as_it_stands(rt: HostRuntime) -> Result<(), AllocError> {
    let alloc = rt.alloc();
    is_answered(&rt, alloc, b"lsvdis", UNKNOWN)?;
    is_answered(
        &rt,
        alloc,
        b"lsvdisk -delim :",
        b"0 main lsvdisk -delim : -> rows 1\nid:name:status:capacity:fc_map_count\n",
    )?;
    is_answered(
        &rt,
        alloc,
        b"read A 0",
        b"0 main - -> refused missing word 4\n",
    )
}

#[test]
fn bytes_that_are_no_text_are_answered(rt: HostRuntime) -> Result<(), AllocError> {
    let alloc = rt.alloc();
    for line in [b"\x00", b"\xff", b"\r", b"\x7f"] {
        is_answered(&rt, alloc, line.as_slice(), UNKNOWN)?;
    }
    is_answered(
        &rt,
        alloc,
        b"read \x00 0 1\nread A \xff 1\r\nread A 0 1\r2\nread A 0 1\r",
        b"0 main - -> refused bad name at word 2
1 main - -> refused bad number at word 3
2 main - -> refused bad number at word 4
3 main - -> refused bad number at word 4
",
    )
}
