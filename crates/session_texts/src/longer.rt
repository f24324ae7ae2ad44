//! A session of twelve lines and their answers, written by hand from the manual.

use std::alloc::{AllocError, Global};

/// A line of the session, and what it is answered.
#[derive(Drop)]
pub struct Answered {
    /// The line with its end.
    pub line: Vec<u8>,
    /// The text of its entries.
    pub text: &'static [u8],
    /// How many entries these are.
    pub entries: usize,
}

/// A line of so many bytes, and its newline.
fn long_line(alloc: Global, bytes: usize) -> Result<Vec<u8>, AllocError> {
    let mut line = vec![in alloc; b'x'; bytes]?;
    line.push(b'\n')?;
    Ok(line)
}

/// Adds a line and its answer.
fn add(
    alloc: Global,
    lines: &mut Vec<Answered>,
    line: &[u8],
    entries: usize,
    text: &'static [u8],
) -> Result<(), AllocError> {
    let line = Vec::from_slice(alloc, line)?;
    lines.push(Answered {
        line,
        text,
        entries,
    })?;
    Ok(())
}

/// Adds the lines up to the long ones: a comment, a volume, accesses of two and three grains, a blank line, and faults.
fn add_first(alloc: Global, lines: &mut Vec<Answered>) -> Result<(), AllocError> {
    add(alloc, lines, b"# a comment\n", 0, b"")?;
    add(
        alloc,
        lines,
        b"mkvdisk -name A -size 1\n",
        1,
        b"0 main mkvdisk -name A -size 1 -> Virtual Disk, id [0], successfully created\n",
    )?;
    add(
        alloc,
        lines,
        b"write A 120 16 A1\n",
        2,
        b"1 main write 0 120 8 a1 -> ok\n2 main write 0 128 8 a1 -> ok\n",
    )?;
    add(alloc, lines, b" \t\r\n", 0, b"")?;
    add(
        alloc,
        lines,
        b"read 0 112 40\n",
        2,
        b"3 main read 0 112 16 -> data 4096*00,4096*a1\n4 main read 0 128 24 -> data 4096*a1,8192*00\n",
    )?;
    add(
        alloc,
        lines,
        b"read A 02047 2\n",
        1,
        b"5 main read A 2047 2 -> refused bad value of blocks\n",
    )?;
    add(
        alloc,
        lines,
        b"svctask read B 0 1\n",
        1,
        b"6 main read B 0 1 -> refused no such vdisk\n",
    )?;
    add(
        alloc,
        lines,
        b"mkvdisk -size 1 -size 2\n",
        1,
        b"7 main - -> refused option repeated at word 4\n",
    )?;
    add(
        alloc,
        lines,
        b"write A 250 140 0f\r\n",
        3,
        b"8 main write 0 250 6 0f -> ok\n9 main write 0 256 128 0f -> ok\n10 main write 0 384 6 0f -> ok\n",
    )
}

/// Adds the lines from the long ones on. The last is ended by the end of the input.
fn add_last(alloc: Global, lines: &mut Vec<Answered>) -> Result<(), AllocError> {
    lines.push(Answered {
        line: long_line(alloc, 4_096)?,
        text: b"11 main - -> refused unknown command\n",
        entries: 1,
    })?;
    lines.push(Answered {
        line: long_line(alloc, 4_097)?,
        text: b"12 main - -> refused long line\n",
        entries: 1,
    })?;
    add(
        alloc,
        lines,
        b"read A 384 7",
        1,
        b"13 main read 0 384 7 -> data 3072*0f,512*00\n",
    )
}

/// The first nine lines of the session, which are short, and their answers.
pub fn first_lines(alloc: Global) -> Result<Vec<Answered>, AllocError> {
    let mut lines = Vec::new(alloc);
    add_first(alloc, &mut lines)?;
    Ok(lines)
}

/// The lines of the session and their answers.
pub fn lines(alloc: Global) -> Result<Vec<Answered>, AllocError> {
    let mut lines = Vec::new(alloc);
    add_first(alloc, &mut lines)?;
    add_last(alloc, &mut lines)?;
    Ok(lines)
}

/// The bytes of the session.
pub fn session(alloc: Global, lines: &[Answered]) -> Result<Vec<u8>, AllocError> {
    let mut bytes = Vec::new(alloc);
    for answered in lines {
        bytes.extend_from_slice(answered.line.as_slice())?;
    }
    Ok(bytes)
}

/// What is answered.
#[derive(Drop)]
pub struct Answers {
    /// The text of the entries.
    pub text: Vec<u8>,
    /// How many entries there are.
    pub entries: usize,
}

/// What is answered to the lines that ended in the first so many bytes of the session: not to the last line, which
/// the end of the input alone ends.
pub fn answers_within(
    alloc: Global,
    lines: &[Answered],
    bytes: usize,
) -> Result<Answers, AllocError> {
    let mut text = Vec::new(alloc);
    let mut entries = 0usize;
    let mut end = 0usize;
    for answered in lines {
        end = end.saturating_add(answered.line.len());
        if end <= bytes && answered.line.ends_with(b"\n") {
            text.extend_from_slice(answered.text)?;
            entries = entries.saturating_add(answered.entries);
        }
    }
    Ok(Answers { text, entries })
}

/// What is answered to all lines.
pub fn all_answers(alloc: Global, lines: &[Answered]) -> Result<Answers, AllocError> {
    let mut text = Vec::new(alloc);
    let mut entries = 0usize;
    for answered in lines {
        text.extend_from_slice(answered.text)?;
        entries = entries.saturating_add(answered.entries);
    }
    Ok(Answers { text, entries })
}
