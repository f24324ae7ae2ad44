//! What is said of right traces, wrong ones, bytes that are no trace, and traces with a session behind them.

ghost use Rattle.std.specs.Prelude.{◌<◌};

use fc_check::check::check;
use fc_check::verdict::{CheckStop, Verdict};
use fc_io::mem_source::MemSource;
use std::test::Fail;

/// A volume of 16 grains, a block written, and read with the one behind it.
const TRACE: &[u8] =
    b"trace 64 4 flat 1 1 1 1 thin 0 0 0 0\n0 main mkvdisk -name A -size 1 -> Virtual Disk, id [0], successfully created\n+ make 0 16\n.\n1 main write 0 0 1 5a -> ok\n+ calls 2 faults 0 0\n.\n2 main read 0 0 2 -> data 512*5a,512*00\n+ calls 1 faults 0 0\n.\n";

/// The session that it answers.
const SESSION: &[u8] = b"# a comment\nmkvdisk -name A -size 1\n\nwrite A 0 1 5a\nread A 0 2\n";

/// What is said of a trace that a source gives in pieces of so many bytes, of which no call fails.
fn said(rt: &HostRuntime, text: &[u8], piece: usize) -> Result<Result<Verdict, CheckStop>, Fail>
    requires { 0 < piece }
{
    let mut bytes = Vec::new(rt.alloc());
    bytes.extend_from_slice(text)?;
    let mut source = MemSource::new(bytes, piece, Vec::new(rt.alloc()));
    Ok(check(rt.alloc(), &mut source))
}

/// The same, where the call with this number fails.
fn said_failing(
    rt: &HostRuntime,
    text: &[u8],
    call: u64,
) -> Result<Result<Verdict, CheckStop>, Fail> {
    let alloc = rt.alloc();
    let mut bytes = Vec::new(alloc);
    bytes.extend_from_slice(text)?;
    let mut source = MemSource::new(bytes, 32, vec![in alloc; call]?);
    Ok(check(alloc, &mut source))
}

#[test]
fn a_right_trace_is_right_in_any_pieces(rt: HostRuntime) -> Result<(), Fail> {
    assert_eq!(rt; said(&rt, TRACE, 1)?, Ok(Verdict::Yes(3)));
    assert_eq!(rt; said(&rt, TRACE, 100)?, Ok(Verdict::Yes(3)));
    assert_eq!(rt; said(&rt, TRACE, 1_000)?, Ok(Verdict::Yes(3)));
    assert_eq!(rt;
        said(&rt, b"trace 256 4 flat 0 0 0 0 thin 0 0 0 0\n", 7)?,
        Ok(Verdict::Yes(0))
    );
    Ok(())
}

#[test]
fn names_count_for_nothing(rt: HostRuntime) -> Result<(), Fail> {
    let text =
        b"trace 64 4 flat 0 0 0 0 thin 0 0 0 0\n0 h7 - -> refused long line\n.\n1 main - -> refused long line\n.\n";
    assert_eq!(rt; said(&rt, text, 64)?, Ok(Verdict::Yes(2)));
    Ok(())
}

#[test]
fn a_wrong_entry_is_named(rt: HostRuntime) -> Result<(), Fail> {
    let bytes =
        b"trace 64 4 flat 1 1 1 1 thin 0 0 0 0\n0 main mkvdisk -name A -size 1 -> Virtual Disk, id [0], successfully created\n+ make 0 16\n.\n1 main read 0 0 1 -> data 512*01\n+ calls 1 faults 0 0\n.\n2 main - -> refused long line\n.\n";
    assert_eq!(rt; said(&rt, bytes, 64)?, Ok(Verdict::No(1)));
    let grains =
        b"trace 64 4 flat 1 1 1 1 thin 0 0 0 0\n0 main mkvdisk -name A -size 1 -> Virtual Disk, id [0], successfully created\n+ make 0 15\n.\n";
    assert_eq!(rt; said(&rt, grains, 64)?, Ok(Verdict::No(0)));
    let disks =
        b"trace 64 4 flat 1 1 0 1 thin 0 0 0 0\n0 main mkvdisk -name A -size 1 -> Virtual Disk, id [0], successfully created\n+ make 0 16\n.\n";
    assert_eq!(rt; said(&rt, disks, 64)?, Ok(Verdict::No(0)));
    Ok(())
}

#[test]
fn what_is_no_trace_is_malformed(rt: HostRuntime) -> Result<(), Fail> {
    assert_eq!(rt; said(&rt, b"", 64)?, Ok(Verdict::Malformed(0)));
    assert_eq!(rt; said(&rt, b"trace 65 4", 64)?, Ok(Verdict::Malformed(7)));
    let early = b"trace 64 4 flat 0 0 0 0 thin 0 0 0 0\n0 main read 0 0 1 -> idle\n";
    assert_eq!(rt; said(&rt, early, 64)?, Ok(Verdict::Malformed(63)));
    let number = b"trace 64 4 flat 0 0 0 0 thin 0 0 0 0\n0 main - -> refused long line\n.\n2 main";
    assert_eq!(rt; said(&rt, number, 64)?, Ok(Verdict::Malformed(69)));
    Ok(())
}

#[test]
fn a_malformed_byte_comes_before_a_wrong_entry(rt: HostRuntime) -> Result<(), Fail> {
    let text =
        b"trace 64 4 flat 0 0 0 0 thin 0 0 0 0\n0 main mkvdisk -size 1 -> ok\n.\n1 main - -> refused long line\n..";
    assert_eq!(rt; said(&rt, text, 64)?, Ok(Verdict::Malformed(99)));
    Ok(())
}

#[test]
fn a_fault_is_told_where_nothing_else_is_met(rt: HostRuntime) -> Result<(), Fail> {
    assert_eq!(rt; said_failing(&rt, TRACE, 1)?, Err(CheckStop::ReadFault));
    assert_eq!(rt; said_failing(&rt, TRACE, 3)?, Err(CheckStop::ReadFault));
    assert_eq!(rt;
        said_failing(&rt, b"trace 65 4", 2)?,
        Ok(Verdict::Malformed(7))
    );
    assert_eq!(rt;
        said_failing(&rt, b"trace 64 4", 2)?,
        Err(CheckStop::ReadFault)
    );
    Ok(())
}

/// What is said of a trace with this behind it.
fn said_behind(
    rt: &HostRuntime,
    text: &[u8],
    behind: &[u8],
) -> Result<Result<Verdict, CheckStop>, Fail> {
    let mut bytes = Vec::new(rt.alloc());
    bytes.extend_from_slice(text)?;
    bytes.extend_from_slice(behind)?;
    said(rt, bytes.as_slice(), 50)
}

/// What is said of a trace with this session.
fn said_of_session(
    rt: &HostRuntime,
    text: &[u8],
    session: &[u8],
) -> Result<Result<Verdict, CheckStop>, Fail> {
    let mut behind = Vec::new(rt.alloc());
    behind.extend_from_slice(b"session\n")?;
    behind.extend_from_slice(session)?;
    said_behind(rt, text, behind.as_slice())
}

#[test]
fn a_session_that_is_answered(rt: HostRuntime) -> Result<(), Fail> {
    assert_eq!(rt; said_of_session(&rt, TRACE, SESSION)?, Ok(Verdict::Yes(3)));
    let ends = b"mkvdisk -name A -size 1\r\nwrite A 0 1 5a\r\nread A 0 2";
    assert_eq!(rt; said_of_session(&rt, TRACE, ends)?, Ok(Verdict::Yes(3)));
    let nothing = b"trace 64 4 flat 0 0 0 0 thin 0 0 0 0\n";
    assert_eq!(rt; said_of_session(&rt, nothing, b"")?, Ok(Verdict::Yes(0)));
    assert_eq!(rt;
        said_of_session(&rt, nothing, b"\n# a comment")?,
        Ok(Verdict::Yes(0))
    );
    Ok(())
}

#[test]
fn a_line_that_remains_is_no_answer(rt: HostRuntime) -> Result<(), Fail> {
    let more = b"mkvdisk -name A -size 1\nwrite A 0 1 5a\nread A 0 2\nread A 0 1";
    assert_eq!(rt; said_of_session(&rt, TRACE, more)?, Ok(Verdict::No(3)));
    let nothing = b"trace 64 4 flat 0 0 0 0 thin 0 0 0 0\n";
    assert_eq!(rt; said_of_session(&rt, nothing, b"x\n")?, Ok(Verdict::No(0)));
    Ok(())
}

#[test]
fn an_entry_that_no_line_asks(rt: HostRuntime) -> Result<(), Fail> {
    let fewer = b"mkvdisk -name A -size 1\nwrite A 0 1 5a\n";
    assert_eq!(rt; said_of_session(&rt, TRACE, fewer)?, Ok(Verdict::No(2)));
    let other = b"mkvdisk -name A -size 1\nwrite A 0 1 5b\nread A 0 2\n";
    assert_eq!(rt; said_of_session(&rt, TRACE, other)?, Ok(Verdict::No(1)));
    assert_eq!(rt; said_of_session(&rt, TRACE, b"")?, Ok(Verdict::No(0)));
    Ok(())
}

#[test]
fn an_entry_of_another_actor(rt: HostRuntime) -> Result<(), Fail> {
    let text =
        b"trace 64 4 flat 1 1 1 1 thin 0 0 0 0\n0 main mkvdisk -name A -size 1 -> Virtual Disk, id [0], successfully created\n+ make 0 16\n.\n1 h7 write 0 0 1 5a -> ok\n+ calls 2 faults 0 0\n.\n2 main read 0 0 2 -> data 512*5a,512*00\n+ calls 1 faults 0 0\n.\n";
    assert_eq!(rt; said(&rt, text, 64)?, Ok(Verdict::Yes(3)));
    assert_eq!(rt; said_of_session(&rt, text, SESSION)?, Ok(Verdict::No(1)));
    let block =
        b"mkvdisk -name A -size 1\ntogether\nactor h7 host\nwrite A 0 1 5a\nend\nread A 0 2\n";
    assert_eq!(rt; said_of_session(&rt, text, block)?, Ok(Verdict::Yes(3)));
    let renamed =
        b"mkvdisk -name A -size 1\ntogether\nactor h8 host\nwrite A 0 1 5a\nend\nread A 0 2\n";
    assert_eq!(rt; said_of_session(&rt, text, renamed)?, Ok(Verdict::No(1)));
    Ok(())
}

/// A volume, and a preset of it whose mapping had no memory, so that its own volume went again.
const UNDONE: &[u8] =
    b"trace 64 4 flat 1 1 1 1 thin 1 1 1 1\n0 main mkvdisk -name A -size 128 -unit kb -> Virtual Disk, id [0], successfully created\n+ make 0 2\n.\n1 main mkvdisk -name s -size 128 -unit kb -thin -> Virtual Disk, id [1], successfully created\n+ make 1 2\n.\n2 main mkfcmap -source A -target 1 -name s -copyrate 0 -cleanrate 0 -> no memory\n.\n3 main rmvdisk 1 -> ok\n+ remove 1\n.\n";

#[test]
fn a_preset_is_answered_by_its_lines(rt: HostRuntime) -> Result<(), Fail> {
    let snapshot =
        b"mkvdisk -name A -size 128 -unit kb\nmkpreset -source A -preset snapshot -name s\n";
    assert_eq!(rt;
        said_of_session(&rt, UNDONE, snapshot)?,
        Ok(Verdict::Yes(4))
    );
    let clone = b"mkvdisk -name A -size 128 -unit kb\nmkpreset -source A -preset clone -name s\n";
    assert_eq!(rt; said_of_session(&rt, UNDONE, clone)?, Ok(Verdict::No(1)));
    let by_id =
        b"mkvdisk -name A -size 128 -unit kb\nmkpreset -source 0 -preset snapshot -name s\n";
    assert_eq!(rt; said_of_session(&rt, UNDONE, by_id)?, Ok(Verdict::No(2)));
    let refused =
        b"trace 64 4 flat 1 1 1 1 thin 1 1 1 1\n0 main mkpreset -source A -preset clone -> refused no such vdisk\n.\n";
    let session = b"mkpreset -source A -preset clone\n";
    assert_eq!(rt;
        said_of_session(&rt, refused, session)?,
        Ok(Verdict::Yes(1))
    );
    Ok(())
}

#[test]
fn an_open_block_is_left_out(rt: HostRuntime) -> Result<(), Fail> {
    let open =
        b"mkvdisk -name A -size 1\nwrite A 0 1 5a\nread A 0 2\ntogether\nactor h7 host\nread A 0 1\n";
    assert_eq!(rt; said_of_session(&rt, TRACE, open)?, Ok(Verdict::Yes(3)));
    Ok(())
}

#[test]
fn a_line_that_is_cut_is_malformed(rt: HostRuntime) -> Result<(), Fail> {
    let end = TRACE.len() as u64;
    assert_eq!(rt; said_behind(&rt, TRACE, b"x")?, Ok(Verdict::Malformed(end)));
    assert_eq!(rt;
        said_behind(&rt, TRACE, b"s")?,
        Ok(Verdict::Malformed(end + 1))
    );
    assert_eq!(rt;
        said_behind(&rt, TRACE, b"sess")?,
        Ok(Verdict::Malformed(end + 4))
    );
    assert_eq!(rt;
        said_behind(&rt, TRACE, b"session")?,
        Ok(Verdict::Malformed(end + 7))
    );
    assert_eq!(rt;
        said_behind(&rt, TRACE, b"session \n")?,
        Ok(Verdict::Malformed(end + 7))
    );
    assert_eq!(rt;
        said_behind(&rt, TRACE, b"seen")?,
        Ok(Verdict::Malformed(end + 2))
    );
    Ok(())
}

#[test]
fn a_session_fits_behind_a_full_trace(rt: HostRuntime) -> Result<(), Fail> {
    let mut text = Vec::new(rt.alloc());
    text.extend_from_slice(b"trace 64 4 flat 0 0 0 0 thin 0 0 0 0\n")?;
    let mut session = Vec::new(rt.alloc());
    for number in 0..262_144u32 {
        let entry = format!(in rt.alloc(); "{number} main - -> refused unknown command\n.\n")?;
        text.extend_from_slice(entry.as_bytes())?;
        session.extend_from_slice(b"x\n")?;
    }
    assert_eq!(rt;
        said_of_session(&rt, text.as_slice(), session.as_slice())?,
        Ok(Verdict::Yes(262_144))
    );
    assert_eq!(rt;
        said_behind(&rt, text.as_slice(), b"2")?,
        Err(CheckStop::LogFull)
    );
    Ok(())
}
