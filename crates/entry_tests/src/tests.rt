//! Entries, commands and a whole history through a sink in memory. The texts were written by hand.

ghost use Rattle.std.specs.Prelude.{◌≡◌, ◌<◌, length, IfOk, OnOk};
ghost use Rattle.fc_entry.specs.Text.{HasNames};

use fc_base::command::Command;
use fc_base::fault::{Kind, Refusal, WordFault};
use fc_base::ids::VolId;
use fc_base::list::List;
use fc_base::name::{Name, Ref};
use fc_base::request::{Place, ReadPart, Reply, Request, WritePart};
use fc_base::runs::Runs;
use fc_base::size::GrainSize;
use fc_entry::command_text::put_command;
use fc_entry::entry::Entry;
use fc_entry::history::History;
use fc_entry::text::{put_entry, put_history};
use fc_io::mem_sink::MemSink;
use fc_io::sink::Sink;
use std::alloc::Global;
use std::test::Fail;

/// Pushes an entry of `main` of which the text alone counts.
fn push(alloc: Global, history: &mut History, request: Request, reply: Reply) -> Result<(), Fail>
    requires actors { 0 < length history.old.actors }
    requires names { HasNames history.old }
    ensures actors { history.new.actors ≡ history.old.actors }
    ensures names { OnOk result (HasNames history.new) }
{
    let entry = Entry {
        number: history.len() as u64,
        actor: 0,
        place: Place::Control,
        request,
        reply,
        moves: List::new(alloc),
        effects: List::new(alloc),
        torn: None,
        faults_before: 0,
        faults_after: 0,
        calls: 0,
    };
    history.push(entry).ok().ok_or("no memory for an entry")?;
    Ok(())
}

/// A row of a report.
fn line(alloc: Global, text: &[u8]) -> Result<List<u8>, Fail> {
    let mut row = List::new(alloc);
    for byte in text {
        row.push(*byte)?;
    }
    Ok(row)
}

/// A history of some entries of `main`, a report among them.
fn first_history(alloc: Global) -> Result<History, Fail>
    ensures { IfOk result (λ history. HasNames history) }
{
    let main = Name::new(alloc, b"main")?.ok_or("a name")?;
    let mut history = History::new(alloc);
    history.actor(alloc, &main)?;
    let made = Command::Mkvdisk {
        name: Name::new(alloc, b"A")?,
        size: 1,
        unit: None,
        thin: false,
    };
    push(
        alloc,
        &mut history,
        Request::Command(made),
        Reply::Made {
            kind: Kind::Vdisk,
            id: 0,
        },
    )?;
    let written = WritePart {
        volume: VolId(0),
        block: 0,
        count: 1,
        byte: 0x5a,
    };
    push(alloc, &mut history, Request::Write(written), Reply::Done)?;
    let read = ReadPart {
        volume: VolId(0),
        block: 0,
        count: 2,
    };
    let bytes = Runs::of(alloc, b"ZZ\0")?;
    push(
        alloc,
        &mut history,
        Request::Read(read),
        Reply::Bytes(bytes),
    )?;
    let refused = Refusal::NotComplete { held: 3, total: 16 };
    push(
        alloc,
        &mut history,
        Request::Unread(WordFault::LongLine),
        Reply::Refused(refused),
    )?;
    let mut rows = List::new(alloc);
    rows.push(line(alloc, b"id name")?)?;
    rows.push(line(alloc, b"0  A")?)?;
    push(
        alloc,
        &mut history,
        Request::Command(Command::Lsvdisk { delim: None }),
        Reply::Listed(rows),
    )?;
    Ok(history)
}

/// What `first_history` is printed as.
const FIRST_TEXT: &[u8] = b"\
0 main mkvdisk -name A -size 1 -> Virtual Disk, id [0], successfully created
1 main write 0 0 1 5a -> ok
2 main read 0 0 2 -> data 2*5a,1*00
3 main - -> refused not complete 3 16
4 main lsvdisk -> rows 2
id name
0  A
";

#[test]
fn prints_a_whole_history(rt: HostRuntime) -> Result<(), Fail> {
    let alloc = rt.alloc();
    let history = first_history(alloc)?;
    let mut sink = MemSink::new(alloc, Vec::new(alloc));
    assert!(rt; put_history(&history, &mut sink).is_ok());
    assert_eq!(rt; sink.bytes(), FIRST_TEXT);
    Ok(())
}

#[test]
fn stops_at_a_call_that_fails(rt: HostRuntime) -> Result<(), Fail> {
    let alloc = rt.alloc();
    let history = first_history(alloc)?;
    let mut failing = Vec::new(alloc);
    failing.push(12)?;
    let mut sink = MemSink::new(alloc, failing);
    assert!(rt; put_history(&history, &mut sink).is_err());
    assert_eq!(rt; sink.faults(), 1);
    assert!(rt; FIRST_TEXT.starts_with(sink.bytes()));
    Ok(())
}

#[test]
fn prints_an_entry_alone(rt: HostRuntime) -> Result<(), Fail> {
    let alloc = rt.alloc();
    let history = first_history(alloc)?;
    let mut sink = MemSink::new(alloc, Vec::new(alloc));
    assert!(rt; history.len() == 5);
    assert!(rt; put_entry(&history, 3, &mut sink).is_ok());
    assert_eq!(rt;
        sink.bytes(),
        b"3 main - -> refused not complete 3 16\n".as_slice()
    );
    Ok(())
}

#[test]
fn prints_a_command_with_all_its_options(rt: HostRuntime) -> Result<(), Fail> {
    let alloc = rt.alloc();
    let command = Command::Mkfcmap {
        source: Ref::Id(0),
        target: Ref::Name(Name::new(alloc, b"B")?.ok_or("a name")?),
        name: Name::new(alloc, b"night")?,
        group: Some(Ref::Id(1)),
        copy_rate: Some(0),
        clean_rate: Some(50),
        grain_size: Some(GrainSize::K256),
        incremental: true,
        autodelete: true,
    };
    let mut sink = MemSink::new(alloc, Vec::new(alloc));
    assert!(rt; put_command(&command, &mut sink).is_ok());
    assert_eq!(rt;
        sink.bytes(),
        b"mkfcmap -source 0 -target B -name night -consistgrp 1 -copyrate 0 -cleanrate 50 -grainsize 256 \
-incremental -autodelete"
            .as_slice()
    );
    Ok(())
}
