//! The texts of requests.

ghost use Rattle.std.specs.Prelude.{◌++◌, codes, decimal, is_err};
ghost use Rattle.fc_base.specs.CommandText.{byte_word};
ghost use Rattle.fc_entry.specs.Text.{request_text, two_numbers};
ghost use Rattle.fc_entry.specs.Written.{Written};

use crate::command_text::put_command;
use crate::parts::{byte_digits, put_all, put_number, put_numbers, put_text};
use fc_base::outcome::Failed;
use fc_base::request::{ReadPart, Request, WritePart};
use fc_io::sink::Sink;
use itoa::Buffer;

/// Puts a read of some blocks of a grain.
fn put_read_part<K: Sink>(part: ReadPart, sink: &mut K) -> Result<(), Failed>
    ensures { Written (K.meaning sink.old)
        (codes "read " ++ decimal part.volume.0 ++ codes " " ++ two_numbers part.block part.count)
        (is_err result) (K.meaning sink.new) }
{
    let mut volume = Buffer::new();
    let mut block = Buffer::new();
    let mut count = Buffer::new();
    put_all(
        sink,
        &[
            b"read ",
            volume.format(part.volume.0).as_bytes(),
            b" ",
            block.format(part.block).as_bytes(),
            b" ",
            count.format(part.count).as_bytes(),
        ],
    )
}

/// Puts a write of some blocks of a grain.
fn put_write_part<K: Sink>(part: WritePart, sink: &mut K) -> Result<(), Failed>
    ensures { Written (K.meaning sink.old)
        (codes "write " ++ decimal part.volume.0 ++ codes " " ++ two_numbers part.block part.count ++ codes " "
        ++ byte_word part.byte)
        (is_err result) (K.meaning sink.new) }
{
    let mut volume = Buffer::new();
    let mut block = Buffer::new();
    let mut count = Buffer::new();
    let byte = byte_digits(part.byte);
    put_all(
        sink,
        &[
            b"write ",
            volume.format(part.volume.0).as_bytes(),
            b" ",
            block.format(part.block).as_bytes(),
            b" ",
            count.format(part.count).as_bytes(),
            b" ",
            &byte,
        ],
    )
}

/// Puts what was asked, as it stands in the entry's line. Failed, a front of it was added.
pub fn put_request<K: Sink>(request: &Request, sink: &mut K) -> Result<(), Failed>
    ensures { Written (K.meaning sink.old) (request_text request.now) (is_err result) (K.meaning sink.new) }
{
    match request {
        Request::Command(command) => put_command(command, sink),
        Request::Unread(_) => put_text(sink, b"-"),
        Request::Read(part) => put_read_part(*part, sink),
        Request::Write(part) => put_write_part(*part, sink),
        Request::Copy { map, grain } => put_numbers(sink, b"copy ", map.0, grain.0),
        Request::Clean { map, grain } => put_numbers(sink, b"clean ", map.0, grain.0),
        Request::CopyTurn { lane } => put_number(sink, b"copyturn ", u32::from(*lane)),
        Request::CleanTurn { lane } => put_number(sink, b"cleanturn ", u32::from(*lane)),
    }
}
