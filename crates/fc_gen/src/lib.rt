//! The generated session, by which a drill exercises the whole product.
//!
//! `session` answers the session of a number, byte by byte as `specs/Session` defines it: eight volumes,
//! eight mappings that chain, fan out and lead back among them, and 5,000 drawn lines that write, read, start,
//! stop and let time pass. Each of its lines is the canonical line of a command. One file, this one.
#![tactic(auto)]

ghost use Rattle.std.specs.Prelude.{◌≡◌, ◌++◌, ◌<◌, false, IfOk, OnOk};
ghost use Rattle.std.specs.Fmt.{digit_glyph};
ghost use Rattle.std.specs.List.{flat_map};
ghost use Rattle.fc_gen.specs.Session.{draw, draw_write, draw_read, draw_start, draw_stop, draw_advance, drawn_of, first_commands, lines_of, next_draw, session_text, Adds};

use fc_base::outcome::NoMemory;
use itoa::Buffer;
use std::alloc::Global;

/// The lines that are drawn.
const DRAWN_LINES: u32 = 5000;

/// Blocks of each volume.
const BLOCKS: u32 = 2048;

/// The lines that every session begins with.
const FIRST_LINES: &[u8] = b"\
mkvdisk -name V0 -size 1\n\
mkvdisk -name V1 -size 1\n\
mkvdisk -name V2 -size 1\n\
mkvdisk -name V3 -size 1\n\
mkvdisk -name V4 -size 1\n\
mkvdisk -name V5 -size 1\n\
mkvdisk -name V6 -size 1\n\
mkvdisk -name V7 -size 1\n\
mkfcmap -source V0 -target V1 -incremental\n\
mkfcmap -source V0 -target V2\n\
mkfcmap -source V1 -target V3 -copyrate 0\n\
mkfcmap -source V3 -target V4\n\
mkfcmap -source V4 -target V5 -copyrate 10\n\
mkfcmap -source V1 -target V0\n\
mkfcmap -source V6 -target V7 -incremental\n\
mkfcmap -source V2 -target V6\n\
";

/// Draws by a number.
#[derive(Clone, Copy, PartialEq, Eq)]
struct Draws {
    state: u64,
}

impl Draws {
    /// Draws one of so many.
    fn below(&mut self, count: u32) -> u32
        requires { 0 < count }
        ensures state { self.new.state ≡ next_draw self.old.state }
        ensures drawn { result ≡ drawn_of count self.new.state }
        ensures below { result < count }
    {
        self.state = self
            .state
            .wrapping_mul(6_364_136_223_846_793_005)
            .wrapping_add(1_442_695_040_888_963_407);
        ((self.state >> 33) % u64::from(count)) as u32
    }
}

/// The digit of a number below 16, in lower case.
fn hex_digit(digit: u8) -> u8
    requires { digit < 16 }
    ensures { result ≡ digit_glyph false digit }
{
    if digit < 10 {
        b'0' + digit
    } else {
        b'a' + (digit - 10)
    }
}

/// The session being written.
#[derive(Drop)]
struct Text {
    bytes: Vec<u8>,
}

impl Text {
    /// Adds parts, one after the other.
    fn put_all(&mut self, parts: &[&[u8]]) -> Result<(), NoMemory>
        ensures { OnOk result (self.new.bytes.items ≡ self.old.bytes.items ++ flat_map (λ part. part.now) parts.now) }
    {
        for part in parts {
            match self.bytes.extend_from_slice(part) {
                Ok(()) => {}
                Err(_) => return Err(NoMemory),
            }
        }
        Ok(())
    }

    /// Adds the lines that every session begins with.
    fn put_first(&mut self) -> Result<(), NoMemory>
        ensures { OnOk result (self.new.bytes.items ≡ self.old.bytes.items ++ lines_of first_commands) }
    {
        self.put_all(&[FIRST_LINES])
    }

    /// Adds a drawn `write`.
    fn put_write(&mut self, draws: &mut Draws) -> Result<(), NoMemory>
        ensures { OnOk result (Adds (draw_write draws.old.state) draws.new.state self.old.bytes.items self.new.bytes.items) }
    {
        let volume = draws.below(8);
        let first = draws.below(BLOCKS);
        let count = (1 + draws.below(64)).min(BLOCKS - first);
        let byte = draws.below(256) as u8;
        self.put_all(&[
            b"write V",
            Buffer::new().format(volume).as_bytes(),
            b" ",
            Buffer::new().format(first).as_bytes(),
            b" ",
            Buffer::new().format(count).as_bytes(),
            b" ",
            &[hex_digit(byte / 16), hex_digit(byte % 16)],
            b"\n",
        ])
    }

    /// Adds a drawn `read`.
    fn put_read(&mut self, draws: &mut Draws) -> Result<(), NoMemory>
        ensures { OnOk result (Adds (draw_read draws.old.state) draws.new.state self.old.bytes.items self.new.bytes.items) }
    {
        let volume = draws.below(8);
        let first = draws.below(BLOCKS);
        let count = (1 + draws.below(64)).min(BLOCKS - first);
        self.put_all(&[
            b"read V",
            Buffer::new().format(volume).as_bytes(),
            b" ",
            Buffer::new().format(first).as_bytes(),
            b" ",
            Buffer::new().format(count).as_bytes(),
            b"\n",
        ])
    }

    /// Adds a drawn start of a mapping.
    fn put_start(&mut self, draws: &mut Draws) -> Result<(), NoMemory>
        ensures { OnOk result (Adds (draw_start draws.old.state) draws.new.state self.old.bytes.items self.new.bytes.items) }
    {
        let map = draws.below(8);
        self.put_all(&[
            b"startfcmap -prep -restore ",
            Buffer::new().format(map).as_bytes(),
            b"\n",
        ])
    }

    /// Adds a drawn stop of a mapping.
    fn put_stop(&mut self, draws: &mut Draws) -> Result<(), NoMemory>
        ensures { OnOk result (Adds (draw_stop draws.old.state) draws.new.state self.old.bytes.items self.new.bytes.items) }
    {
        let way = draws.below(3);
        let map = draws.below(8);
        let mut buffer = Buffer::new();
        let digits = buffer.format(map).as_bytes();
        if way == 0 {
            self.put_all(&[b"stopfcmap ", digits, b"\n"])
        } else if way == 1 {
            self.put_all(&[b"stopfcmap -force ", digits, b"\n"])
        } else {
            self.put_all(&[b"stopfcmap -split ", digits, b"\n"])
        }
    }

    /// Adds a drawn passing of time.
    fn put_advance(&mut self, draws: &mut Draws) -> Result<(), NoMemory>
        ensures { OnOk result (Adds (draw_advance draws.old.state) draws.new.state self.old.bytes.items self.new.bytes.items) }
    {
        let seconds = 1 + draws.below(3);
        self.put_all(&[
            b"advance -seconds ",
            Buffer::new().format(seconds).as_bytes(),
            b"\n",
        ])
    }

    /// Adds a drawn line.
    fn put_drawn(&mut self, draws: &mut Draws) -> Result<(), NoMemory>
        ensures { OnOk result (Adds (draw draws.old.state) draws.new.state self.old.bytes.items self.new.bytes.items) }
    {
        let kind = draws.below(10);
        if kind < 4 {
            self.put_write(draws)
        } else if kind < 7 {
            self.put_read(draws)
        } else if kind == 7 {
            self.put_start(draws)
        } else if kind == 8 {
            self.put_stop(draws)
        } else {
            self.put_advance(draws)
        }
    }
}

/// The session of a number.
pub fn session(alloc: Global, number: u64) -> Result<Vec<u8>, NoMemory>
    ensures { IfOk result (λ bytes. bytes.items ≡ session_text number) }
{
    let mut text = Text {
        bytes: Vec::new(alloc),
    };
    let mut draws = Draws { state: number };
    text.put_first()?;
    for _ in 0..DRAWN_LINES {
        text.put_drawn(&mut draws)?;
    }
    Ok(text.bytes)
}
