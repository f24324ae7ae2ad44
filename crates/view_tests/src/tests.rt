//! What is drawn of traces worked out by hand.

ghost use Rattle.std.specs.Prelude.{None};

use fc_drawing::canvas::{Canvas, NotDrawn};
use fc_drawing::drawing::{Drawing, Seen, Sums};
use fc_drawing_text::svg_canvas::SvgCanvas;
use fc_drawing_text::text_canvas::TextCanvas;
use fc_io::mem_sink::MemSink;
use fc_view::stop::ViewStop;
use fc_view::view::view_bytes;
use std::alloc::Global;
use std::process::Abort;
use std::test::Fail;

/// A volume of one grain; two blocks written; these read, with one before and one behind them.
const FIRST: &[u8] =
    b"trace 64 4 flat 1 1 1 1 thin 0 0 0 0\n0 main mkvdisk -name A -size 64 -unit kb -> Virtual Disk, id [0], successfully created\n+ make 0 1\n.\n1 main write 0 1 2 5a -> ok\n+ calls 2 faults 0 0\n.\n2 main read 0 0 4 -> data 512*00,1024*5a,512*00\n+ calls 1 faults 0 0\n.\n";

/// What is drawn of it.
const FIRST_DRAWN: &[u8] =
    b"0 main mkvdisk -name A -size 64 -unit kb -> Virtual Disk, id [0], successfully created\n  chain 0\n    #  A\n1 main write 0 1 2 5a -> ok\n  chain 0\n    #  A\n2 main read 0 0 4 -> data 512*00,1024*5a,512*00\n  grain 0: A has it\n    block 0: never written\n    blocks 1 to 2: bytes of entry 1, write 0 1 2 5a\n    block 3: never written\nmoves\nroom\n  A: 1 of 1 grains\n";

/// A cascade A, B, C, D, of which B is written and all are read.
const CASCADE: &[u8] =
    b"trace 64 4 flat 512 512 512 512 thin 512 512 512 512\n0 main mkvdisk -name A -size 64 -unit kb -> Virtual Disk, id [0], successfully created\n+ make 0 1\n.\n1 main mkvdisk -name B -size 64 -unit kb -> Virtual Disk, id [1], successfully created\n+ make 1 1\n.\n2 main mkvdisk -name C -size 64 -unit kb -> Virtual Disk, id [2], successfully created\n+ make 2 1\n.\n3 main mkvdisk -name D -size 64 -unit kb -> Virtual Disk, id [3], successfully created\n+ make 3 1\n.\n4 main write 0 0 1 11 -> ok\n+ calls 2 faults 0 0\n.\n5 main mkfcmap -source A -target B -copyrate 0 -> FlashCopy Mapping, id [0], successfully created\n.\n6 main mkfcmap -source B -target C -copyrate 0 -> FlashCopy Mapping, id [1], successfully created\n.\n7 main mkfcmap -source C -target D -copyrate 0 -> FlashCopy Mapping, id [2], successfully created\n.\n8 main startfcmap -prep 0 -> ok\n+ trigger 0:0>1\n+ state 0 copying\n.\n9 main startfcmap -prep 1 -> ok\n+ trigger 1:1>2\n+ state 1 copying\n.\n10 main startfcmap -prep 2 -> ok\n+ trigger 2:2>3\n+ state 2 copying\n.\n11 main write 1 0 1 22 -> ok\n+ calls 4 faults 0 0\n+ move 5 2 0\n.\n12 main read 0 0 1 -> data 512*11\n+ calls 1 faults 0 0\n.\n13 main read 1 0 1 -> data 512*22\n+ calls 1 faults 0 0\n.\n14 main read 2 0 1 -> data 512*11\n+ calls 1 faults 0 0\n.\n15 main read 3 0 1 -> data 512*11\n+ calls 1 faults 0 0\n.\n";

/// Asserts what is said of a trace, and what is drawn of it as text.
fn is_drawn<R: Abort>(
    rt: &R,
    alloc: Global,
    text: &[u8],
    at: Option<u64>,
    seen: Seen,
    drawn: &[u8],
) -> Result<(), Fail> {
    let mut canvas = TextCanvas::new(alloc, MemSink::new(alloc, Vec::new(alloc)));
    assert_eq!(rt; view_bytes(alloc, text, at, &mut canvas), Ok(seen));
    assert_eq!(rt; canvas.sink.bytes(), drawn);
    Ok(())
}

#[test]
fn blocks_are_told_by_their_writes(rt: HostRuntime) -> Result<(), Fail> {
    is_drawn(&rt, rt.alloc(), FIRST, None, Seen::Right(3), FIRST_DRAWN)
}

#[test]
fn a_write_moves_a_grain_past_its_volume(rt: HostRuntime) -> Result<(), Fail> {
    is_drawn(
        &rt,
        rt.alloc(),
        CASCADE,
        Some(11),
        Seen::Right(16),
        b"11 main write 1 0 1 22 -> ok\n  move grain 0 from A to C, before the write of B\n  chain 0\n    #  A\n    #  B  by fcmap0, copying, 1 of 1\n    #  C  by fcmap1, copying, 1 of 1\n    .  D  by fcmap2, copying, 0 of 1\n",
    )
}

#[test]
fn a_read_is_explained_by_the_copy_and_the_write(rt: HostRuntime) -> Result<(), Fail> {
    is_drawn(
        &rt,
        rt.alloc(),
        CASCADE,
        Some(15),
        Seen::Right(16),
        b"15 main read 3 0 1 -> data 512*11\n  grain 0: D lacks it, C has it\n    to C copied from A by entry 11, write 1 0 1 22\n    block 0: bytes of entry 4, write 0 0 1 11\n  chain 0\n    #  A\n    #  B  by fcmap0, copying, 1 of 1\n    #  C  by fcmap1, copying, 1 of 1\n    .  D  by fcmap2, copying, 0 of 1\n",
    )
}

#[test]
fn a_wrong_entry_ends_the_drawing(rt: HostRuntime) -> Result<(), Fail> {
    is_drawn(
        &rt,
        rt.alloc(),
        b"trace 64 4 flat 1 1 1 1 thin 0 0 0 0\n0 main mkvdisk -name A -size 64 -unit kb -> Virtual Disk, id [0], successfully created\n+ make 0 1\n.\n1 main write 0 1 2 5a -> ok\n+ calls 2 faults 0 0\n.\n2 main read 0 0 4 -> data 512*00,1024*5b,512*00\n+ calls 1 faults 0 0\n.\n",
        None,
        Seen::Wrong(2),
        b"0 main mkvdisk -name A -size 64 -unit kb -> Virtual Disk, id [0], successfully created\n  chain 0\n    #  A\n1 main write 0 1 2 5a -> ok\n  chain 0\n    #  A\nwrong: entry 2 isn't right after those before it\n",
    )
}

#[test]
fn a_malformed_end_is_told(rt: HostRuntime) -> Result<(), Fail> {
    is_drawn(
        &rt,
        rt.alloc(),
        b"trace 64 4 flat 1 1 1 1 thin 0 0 0 0\n0 main mkvdisk -name A -size 64 -unit kb -> Virtual Disk, id [0], successfully created\n+ make 0 1\n.\n1 main write 0 1 2 5a -> ok\n+ calls 2 faults 0 0\n.\n2 main read 0 0 4 -> data 512*00,1024*5a,512*00\n+ calls 1 faults 0 0\n",
        Some(7),
        Seen::Malformed(257),
        b"malformed: no trace goes on at byte 257\n",
    )
}

#[test]
fn a_wrong_entry_ends_it_though_another_is_wanted(rt: HostRuntime) -> Result<(), Fail> {
    is_drawn(
        &rt,
        rt.alloc(),
        b"trace 64 4 flat 1 1 1 1 thin 0 0 0 0\n0 main mkvdisk -name A -size 64 -unit kb -> Virtual Disk, id [0], successfully created\n+ make 0 2\n.\n",
        Some(0),
        Seen::Wrong(0),
        b"wrong: entry 0 isn't right after those before it\n",
    )
}

#[test]
fn no_trace_at_all(rt: HostRuntime) -> Result<(), Fail> {
    is_drawn(
        &rt,
        rt.alloc(),
        b"trace 65",
        None,
        Seen::Malformed(7),
        b"malformed: no trace goes on at byte 7\n",
    )
}

#[test]
fn a_session_is_not_looked_at(rt: HostRuntime) -> Result<(), Fail> {
    is_drawn(
        &rt,
        rt.alloc(),
        b"trace 64 4 flat 1 1 1 1 thin 0 0 0 0\nsession\nfrob\n",
        None,
        Seen::Right(0),
        b"moves\nroom\n",
    )
}

#[test]
fn a_line_that_begins_no_session(rt: HostRuntime) -> Result<(), Fail> {
    is_drawn(
        &rt,
        rt.alloc(),
        b"trace 64 4 flat 1 1 1 1 thin 0 0 0 0\nsessions\n",
        None,
        Seen::Malformed(44),
        b"malformed: no trace goes on at byte 44\n",
    )
}

#[test]
fn a_drawing_as_svg(rt: HostRuntime) -> Result<(), Fail> {
    let alloc = rt.alloc();
    let mut canvas = SvgCanvas::new(alloc, MemSink::new(alloc, Vec::new(alloc)));
    assert_eq!(rt;
        view_bytes(alloc, FIRST, Some(0), &mut canvas),
        Ok(Seen::Right(3))
    );
    let drawn = canvas.sink.bytes();
    assert!(rt; drawn.starts_with(b"== entry-0.svg\n<svg xmlns=\"http://www.w3.org/2000/svg\" "));
    assert!(rt; drawn.ends_with(b"</svg>\n"));
    Ok(())
}

#[test]
fn a_sink_that_fails_is_told(rt: HostRuntime) -> Result<(), Fail> {
    let alloc = rt.alloc();
    let mut canvas = TextCanvas::new(alloc, MemSink::new(alloc, vec![in alloc; 3]?));
    assert_eq!(rt;
        view_bytes(alloc, FIRST, None, &mut canvas),
        Err(ViewStop::WriteFault)
    );
    Ok(())
}

/// A canvas that refuses all but some first drawings, and counts what it is asked.
#[derive(Drop)]
struct Refusing {
    taken: usize,
    most: usize,
    refusal: NotDrawn,
    ended: bool,
}

impl Canvas for Refusing {
    ghost drawn = { λ _. None };

    fn draw(&mut self, _alloc: Global, _drawing: Drawing<'_>) -> Result<(), NotDrawn> {
        if self.taken >= self.most {
            return Err(self.refusal);
        }
        self.taken = self.taken.saturating_add(1);
        Ok(())
    }

    fn sum_up(&mut self, _sums: Sums<'_>) -> Result<(), NotDrawn> {
        Ok(())
    }

    fn end(&mut self, _seen: Seen) -> Result<(), NotDrawn> {
        self.ended = true;
        Ok(())
    }
}

#[test]
fn a_canvas_that_refuses_ends_the_view(rt: HostRuntime) -> Result<(), Fail> {
    let alloc = rt.alloc();
    for (refusal, stop) in [
        (NotDrawn::NoMemory, ViewStop::NoMemory),
        (NotDrawn::WriteFault, ViewStop::WriteFault),
    ] {
        let mut canvas = Refusing {
            taken: 0,
            most: 2,
            refusal,
            ended: false,
        };
        assert_eq!(rt; view_bytes(alloc, FIRST, None, &mut canvas), Err(stop));
        assert_eq!(rt; (canvas.taken, canvas.ended), (2, false));
    }
    Ok(())
}
