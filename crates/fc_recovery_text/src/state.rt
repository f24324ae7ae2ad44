//! What is recovered is written.

ghost use Rattle.std.specs.Prelude.{◌≡◌, ◌<◌, [], IfOk, None, Some, is_err, length};
ghost use Rattle.fc_base.specs.SheetFacts.{HasSizes};
ghost use Rattle.fc_base.specs.declared.command.Command.TheVariants.{Lsfcmap};
ghost use Rattle.fc_books.specs.Reports.{report_rows};
ghost use Rattle.fc_check_sheet.specs.View.{view_of};
ghost use Rattle.fc_entry.specs.Written.{Written};
ghost use Rattle.fc_format.specs.Halves.{Image as FoundImage, recovered};
ghost use Rattle.fc_image.specs.declared.image.MetaImage.{MetaImage as Said};
ghost use Rattle.fc_kept.specs.Sound.{IsSoundImage};
ghost use Rattle.fc_recovered.specs.Recovered.{CanRecover};
ghost use Rattle.fc_report.specs.Asked.{asked};
ghost use Rattle.fc_recovery_text.specs.Recovering.{IsFirstFront, IsFirstText, IsFound, IsFoundGood, IsImageFront, IsImageText, IsStateFront, IsStateText, KeepDisks};
ghost use Rattle.fc_recovery_text.specs.declared.state.Unwritten.TheVariants.{Failed as SinkFailed, NoMemory as WantsMemory};
ghost use Rattle.fc_recovery_text.specs.Putting.{IsPutOr, NextPut, ReadsPut, StateIsPut};
ghost use Rattle.fc_recovery_text.specs.Text.{answered_text, lines_text, no_image, read_text, rows_in};

use crate::registry::registry_of;
use crate::sheet::sheet_of;
use fc_base::command::Command;
use fc_base::outcome::{Failed, NoMemory};
use fc_base::request::{ReadPart, Reply, Request, Rows};
use fc_base::size::GrainSize;
use fc_check_rooms::Rooms;
use fc_check_rows::Rows as Changes;
use fc_check_sheet::PlainView;
use fc_entry::parts::put_text;
use fc_entry::reply_text::{put_reply, put_reply_rows};
use fc_entry::request_text::put_request;
use fc_image::MetaImage;
use fc_io::sink::Sink;
use fc_mdisk::mdisk::Mdisk;
use fc_meta::{Meta, RecoverError};
use fc_metadisk::MemMeta;
use fc_recovered::{LaneDisks, Recovered};
use fc_registry::Registry;
use fc_report::report;
use std::alloc::Global;

/// The rows of all mappings by these tables and this view, with colons between the fields.
fn all_rows(
    alloc: Global,
    grain: GrainSize,
    registry: &Registry,
    view: &PlainView,
) -> Result<Rows, NoMemory>
    requires { HasSizes view.now.sheet.slots }
    ensures { IfOk result (λ rows.
        rows ≡ report_rows grain (asked registry.now.tables (view_of view.now)) (Lsfcmap None (Some 58))) }
{
    let command = Command::Lsfcmap {
        map: None,
        delim: Some(b':'),
    };
    report(alloc, &command, grain, registry, view)
}

/// The rows of all mappings, as an image has them: those of `lsfcmap -delim :`, without a settling.
pub fn rows_of(alloc: Global, grain: GrainSize, image: &MetaImage) -> Result<Rows, NoMemory>
    requires { IsSoundImage image.now }
    ensures { IfOk result (λ rows. rows ≡ rows_in grain image.now) }
{
    let registry = registry_of(alloc, image)?;
    let sheet = sheet_of(alloc, image)?;
    let changes = Changes::new(alloc);
    let rooms = Rooms::new(alloc);
    let view = PlainView::new(&sheet, registry.all_mappings(), &changes, &[], &rooms);
    all_rows(alloc, grain, &registry, &view)
}

/// Puts what was asked and what was answered.
fn put_answered<K: Sink>(request: &Request, reply: &Reply, sink: &mut K) -> Result<(), Failed>
    ensures { Written (K.meaning sink.old) (answered_text request.now reply.now) (is_err result) (K.meaning sink.new) }
{
    put_request(request, sink)?;
    put_text(sink, b" -> ")?;
    put_reply(reply, sink)?;
    put_text(sink, b"\n")
}

/// Puts a read and its answer.
fn put_read<K: Sink>(part: ReadPart, reply: &Reply, sink: &mut K) -> Result<(), Failed>
    ensures { Written (K.meaning sink.old) (read_text part reply.now) (is_err result) (K.meaning sink.new) }
{
    put_answered(&Request::Read(part), reply, sink)
}

/// Reads the first block of the volume at a place, and puts the answer. A volume without a grain is passed.
fn put_next<D: Mdisk, K: Sink>(
    alloc: Global,
    recovered: &mut Recovered<D>,
    place: usize,
    sink: &mut K,
) -> Result<(), Failed>
    requires { place < length recovered.old.image.volumes }
    ensures { NextPut recovered.old recovered.new place (K.meaning sink.old) (is_err result) (K.meaning sink.new) }
{
    match recovered.first_block(place) {
        Some(part) => {
            let reply = recovered.read(alloc, part);
            put_read(part, &reply, sink)
        }
        None => Ok(()),
    }
}

/// Reads the first block of each volume, and puts the answers.
fn put_reads<D: Mdisk, K: Sink>(
    alloc: Global,
    recovered: &mut Recovered<D>,
    sink: &mut K,
) -> Result<(), Failed>
    ensures { ReadsPut recovered.old recovered.new (K.meaning sink.old) (is_err result) (K.meaning sink.new) }
{
    let volumes = recovered.volumes().len();
    for place in 0..volumes {
        put_next(alloc, recovered, place, sink)?;
    }
    Ok(())
}

/// Why a state isn't written whole.
pub enum Unwritten {
    /// The sink failed.
    Failed,
    /// Memory was wanted.
    NoMemory,
}

impl From<Failed> for Unwritten {
    ghost from_gives = { λ failed e. e ≡ SinkFailed };

    fn from(_failed: Failed) -> Unwritten {
        Unwritten::Failed
    }
}

impl From<NoMemory> for Unwritten {
    ghost from_gives = { λ wanted e. e ≡ WantsMemory };

    fn from(_wanted: NoMemory) -> Unwritten {
        Unwritten::NoMemory
    }
}

/// Puts rows, a line each.
fn put_lines<K: Sink>(rows: Rows, sink: &mut K) -> Result<(), Failed>
    ensures { Written (K.meaning sink.old) (lines_text rows) (is_err result) (K.meaning sink.new) }
{
    put_reply_rows(&Reply::Listed(rows), sink)
}

/// Puts the rows of all mappings of an image.
fn put_rows<K: Sink>(
    alloc: Global,
    grain: GrainSize,
    image: &MetaImage,
    sink: &mut K,
) -> Result<(), Unwritten>
    requires { IsSoundImage image.now }
    ensures { IsPutOr result (lines_text (rows_in grain image.now)) (K.meaning sink.old) (K.meaning sink.new) }
{
    let rows = rows_of(alloc, grain, image)?;
    put_lines(rows, sink)?;
    Ok(())
}

/// What the disk of metadata stands for: an image, or none.
fn found_on(alloc: Global, found: MemMeta) -> Result<Option<MetaImage>, NoMemory>
    requires { IsFoundGood (recovered found.bytes) }
    ensures { IfOk result (λ image. IsFound (recovered found.bytes) image) }
{
    match Meta::recover(alloc, found) {
        Ok((_, image)) => Ok(Some(image)),
        Err((_, RecoverError::NoImage)) => Ok(None),
        Err((_, RecoverError::NoMemory)) => Err(NoMemory),
        Err((_, RecoverError::Failed | RecoverError::Damaged(_))) => unreachable!(),
    }
}

/// Puts what an image and the disks of all lanes say: the rows of all mappings, and what each volume reads. The disks come back.
fn put_image<D: Mdisk, K: Sink>(
    alloc: Global,
    grain: GrainSize,
    image: MetaImage,
    lanes: Vec<LaneDisks<D>>,
    sink: &mut K,
) -> (Vec<LaneDisks<D>>, Result<(), Unwritten>)
    requires { CanRecover grain image lanes.items }
    ensures kept { KeepDisks lanes.items result.0.items }
    ensures put { StateIsPut result.1 (λ text. IsImageText grain image lanes.items text result.0.items)
        (λ text. IsImageFront grain image lanes.items text result.0.items) (K.meaning sink.old) (K.meaning sink.new) }
{
    match put_rows(alloc, grain, &image, sink) {
        Ok(()) => {}
        Err(unwritten) => return (lanes, Err(unwritten)),
    }
    match Recovered::new(alloc, grain, image, lanes) {
        Ok(mut recovered) => match put_reads(alloc, &mut recovered, sink) {
            Ok(()) => (recovered.into_disks(), Ok(())),
            Err(Failed) => (recovered.into_disks(), Err(Unwritten::Failed)),
        },
        Err((lanes, NoMemory)) => (lanes, Err(Unwritten::NoMemory)),
    }
}

/// Puts that no image was found.
fn put_no_image<K: Sink>(sink: &mut K) -> Result<(), Unwritten>
    ensures { IsPutOr result no_image (K.meaning sink.old) (K.meaning sink.new) }
{
    put_text(sink, b"no image\n")?;
    Ok(())
}

/// Puts what is recovered of a disk of metadata and the disks of all lanes. These come back.
pub fn put_state<D: Mdisk, K: Sink>(
    alloc: Global,
    grain: GrainSize,
    found: MemMeta,
    lanes: Vec<LaneDisks<D>>,
    sink: &mut K,
) -> (Vec<LaneDisks<D>>, Result<(), Unwritten>)
    requires good { IsFoundGood (recovered found.bytes) }
    requires can { (image : Said) → recovered found.bytes ≡ FoundImage image → CanRecover grain image lanes.items }
    ensures kept { KeepDisks lanes.items result.0.items }
    ensures put { StateIsPut result.1 (λ text. IsStateText grain (recovered found.bytes) lanes.items text result.0.items)
        (λ text. IsStateFront grain (recovered found.bytes) lanes.items text result.0.items) (K.meaning sink.old) (K.meaning sink.new) }
{
    match found_on(alloc, found) {
        Ok(Some(image)) => put_image(alloc, grain, image, lanes, sink),
        Ok(None) => (lanes, put_no_image(sink)),
        Err(NoMemory) => (lanes, Err(Unwritten::NoMemory)),
    }
}

/// Puts what is recovered of a disk of metadata on which the first image may stand: without volumes nothing is read.
pub fn put_first_state<K: Sink>(
    alloc: Global,
    grain: GrainSize,
    found: MemMeta,
    sink: &mut K,
) -> Result<(), Unwritten>
    requires good { IsFoundGood (recovered found.bytes) }
    requires bare { (image : Said) → recovered found.bytes ≡ FoundImage image → IsSoundImage image × (image.volumes ≡ []) }
    ensures { StateIsPut result (λ text. IsFirstText grain (recovered found.bytes) text)
        (λ text. IsFirstFront grain (recovered found.bytes) text) (K.meaning sink.old) (K.meaning sink.new) }
{
    match found_on(alloc, found)? {
        Some(image) => put_rows(alloc, grain, &image, sink),
        None => put_no_image(sink),
    }
}
