//! What the lines of an actor ask, as items of its script.

ghost use Rattle.std.specs.Prelude.{◌≡◌, ◌<◌, List, [], ◌∷◌, ◌++◌, All, IfOk, OnOk};
ghost use Rattle.fc_desk.specs.Control.{ControlState};
ghost use Rattle.fc_lanes.specs.Asking.{command_of};
ghost use Rattle.fc_stands.specs.Phase.{IsDecided};
ghost use Rattle.fc_prepare.specs.Items.{AreItemsOf, IsItemIf, IsItemOf, IsOfActor, whole_span};

use fc_actors::script::Item;
use fc_actors::span::Span;
use fc_base::command::{Command, Line, ScriptLine};
use fc_base::fault::{Refusal, WordFault};
use fc_base::ids::VolId;
use fc_base::name::Ref;
use fc_base::outcome::NoMemory;
use fc_base::request::Request;
use fc_base::size::GrainSize;
use fc_copies::copy::copy_command;
use fc_lanes::access::Access;
use fc_lanes::touched::touched_grains;
use fc_mdisk::mdisk::Mdisk;
use fc_store::store::Store;
use std::alloc::Global;
use std::collections::VecDeque;

/// An access of one block or more, of which all grains are left.
fn whole_span(grain: GrainSize, access: Access, volume: VolId, block: u32, count: u32) -> Span
    requires { 0 < count }
    ensures { result ≡ whole_span grain access volume block count }
{
    let (first, last) = touched_grains(grain, block, count);
    Span {
        access,
        volume,
        block,
        count,
        next: first,
        end: last + 1,
    }
}

/// What an access asks, which is this command: its grains, or itself with the refusal.
fn access_item<D: Mdisk>(
    alloc: Global,
    store: &Store<D>,
    command: &Command,
    access: Access,
    volume: &Ref,
    block: u32,
    count: u32,
) -> Result<Item, NoMemory>
    requires { command.now ≡ command_of access volume.now block count }
    ensures { IfOk result (λ item. IsItemOf store.now.control (ScriptLine.Read (Line.Command command.now)) item) }
{
    match store.taken(volume, block, count) {
        Ok(id) => Ok(Item::Access(whole_span(store.grain(), access, id, block, count))),
        Err(refusal) => match copy_command(alloc, command) {
            Ok(copy) => Ok(Item::Refused {
                request: Request::Command(copy),
                refusal,
            }),
            Err(NoMemory) => Err(NoMemory),
        },
    }
}

/// What a command asks that is no access and no preset: itself.
fn other_item(alloc: Global, command: &Command) -> Result<Item, NoMemory>
    requires { IsDecided command.now }
    ensures { IfOk result (λ item. (c : ControlState) → IsItemOf c (ScriptLine.Read (Line.Command command.now)) item) }
{
    match copy_command(alloc, command) {
        Ok(copy) => Ok(Item::Command(copy)),
        Err(NoMemory) => Err(NoMemory),
    }
}

/// What a command of an actor asks.
fn command_item<D: Mdisk>(
    alloc: Global,
    store: &Store<D>,
    command: &Command,
) -> Result<Item, NoMemory>
    requires { IsOfActor (ScriptLine.Read (Line.Command command.now)) }
    ensures { IfOk result (λ item. IsItemOf store.now.control (ScriptLine.Read (Line.Command command.now)) item) }
{
    match command {
        Command::Read {
            volume,
            block,
            count,
        } => access_item(alloc, store, command, Access::Read, volume, *block, *count),
        Command::Write {
            volume,
            block,
            count,
            byte,
        } => access_item(
            alloc,
            store,
            command,
            Access::Write(*byte),
            volume,
            *block,
            *count,
        ),
        _ => other_item(alloc, command),
    }
}

/// A fault in the words of a line, which is told.
fn unread_item(fault: WordFault) -> Item
    ensures { result ≡ Item.Refused (Request.Unread fault) (Refusal.Words fault) }
{
    Item::Refused {
        request: Request::Unread(fault),
        refusal: Refusal::Words(fault),
    }
}

/// What a line of an actor asks, if anything.
fn line_item<D: Mdisk>(
    alloc: Global,
    store: &Store<D>,
    line: &ScriptLine,
) -> Result<Option<Item>, NoMemory>
    requires { IsOfActor line.now }
    ensures { IfOk result (λ item. IsItemIf store.now.control line.now item) }
{
    match line {
        ScriptLine::Read(Line::Blank) => Ok(None),
        ScriptLine::Read(Line::Command(command)) => match command_item(alloc, store, command) {
            Ok(item) => Ok(Some(item)),
            Err(NoMemory) => Err(NoMemory),
        },
        ScriptLine::Read(_) => Ok(Some(unread_item(WordFault::UnknownCommand))),
        ScriptLine::Unread(fault) => Ok(Some(unread_item(*fault))),
    }
}

/// Puts an item behind others. Refused, they are as they were.
fn push_item<T: Drop>(items: &mut VecDeque<T>, item: T) -> Result<(), NoMemory>
    ensures { OnOk result (items.new.items ≡ items.old.items ++ item ∷ []) }
{
    match items.push_back(item) {
        Ok(()) => Ok(()),
        Err(_) => Err(NoMemory),
    }
}

/// Puts what a line asks behind the items of the lines before it.
fn push_line<D: Mdisk>(
    alloc: Global,
    store: &Store<D>,
    line: &ScriptLine,
    items: &mut VecDeque<Item>,
) -> Result<(), NoMemory>
    requires { IsOfActor line.now }
    ensures { OnOk result ((lines : List ScriptLine) → AreItemsOf store.now.control lines items.old.items → AreItemsOf store.now.control (lines ++ line.now ∷ []) items.new.items) }
{
    match line_item(alloc, store, line) {
        Ok(None) => Ok(()),
        Ok(Some(item)) => match push_item(items, item) {
            Ok(()) => Ok(()),
            Err(NoMemory) => Err(NoMemory),
        },
        Err(NoMemory) => Err(NoMemory),
    }
}

/// What the lines of an actor ask, in order, by the volumes that the store has now. Refused for want of memory alone.
pub fn items_of<D: Mdisk>(
    alloc: Global,
    store: &Store<D>,
    lines: &[ScriptLine],
) -> Result<VecDeque<Item>, NoMemory>
    requires { All IsOfActor lines.now }
    ensures { IfOk result (λ items. AreItemsOf store.now.control lines.now items.items) }
{
    let mut items = VecDeque::new(alloc);
    for line in lines {
        match push_line(alloc, store, line, &mut items) {
            Ok(()) => {}
            Err(NoMemory) => return Err(NoMemory),
        }
    }
    Ok(items)
}
