//! The words of a line about a call: the word of its service, and a word for each shape of the
//! service's row.
ghost use Rattle.std.specs.Prelude.{◌≡◌, ◌+◌, ◌≤◌, ◌<◌, ◌∷◌, ◌++◌, length, flat_map};
ghost use Rattle.std.specs.List.{All};
ghost use Rattle.apex_history.specs.declared.puts.TheConstants.{ARGUMENT_ROOM, ARGUMENTS_ROOM, CALL_ROOM, LINES_ROOM};
ghost use Rattle.apex_calls.specs.declared.catalogue.TheConstants.{MOST_SHAPES};
ghost use Rattle.arrayvec.specs.ArrayVec.{array_vec_len};
ghost use Rattle.apex_machine.specs.table.Table.{IsKnown, IsKnownName, literal_text};
ghost use Rattle.apex_calls.specs.CallText.{IsKnownWord, call_text, count_of, mode_text, name_of, named_text, word_text};

use super::message::put_message;
use super::{CALL_ROOM, Lines, put_name, put_number, put_timeout};
use crate::steps::NextSteps;
use apex_calls::{Arguments, Kind, Shape, parts_of, row_of};
use apex_configs::Table;
use apex_texts::{put, put_bytes};
use apex_types::{Call, Caller, Id, Name, Named, RequestedMode};

fn mode_name(mode: &RequestedMode) -> &'static str
    ensures value { result.now ≡ mode_text mode.now }
    ensures short { length result.now ≤ 6 }
{
    match mode {
        RequestedMode::Idle => "IDLE",
        RequestedMode::Normal => "NORMAL",
    }
}

/// The name that the table gives the thing of this kind at this place.
fn name<'t>(table: &'t Table, kind: &Kind, place: u8) -> &'t Name
    requires { place < count_of table.now kind.now }
    ensures { result.now ≡ name_of table.now kind.now place }
{
    match kind {
        Kind::Process => table.process(Id::at(place)).name(),
        Kind::Semaphore => table.semaphore(Id::at(place)).name(),
        Kind::Buffer => table.buffer(Id::at(place)).name(),
        Kind::Blackboard => table.blackboard(Id::at(place)).name(),
        Kind::EventFlag => table.event_flag(Id::at(place)).name(),
        Kind::Mutex => table.mutex(Id::at(place)).name(),
    }
}

/// The name that a step gives.
fn put_named(line: &mut Lines, table: &Table, kind: &Kind, named: &Named<u8>)
    requires known { IsKnownName (count_of table.now kind.now) named.now }
    requires room { array_vec_len line.old + ARGUMENT_ROOM ≤ LINES_ROOM }
    ensures text { line.new.items ≡ line.old.items
        ++ named_text (name_of table.now kind.now) (literal_text table.now) named.now }
    ensures short { array_vec_len line.new ≤ array_vec_len line.old + ARGUMENT_ROOM }
{
    match named {
        Named::Known(place) => put_name(line, name(table, kind, *place)),
        Named::Unknown(origin) => put_bytes(line, table.literal(*origin)),
    }
}

/// The word of an argument.
fn put_word(line: &mut Lines, table: &Table, arguments: &Arguments, shape: &Shape)
    requires known { IsKnownWord table.now arguments.now shape.now }
    requires room { array_vec_len line.old + ARGUMENT_ROOM ≤ LINES_ROOM }
    ensures text { line.new.items ≡ line.old.items
        ++ word_text (name_of table.now) (literal_text table.now) arguments.now shape.now }
    ensures short { array_vec_len line.new ≤ array_vec_len line.old + ARGUMENT_ROOM }
{
    match shape {
        Shape::Entry(kind) => put_name(line, name(table, kind, arguments.entry)),
        Shape::Named(kind) => put_named(line, table, kind, &arguments.named),
        Shape::Number(_, _) => put_number(line, arguments.number),
        Shape::Timeout => put_timeout(line, &arguments.timeout),
        Shape::Message => put_message(line, table, &arguments.message),
        Shape::Mode => put(line, mode_name(&arguments.mode)),
    }
}

/// The word of an argument, with a space before it.
#[tactic(auto, using(std::proofs::Common::append_assoc))]
fn put_argument(line: &mut Lines, table: &Table, arguments: &Arguments, shape: &Shape)
    requires known { IsKnownWord table.now arguments.now shape.now }
    requires room { array_vec_len line.old + ARGUMENT_ROOM + 1 ≤ LINES_ROOM }
    ensures text { line.new.items ≡ line.old.items
        ++ (32 ∷ word_text (name_of table.now) (literal_text table.now) arguments.now shape.now) }
    ensures short { array_vec_len line.new ≤ array_vec_len line.old + ARGUMENT_ROOM + 1 }
{
    put(line, " ");
    put_word(line, table, arguments, shape);
}

/// The words of some arguments.
fn put_words(line: &mut Lines, table: &Table, arguments: &Arguments, shapes: &[Shape])
    requires known { All (IsKnownWord table.now arguments.now) shapes.now }
    requires few_shapes { length shapes.now ≤ MOST_SHAPES }
    requires room { array_vec_len line.old + ARGUMENTS_ROOM ≤ LINES_ROOM }
    ensures text { line.new.items ≡ line.old.items
        ++ flat_map
        (λ s. 32 ∷ word_text (name_of table.now) (literal_text table.now) arguments.now s)
        shapes.now }
    ensures short { array_vec_len line.new ≤ array_vec_len line.old + ARGUMENTS_ROOM }
{
    for shape in shapes {
        put_argument(line, table, arguments, shape);
    }
}

/// A call, as the table writes its step.
#[inline(never)]
fn put_call(line: &mut Lines, table: &Table, call: &Call)
    requires known { IsKnown table.now call.now }
    requires room { array_vec_len line.old + CALL_ROOM ≤ LINES_ROOM }
    ensures text { line.new.items ≡ line.old.items ++ call_text table.now call.now }
    ensures short { array_vec_len line.new ≤ array_vec_len line.old + CALL_ROOM }
{
    let (service, arguments) = parts_of(call);
    let row = row_of(service);
    put(line, row.word);
    put_words(line, table, &arguments, row.shapes);
}

/// The call of this caller, as the table writes its step. If the call is that of a step of the
/// caller's script, then the step's text is copied.
#[inline(always)]
pub(super) fn put_called(
    line: &mut Lines,
    table: &Table,
    steps: &mut NextSteps,
    caller: &Caller,
    call: &Call,
)
    requires known { IsKnown table.now call.now }
    requires room { array_vec_len line.old + CALL_ROOM ≤ LINES_ROOM }
    ensures text { line.new.items ≡ line.old.items ++ call_text table.now call.now }
    ensures short { array_vec_len line.new ≤ array_vec_len line.old + CALL_ROOM }
{
    let text = match caller {
        Caller::Process(process) => steps.text(table, *process, call),
        Caller::Init | Caller::Nobody => None,
    };
    match text {
        Some(text) if text.len() <= CALL_ROOM => put_bytes(line, text),
        _ => put_call(line, table, call),
    }
}
