//! The longest line.
ghost use Rattle.std.specs.Prelude.{◌≡◌};
ghost use Rattle.apex_types.specs.declared.calls.Call.TheVariants.{Buffer};
ghost use Rattle.apex_types.specs.declared.calls.ObjectCall.TheVariants.{KindService};

use crate::papers::paper;
use apex_configs::Table;
use apex_history::{Counted, print_entry};
use apex_table::read_table;
use apex_types::{
    BufferCall, BufferId, BufferService, Call, Caller, CoreId, LentEntry, MOST_CORES, MOST_LINE,
    MOST_MESSAGE, MOST_NOTICES, MOST_PROCESSES, MOST_SPAN, Message, Notice, Origin, ProcessId,
    Reply, ReturnCode, Timeout, Who,
};
use std::alloc::Global;
use std::mem::drop;
use std::process::Abort;

const TABLE: &str = "
cores = 1

[[process]]
name = \"A\"
priority = 10
script = [\"SEND_BUFFER B~~~~~~~~~~~~~~~~~~~~~~~~~~~~~ \
00112233445566778899aabbccddeefff0e1d2c3b4a5968778695a4b3c2d1e0f\
0123456789abcdeffedcba98765432100f1e2d3c4b5a69788796a5b4c3d2e1f0 4294967295\"]

[[process]]
name = \"B\"
priority = 20
script = []

[[buffer]]
name = \"B~~~~~~~~~~~~~~~~~~~~~~~~~~~~~\"
length = 64
capacity = 16
discipline = \"PRIORITY\"
";

/// The longest line, up to the end of its first notice.
const LONGEST: &str = "4294967295 18446744073709551615 core7 64 \
SEND_BUFFER B~~~~~~~~~~~~~~~~~~~~~~~~~~~~~ \
00112233445566778899aabbccddeefff0e1d2c3b4a5968778695a4b3c2d1e0f\
0123456789abcdeffedcba98765432100f1e2d3c4b5a69788796a5b4c3d2e1f0 4294967295 -> MESSAGE \
00112233445566778899aabbccddeefff0e1d2c3b4a5968778695a4b3c2d1e0f\
0123456789abcdeffedcba98765432100f1e2d3c4b5a69788796a5b4c3d2e1f0 | woken 64 INVALID_CONFIG";

fn of_buffer(buffer: BufferId, service: BufferService) -> Call
    ensures { result ≡ Buffer (KindService buffer service) }
{
    Call::Buffer(BufferCall::KindService(buffer, service))
}

/// The message of A's step.
fn longest_message() -> Message {
    Message {
        origin: Origin::Script(ProcessId::at(0), 0),
        length: MOST_MESSAGE as u8,
    }
}

/// The line of an entry with the most notices that an entry may have, each of the longest.
fn print_longest<R: Abort>(rt: &R, alloc: Global, table: &Table) {
    assert!(rt; table.buffer_count() == 1);
    let service = BufferService::Send(longest_message(), Timeout::Ticks(MOST_SPAN));
    let last = ProcessId::at(MOST_PROCESSES as u8 - 1);
    let entry = LentEntry {
        number: u32::MAX,
        now: u64::MAX,
        who: Who::Core(CoreId::new(MOST_CORES as u8 - 1)),
        process: Caller::Process(last),
        call: Some(of_buffer(BufferId::at(0), service)),
        reply: Reply::Message(longest_message()),
        notices: &[Notice::Woken(last, ReturnCode::InvalidConfig); MOST_NOTICES],
    };
    let mut paper = paper(rt, alloc, MOST_LINE, 0);
    print_entry(table, &entry, &mut Counted::new(&mut paper)).expect(rt, "room for a line");
    let line = paper.held();
    assert!(rt; line.len() == 3_692 && line.starts_with(LONGEST.as_bytes()));
    assert!(rt; line.ends_with(b" | woken 64 INVALID_CONFIG\n"));
}

#[test]
fn the_longest_line(rt: HostRuntime) {
    let table = read_table(rt.alloc(), TABLE.as_bytes()).expect(&rt, "the table is lawful");
    print_longest(&rt, rt.alloc(), &table);
    drop(table);
}
