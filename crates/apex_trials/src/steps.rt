//! Sessions that no run of the data has: with a line that is very long, that ends with a carriage
//! return, or that has no line feed.
use apex_history::{Counted, FailAt};
use apex_json::Form;
use apex_steps::serve_steps;
use std::alloc::Global;
use std::process::Abort;

/// A table without an init step, and the separator.
const TABLE: &str = r#"cores = 1
init = []
process = [{name = "A", priority = 1, script = []}]
%%
"#;

/// The room for all that is said, in bytes.
const ROOM: usize = 128;

/// The number of bytes `x` behind the separator, the text behind them, and what is said on all lines.
///
/// The longest line does not fit into the bytes that are read ahead.
const LINES: [(usize, &str, &str); 8] = [
    (0, "0\r\n", "fault no command\n"),
    (0, "front\n0", "front 0 0 -\nok 0\nfault no line feed\n"),
    (4_096, "", "fault no line feed\n"),
    (4_097, "", "fault no line feed\n"),
    (30_000, "", "fault no line feed\n"),
    (4_096, "\nfront\n", "fault no command\nfront 0 0 -\nok 0\n"),
    (
        4_097,
        "\nfront\n",
        "fault line too long\nfront 0 0 -\nok 0\n",
    ),
    (
        30_000,
        "\nfront\n",
        "fault line too long\nfront 0 0 -\nok 0\n",
    ),
];

/// Checks that this is said on `count` bytes and the text behind them.
fn is_said<R: Abort>(rt: &R, alloc: Global, count: usize, behind: &str, want: &str) {
    let mut text = Vec::new(alloc);
    text.extend_from_slice(TABLE.as_bytes())
        .expect(rt, "memory");
    text.resize(TABLE.len().saturating_add(count), b'x')
        .expect(rt, "memory");
    text.extend_from_slice(behind.as_bytes())
        .expect(rt, "memory");
    let room = Vec::with_capacity(alloc, ROOM).expect(rt, "memory");
    let mut reader = Counted::new(FailAt::new(text, 0));
    let mut writer = Counted::new(FailAt::new(room, 0));
    let end = serve_steps(alloc, Form::Text, &mut reader, &mut writer);
    assert!(rt; end.is_ok());
    let paper = writer.into_inner();
    assert!(rt; paper.held() == want.as_bytes(), "{want}");
}

#[test]
fn each_line_is_answered(rt: HostRuntime) {
    for (count, behind, want) in LINES {
        is_said(&rt, rt.alloc(), count, behind, want);
    }
}
