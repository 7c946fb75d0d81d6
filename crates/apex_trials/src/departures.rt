//! Explanations of histories that no file of runs can have: one with a byte that is not UTF-8, and
//! one whose last line lacks its line feed.
use crate::papers::paper;
use apex_check::CheckFault;
use apex_departures::explain;
use apex_history::Counted;
use apex_json::Form;

/// A table with its history, and the fault and the explanation if comments are left out.
const TEXTS: [(&[u8], Option<CheckFault>, &str); 2] = [
    (
        b"cores = 1\ninit = []\nprocess = [{name = \"P\", priority = 10, script = []}]\n%%\n\
        1 0 core0 -\xff\n",
        None,
        "departs at 1\n\
        given: 1 0 core0 -\\xff\n\
        expected: 1 0 core0 - idle -> IDLE\n\
        column: 12\n\
        reason: IDLE: the mode is COLD_START and no init step is due on the core\n",
    ),
    (
        b"cores = 1\ninit = []\nprocess = [{name = \"P\", priority = 10, script = []}]\n%%\n\
        \n#\n\n# no line feed",
        Some(CheckFault::BadLine(4)),
        "",
    ),
];

#[test]
fn histories_of_other_bytes_are_explained(rt: HostRuntime) {
    for (text, fault, want) in TEXTS {
        let mut reader = Counted::new(text);
        let mut writer = Counted::new(paper(&rt, rt.alloc(), 512, 0));
        let end = explain(rt.alloc(), Form::Text, true, &mut reader, &mut writer);
        assert!(rt; end.err() == fault);
        assert!(rt; writer.into_inner().held() == want.as_bytes());
    }
}
