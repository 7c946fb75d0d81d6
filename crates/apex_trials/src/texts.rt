//! The texts of faults and of warnings as a programmer reads them, the end of a program to which a
//! thread is refused, and a service that no report is asked about.
use apex_check::CheckFault;
use apex_cli::Exit;
use apex_console::CliFault;
use apex_faults::left_out;
use apex_history::ReadFault;
use apex_types::{CoreId, Full, Origin, ProcessId};
use apex_warnings::{Group, ProcessWarning, StepWarning, Warning};
use apex_words::{Part, Place, Section, Subject, TableFault};
use std::alloc::Global;
use std::fmt::Display;
use std::process::Abort;

/// The service of the last step of a longest init list.
const INIT_SERVICE: Subject = Subject {
    place: Place {
        section: Section::Init,
        number: 512,
    },
    part: Part::Word(511, 0),
};

/// What the line of a program has before the text of a fault of a check.
const FRONT: &str = "apex: ";

/// The faults of a check, each with the line of a program.
const CHECK_FAULTS: [(CheckFault, &str); 7] = [
    (CheckFault::Memory, "apex: out of memory"),
    (
        CheckFault::Table(TableFault::NotToml),
        "apex: table refused: NotToml",
    ),
    (
        CheckFault::Table(TableFault::BadInitStep(INIT_SERVICE)),
        "apex: table refused: BadInitStep in init 512",
    ),
    (
        CheckFault::BadLine(3),
        "apex: history refused: BadLine at line 3",
    ),
    (
        CheckFault::TooLong(4),
        "apex: history refused: TooLong at line 4",
    ),
    (CheckFault::Read, "apex: read failed"),
    (CheckFault::Write, "apex: write failed"),
];

/// Whether the thing has this text.
fn has_text<R: Abort, D: Display>(rt: &R, alloc: Global, thing: &D, text: &str) -> bool {
    thing.to_string(alloc).expect(rt, "memory").as_str() == text
}

#[test]
fn each_fault_of_a_check_has_its_text(rt: HostRuntime) {
    for (fault, line) in CHECK_FAULTS {
        let text = line.strip_prefix(FRONT).unwrap_or("");
        assert!(rt; has_text(&rt, rt.alloc(), &fault, text), "{line}");
        assert!(rt;
            has_text(&rt, rt.alloc(), &CliFault::from(fault), line),
            "{line}"
        );
    }
}

#[test]
fn each_fault_of_a_history_has_its_text(rt: HostRuntime) {
    let alloc = rt.alloc();
    let full = Full { entries: 9 };
    assert!(rt; has_text(&rt, alloc, &ReadFault::Memory, "out of memory"));
    assert!(rt; has_text(&rt, alloc, &ReadFault::Read, "read failed"));
    assert!(rt; has_text(&rt, alloc, &full, "history full after 9 entries"));
}

#[test]
fn a_refused_thread_has_its_line_and_its_status(rt: HostRuntime) {
    let exit = Exit::of(Err(CliFault::NoThread));
    assert!(rt; exit.status == 5 && exit.fault == Some(CliFault::NoThread));
    assert!(rt; has_text(&rt, rt.alloc(), &CliFault::NoThread, "apex: no thread"));
}

/// A warning of each kind, and its text.
fn warnings() -> [(Warning, &'static str); 5] {
    let process = ProcessId::at(5);
    [
        (
            Warning::Process(ProcessWarning::EmptyScript, process),
            "process 6: its script is empty, so it stops at its first turn",
        ),
        (
            Warning::Step(StepWarning::NotReleased, Origin::Script(process, 2)),
            "process 6 step 3: the rest of the script does not give the mutex up",
        ),
        (
            Warning::Step(StepWarning::NeverAnswered, Origin::Init(1)),
            "init 2: no step gives what the call waits for",
        ),
        (
            Warning::UnusedObject(Group::Semaphores, 0),
            "semaphore 1: no step names it, apart from its creation",
        ),
        (
            Warning::UnusedCore(CoreId::new(1)),
            "core 1: the init list binds no process to it",
        ),
    ]
}

#[test]
fn each_warning_has_its_text(rt: HostRuntime) {
    for (warning, text) in warnings() {
        assert!(rt; has_text(&rt, rt.alloc(), &warning, text), "{text}");
    }
}

#[test]
fn a_service_of_the_profile_is_not_left_out(rt: HostRuntime) {
    assert!(rt; left_out("START").is_none());
}
