//! The program `apex_lab`: shows the run of a schedule or of a pace, or a history that is legal, as
//! a picture or as a listing, searches the schedules of a pace, lints a table, answers commands,
//! explains a history that departs, gives the reason of an entry, and writes the value changes of a
//! run.
#![tactic(auto)]

use apex_console::given_words;
use apex_history::Counted;
use apex_inquiries::Progress;
use apex_lab_cli::serve;
use std::io;
use std::process::ExitCode;

fn main(rt: HostRuntime) -> ExitCode {
    let mut reader = Counted::new(rt.reader());
    let mut writer = Counted::new(io::writer(&rt));
    let mut error_writer = Counted::new(rt.stderr());
    let mut progress = Progress::new(&rt, rt.stderr());
    let status = serve(
        &rt,
        &mut progress,
        rt.alloc(),
        given_words(&rt),
        &mut reader,
        &mut writer,
        &mut error_writer,
    );
    ExitCode::from(status)
}
