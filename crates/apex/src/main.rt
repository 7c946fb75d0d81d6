//! The program `apex`: runs the partition of a table and reports its history or its state, and
//! checks histories.
#![tactic(auto)]

use apex_cli::serve;
use apex_console::given_words;
use apex_history::Counted;
use std::io;
use std::process::ExitCode;

fn main(rt: HostRuntime) -> ExitCode {
    let mut reader = Counted::new(rt.reader());
    let mut writer = Counted::new(io::writer(&rt));
    let mut error_writer = Counted::new(rt.stderr());
    let status = serve(
        &rt,
        rt.alloc(),
        given_words(&rt),
        &mut reader,
        &mut writer,
        &mut error_writer,
    );
    ExitCode::from(status)
}
