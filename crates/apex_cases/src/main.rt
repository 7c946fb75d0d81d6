//! The program that plays the cases of the services and of the examples, in the folder that its
//! argument names, and reports each difference.
#![tactic(auto)]

mod plays;

use apex_case_player::{CaseFault, CaseFile, Plan, Report, read_folder};
use plays::play_all;
use std::alloc::AllocGlobal;
use std::env;
use std::env::Env;
use std::fs::Files;
use std::mem::drop;
use std::process::ExitCode;
use std::sync::Wait;
use std::thread::Threads;

/// Reads the folder that the first argument names.
fn read_cases<R>(rt: &R, files: &mut Vec<CaseFile>) -> Result<(), CaseFault>
where
    R: Env + Files + AllocGlobal + Clone + Drop,
{
    let mut args = env::args(rt)?;
    let folder = args.nth(1).ok_or(CaseFault::NoFolder)?;
    let read = read_folder(files, rt, folder.as_str());
    drop(folder);
    read
}

/// Plays the cases of these files, writes the report, and answers whether all is as it should be.
fn report_all<R>(rt: &R, report: &mut Report, files: &[CaseFile]) -> Result<bool, CaseFault>
where
    R: Print + AllocGlobal + Threads + Wait + Sync,
{
    let plan = Plan::of(rt.alloc(), report, files);
    let played = play_all(rt, rt.alloc(), report, &plan);
    drop(plan);
    played?;
    rt.write_all(report.text()?.as_bytes())?;
    Ok(report.is_clean())
}

/// Reads the cases, and does what `report_all` does.
fn checked<R>(rt: &R, report: &mut Report, files: &mut Vec<CaseFile>) -> Result<bool, CaseFault>
where
    R: Env + Files + Print + AllocGlobal + Threads + Wait + Sync + Clone + Drop,
{
    read_cases(rt, files)?;
    report_all(rt, report, files.as_slice())
}

fn main(rt: HostRuntime) -> ExitCode {
    let mut report = Report::new(rt.alloc());
    let mut files = Vec::new(rt.alloc());
    match checked(&rt, &mut report, &mut files) {
        Ok(true) => ExitCode::from(0),
        Ok(false) => ExitCode::from(1),
        Err(fault) => {
            let reason = fault.text();
            // The status shows the fault even if its line cannot be written.
            let _ = eprintln!(rt; "apex_cases: {reason}");
            ExitCode::from(2)
        }
    }
}
