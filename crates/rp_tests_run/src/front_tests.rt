//! Fronts of files: wherever a script or a declaration file is cut off, it is read or refused, and no more happens.

use crate::program_answers::{RUN, said_over};
use crate::report_tests::{REPORT, SHOP};
use rp_tests_cases::{FOLDER_FILE, holds};
use std::alloc::Global;
use std::test::Fail;

/// Asks whether the status behind what is said to a line is one of these.
fn ends_with_one(
    alloc: Global,
    line: &str,
    declarations: &str,
    script: &str,
    statuses: &str,
) -> Result<(), Fail> {
    let said = said_over(alloc, line, declarations, script.as_bytes())?;
    let is_one = statuses
        .split(' ')
        .any(|status| said.as_str().ends_with(status));
    holds(is_one, said)
}

#[test]
fn each_front_of_a_script_is_accepted_or_refused(rt: HostRuntime) -> Result<(), Fail> {
    for end in 0..REPORT.len() + 1 {
        let front = REPORT.get(..end).unwrap_or("");
        ends_with_one(rt.alloc(), "check s.py", FOLDER_FILE, front, "0 4")?;
    }
    Ok(())
}

#[test]
fn each_front_of_declarations_is_read_or_refused(rt: HostRuntime) -> Result<(), Fail> {
    for end in 0..FOLDER_FILE.len() + 1 {
        let front = FOLDER_FILE.get(..end).unwrap_or("");
        let script = "print(root.title)\n";
        ends_with_one(rt.alloc(), RUN, front, script, "0 1 3")?;
    }
    Ok(())
}

#[test]
fn each_front_of_declarations_with_a_module_is_read_or_refused(
    rt: HostRuntime,
) -> Result<(), Fail> {
    for end in 0..SHOP.len() + 1 {
        let front = SHOP.get(..end).unwrap_or("");
        let line = "run title.toml pat:s.py";
        ends_with_one(rt.alloc(), line, front, REPORT, "0 1 3")?;
    }
    Ok(())
}
