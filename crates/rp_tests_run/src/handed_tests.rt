//! The sessions that the program hands out.

use crate::program_answers::{AMPLE, PRINT_TITLE, file_list, ran_of};
use rp_base::{MemFiles, MemSink, SureFiles, SureSink};
use rp_tests_cases::{FOLDER_FILE, holds};
use std::alloc::Global;
use std::test::Fail;

/// Asks whether the words of a line hand out so many sessions, each of which adds up to so many steps.
fn hands_out(alloc: Global, line: &str, count: usize, steps: u64) -> Result<(), Fail> {
    let mut files = SureFiles::new(file_list(alloc, FOLDER_FILE.as_bytes(), PRINT_TITLE)?);
    let mut out = SureSink::new();
    let ran = ran_of(alloc, line, &mut files, &mut out)?;
    let sum = ran.sessions.iter().all(|session| session.played().checked_add(session.steps())
        == Some(steps));
    holds(sum && ran.sessions.len() == count, count as u64)
}

#[test]
fn hands_out_a_session_for_each_pair(rt: HostRuntime) -> Result<(), Fail> {
    let alloc = rt.alloc();
    hands_out(alloc, "run title.toml bob:s.py", 1, 1_000_000)?;
    hands_out(
        alloc,
        "run title.toml bob:s.py eve:s.py --steps 100",
        2,
        100,
    )?;
    hands_out(alloc, "run title.toml bob:s.py --steps 0", 1, 0)?;
    hands_out(alloc, "large 10", 1, 1_000_000)
}

#[test]
fn hands_out_no_session_where_none_is_played(rt: HostRuntime) -> Result<(), Fail> {
    let alloc = rt.alloc();
    hands_out(alloc, "run title.toml nobody:s.py", 0, 0)?;
    hands_out(alloc, "run s.py bob:s.py", 0, 0)?;
    hands_out(alloc, "check s.py", 0, 0)?;
    hands_out(alloc, "may title.toml bob zope.View", 0, 0)?;
    hands_out(alloc, "", 0, 0)
}

#[test]
fn hands_out_no_session_where_a_write_fails(rt: HostRuntime) -> Result<(), Fail> {
    let alloc = rt.alloc();
    let list = file_list(alloc, FOLDER_FILE.as_bytes(), PRINT_TITLE)?;
    let mut files = MemFiles::new(list, AMPLE, Vec::new(alloc));
    let mut out = MemSink::new(alloc, 10, 10, Vec::new(alloc))?;
    let ran = ran_of(alloc, "run title.toml bob:s.py", &mut files, &mut out)?;
    let status = ran.status.0;
    holds(status == 7 && ran.sessions.is_empty(), status as u64)
}
