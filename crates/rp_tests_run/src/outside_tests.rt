//! The program over files and sinks that fail, and files and sinks of every size.

ghost use Rattle.std.specs.Prelude.{◌≡◌, ◌<◌};

use crate::program_answers::{AMPLE, PRINT_TITLE, RUN, file_list, status_of, told};
use rp_base::{Files, MemFiles, MemSink, Memory, Sink, Status, SureFiles, SureSink, Text};
use rp_tests_cases::{FOLDER_FILE, holds, is_told};
use std::alloc::Global;
use std::test::Fail;

const HOME: &[u8] = b"session 1 bob\nHome\nend ok\n";

/// The room of a sink, the most bytes of a write, and the number of the write that fails.
#[derive(Clone, Copy)]
struct FailingSink {
    room: usize,
    most: usize,
    failing: u64,
}

/// Runs `print(root.title)` for bob.
fn run_title<F: Files, K: Sink>(alloc: Global, files: &mut F, out: &mut K) -> Result<Status, Fail>
    requires unread { F.begun files.old ≡ 0 }
    requires sound_files { F.faults files.old ≡ 0 }
    requires sound_out { K.faults out.old ≡ 0 }
{
    status_of(alloc, RUN, files, out)
}

/// The status where `print(root.title)` is run for bob into a sink that fails, and the bytes that are written.
fn written(alloc: Global, sink: FailingSink) -> Result<(u8, Vec<u8>), Fail>
    requires { 0 < sink.most }
{
    let mut files = SureFiles::new(file_list(alloc, FOLDER_FILE.as_bytes(), PRINT_TITLE)?);
    let failing = vec![in alloc; sink.failing]?;
    let mut out = MemSink::new(alloc, sink.room, sink.most, failing)?;
    let Status(status) = run_title(alloc, &mut files, &mut out)?;
    Ok((status, Vec::from_slice(alloc, out.bytes())?))
}

/// Asks whether these many bytes of the text are written, and the status tells it.
fn is_front_written(
    alloc: Global,
    room: usize,
    most: usize,
    failing: u64,
    count: usize,
) -> Result<(), Fail>
    requires { 0 < most }
{
    let sink = FailingSink {
        room,
        most,
        failing,
    };
    let (status, bytes) = written(alloc, sink)?;
    let wanted = if count < HOME.len() { 7 } else { 0 };
    let is_front = HOME.get(..count) == Some(bytes.as_slice());
    holds(status == wanted && is_front, count as u64)
}

/// Asks whether the program ends with this status and these bytes are written, where a call of the files fails.
fn ends_where_fails(alloc: Global, failing: u64, wanted: u8, bytes: &[u8]) -> Result<(), Fail> {
    let list = file_list(alloc, FOLDER_FILE.as_bytes(), PRINT_TITLE)?;
    let mut files = MemFiles::new(list, AMPLE, vec![in alloc; failing]?);
    let mut out = MemSink::new(alloc, AMPLE, AMPLE, Vec::new(alloc))?;
    let Status(status) = run_title(alloc, &mut files, &mut out)?;
    holds(status == wanted && out.bytes() == bytes, failing)
}

/// Asks whether the title is printed where a read gives one byte.
fn is_title_printed_by_bytes(alloc: Global) -> Result<(), Fail> {
    let list = file_list(alloc, FOLDER_FILE.as_bytes(), PRINT_TITLE)?;
    let mut files = MemFiles::new(list, 1, Vec::new(alloc));
    let mut out = MemSink::new(alloc, AMPLE, AMPLE, Vec::new(alloc))?;
    let Status(status) = run_title(alloc, &mut files, &mut out)?;
    holds(status == 0 && out.bytes() == HOME, 0)
}

/// So many blanks as the script, or as the declarations.
fn blank_files(
    alloc: Global,
    count: usize,
    is_script: bool,
) -> Result<Vec<(Text, Vec<u8>)>, Memory> {
    let blanks = vec![in alloc; b' '; count]?;
    if is_script {
        return file_list(alloc, FOLDER_FILE.as_bytes(), blanks.as_slice());
    }
    file_list(alloc, blanks.as_slice(), b"")
}

/// Asks whether this text and status come where so many blanks are the script, or the declarations.
fn is_said_of_blanks(
    alloc: Global,
    count: usize,
    is_script: bool,
    wanted: &str,
) -> Result<(), Fail> {
    let mut files = SureFiles::new(blank_files(alloc, count, is_script)?);
    let mut out = MemSink::new(alloc, AMPLE, AMPLE, Vec::new(alloc))?;
    let status = run_title(alloc, &mut files, &mut out)?;
    let said = told(alloc, &out, status)?;
    is_told(alloc, "blanks", said.as_str(), wanted)
}

#[test]
fn reads_a_script_of_4_mebibytes(rt: HostRuntime) -> Result<(), Fail> {
    is_said_of_blanks(rt.alloc(), 4_194_304, true, "session 1 bob\nend ok\n0")
}

#[test]
fn reads_no_longer_script(rt: HostRuntime) -> Result<(), Fail> {
    is_said_of_blanks(rt.alloc(), 4_194_305, true, "too long: s.py\n9")
}

/// The first script is none, and the second too long.
#[test]
fn reads_all_scripts_before_any_is_compiled(rt: HostRuntime) -> Result<(), Fail> {
    let alloc = rt.alloc();
    let mut files = SureFiles::new(blank_files(alloc, 4_194_305, true)?);
    let mut out = MemSink::new(alloc, AMPLE, AMPLE, Vec::new(alloc))?;
    let line = "run title.toml bob:title.toml eve:s.py";
    let status = status_of(alloc, line, &mut files, &mut out)?;
    let said = told(alloc, &out, status)?;
    is_told(alloc, line, said.as_str(), "too long: s.py\n9")
}

#[test]
fn checks_no_longer_script(rt: HostRuntime) -> Result<(), Fail> {
    let alloc = rt.alloc();
    let mut files = SureFiles::new(blank_files(alloc, 4_194_305, true)?);
    let mut out = MemSink::new(alloc, AMPLE, AMPLE, Vec::new(alloc))?;
    let status = status_of(alloc, "check s.py", &mut files, &mut out)?;
    let said = told(alloc, &out, status)?;
    is_told(alloc, "blanks", said.as_str(), "too long: s.py\n9")
}

#[test]
fn reads_no_longer_declarations(rt: HostRuntime) -> Result<(), Fail> {
    is_said_of_blanks(rt.alloc(), 4_194_305, false, "too long: title.toml\n9")
}

#[test]
fn says_nothing_where_a_call_of_the_files_fails(rt: HostRuntime) -> Result<(), Fail> {
    for failing in 1..7u64 {
        ends_where_fails(rt.alloc(), failing, 6, b"")?;
    }
    ends_where_fails(rt.alloc(), 7, 0, HOME)
}

#[test]
fn says_the_same_where_a_read_gives_one_byte(rt: HostRuntime) -> Result<(), Fail> {
    is_title_printed_by_bytes(rt.alloc())
}

#[test]
fn writes_a_front_where_a_write_fails(rt: HostRuntime) -> Result<(), Fail> {
    for count in 0..27usize {
        is_front_written(rt.alloc(), 64, 1, count as u64 + 1, count)?;
    }
    is_front_written(rt.alloc(), 64, 5, 2, 5)?;
    is_front_written(rt.alloc(), 10, 64, 9, 10)
}

#[test]
fn runs_over_files_and_a_sink_that_never_fail(rt: HostRuntime) -> Result<(), Fail> {
    let alloc = rt.alloc();
    let mut files = SureFiles::new(file_list(alloc, FOLDER_FILE.as_bytes(), PRINT_TITLE)?);
    let mut out = SureSink::new();
    let Status(status) = run_title(alloc, &mut files, &mut out)?;
    holds(status == 0, status as u64)
}
