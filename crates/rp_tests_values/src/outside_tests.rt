//! Tests of files and sinks in memory.

ghost use Rattle.std.specs.Prelude.{◌≡◌, ◌<◌, ◌+◌, IfOk, IsTrue};

use rp_base::{Files, MemFiles, MemSink, Sink, SureFiles, SureSink, Text};
use rp_tests_cases::holds;
use std::alloc::Global;
use std::test::Fail;

/// Reads a file to its end by a buffer of four bytes, and logs each piece, and `.` at the end,
/// `x` where it could not be begun or `!` where a read failed. Tells whether it came to the end.
fn log_file<F: Files>(files: &mut F, path: Text, log: &mut String) -> Result<bool, Fail>
    requires sound { F.faults files.old ≡ 0 }
    requires few { F.begun files.old < 1000 }
    ensures sound { IfOk result (λ ended. IsTrue ended → F.faults files.new ≡ 0) }
    ensures begun { F.begun files.new ≡ F.begun files.old + 1 }
{
    if files.begin(path).is_err() {
        log.push('x')?;
        return Ok(false);
    }
    let mut buffer = [0u8; 4];
    'reads: for _ in 0..9 {
        let Ok(count) = files.read(&mut buffer) else {
            log.push('!')?;
            return Ok(false);
        };
        if count == 0 {
            log.push('.')?;
            return Ok(true);
        }
        log.push_str(str::from_utf8(&buffer[..count])?)?;
        log.push('|')?;
    }
    Ok(false)
}

/// Logs two files, the second only where the first came to its end.
fn log_files<F: Files>(
    alloc: Global,
    files: &mut F,
    first: &str,
    second: &str,
) -> Result<String, Fail>
    requires sound { F.faults files.old ≡ 0 }
    requires none { F.begun files.old ≡ 0 }
{
    let mut log = String::new(alloc);
    if log_file(files, Text::new(alloc, first)?, &mut log)? {
        log_file(files, Text::new(alloc, second)?, &mut log)?;
    }
    Ok(log)
}

/// Four files, two of them at one path.
fn some_files(alloc: Global) -> Result<Vec<(Text, Vec<u8>)>, Fail> {
    let mut files = Vec::new(alloc);
    for (path, bytes) in [
        ("notes", "hello"),
        ("empty", ""),
        ("notes", "later"),
        ("tail", "xy"),
    ] {
        files.push((
            Text::new(alloc, path)?,
            Vec::from_slice(alloc, bytes.as_bytes())?,
        ))?;
    }
    Ok(files)
}

#[test]
fn files_in_memory_are_read_in_pieces_and_fail_where_told(rt: HostRuntime) -> Result<(), Fail> {
    let alloc = rt.alloc();
    for (most, failing, first, second, expected) in [
        (1, [0, 0], "notes", "tail", "h|e|l|l|o|.x|y|."),
        (3, [0, 0], "notes", "tail", "hel|lo|.xy|."),
        (100, [0, 0], "notes", "tail", "hell|o|.xy|."),
        (100, [0, 0], "empty", "notes", ".hell|o|."),
        (3, [1, 0], "notes", "tail", "x"),
        (3, [2, 0], "notes", "tail", "!"),
        (3, [9, 3], "notes", "tail", "hel|!"),
        (3, [4, 0], "notes", "tail", "hel|lo|!"),
        (3, [5, 0], "notes", "tail", "hel|lo|.x"),
        (3, [0, 0], "absent", "notes", "x"),
        (3, [0, 0], "notes", "absent", "hel|lo|.x"),
    ] {
        let failing = Vec::from_slice(alloc, &failing)?;
        let mut files = MemFiles::new(some_files(alloc)?, most, failing);
        let log = log_files(alloc, &mut files, first, second)?;
        holds(log.as_str() == expected, expected)?;
    }
    Ok(())
}

#[test]
fn sure_files_fill_the_buffer_and_hold_an_empty_file_at_other_paths(
    rt: HostRuntime,
) -> Result<(), Fail> {
    let alloc = rt.alloc();
    for (first, second, expected) in [
        ("notes", "tail", "hell|o|.xy|."),
        ("absent", "empty", ".."),
    ] {
        let mut files = SureFiles::new(some_files(alloc)?);
        let log = log_files(alloc, &mut files, first, second)?;
        holds(log.as_str() == expected, expected)?;
    }
    Ok(())
}

/// Writes a piece to its end, and logs how many bytes each write took, and `!` where one failed.
fn log_piece<S: Sink>(sink: &mut S, piece: &str, log: &mut String) -> Result<(), Fail>
    requires { S.faults sink.old ≡ 0 }
{
    let mut left = piece.as_bytes();
    while !left.is_empty() {
        let Ok(count) = sink.write(left) else {
            log.push('!')?;
            return Ok(());
        };
        write!(log, "{count}")?;
        left = &left[count..];
    }
    Ok(())
}

#[test]
fn sinks_take_what_they_have_room_for_and_fail_where_told(rt: HostRuntime) -> Result<(), Fail> {
    let alloc = rt.alloc();
    for (room, most, failing, expected, taken) in [
        (9, 9, [0, 0], "5", "hello"),
        (9, 1, [0, 0], "11111", "hello"),
        (5, 9, [2, 3], "5", "hello"),
        (3, 2, [0, 0], "21!", "hel"),
        (9, 2, [2, 0], "2!", "he"),
        (9, 2, [1, 2], "!", ""),
        (0, 1, [0, 0], "!", ""),
    ] {
        let failing = Vec::from_slice(alloc, &failing)?;
        let mut sink = MemSink::new(alloc, room, most, failing)?;
        let mut log = String::new(alloc);
        log_piece(&mut sink, "hello", &mut log)?;
        let is_taken = sink.bytes() == taken.as_bytes();
        holds(log.as_str() == expected && is_taken, expected)?;
    }
    let mut log = String::new(alloc);
    log_piece(&mut SureSink::new(), "hello", &mut log)?;
    holds(log.as_str() == "5", "a sure sink")
}
