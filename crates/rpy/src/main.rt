//! The command-line program: the real files, the real standard output and the words of the command line.
#![tactic(auto)]

mod host_files;
mod host_sink;

use host_files::HostFiles;
use host_sink::HostSink;
use rp_base::Status;
use rp_run::run;
use std::io::ErrorKind;
use std::process::ExitCode;
use std::rt::Env;

/// Runs the command that the command line gives, and ends with its status.
fn main(rt: HostRuntime) -> ExitCode {
    ExitCode::from(status(rt).0)
}

fn status(rt: HostRuntime) -> Status {
    match words(&rt) {
        Ok(words) => {
            let alloc = rt.alloc();
            let mut out = HostSink::new(rt.stdout());
            let mut files = HostFiles::new(rt);
            let ran = run(alloc, words.as_slice(), &mut files, &mut out);
            ran.status
        }
        Err(status) => status,
    }
}

/// The words of the command line behind the program's name.
///
/// # Errors
/// 8 where a growth was refused. 2 where a word is no UTF-8: such words give no command, and then nothing
/// is written.
fn words<R: Env + AllocGlobal>(rt: &R) -> Result<Vec<String>, Status> {
    match std::env::args(rt) {
        Ok(all) => all.skip(1).collect(rt.alloc()).map_err(|_| Status(8)),
        Err(error) if error.kind() == ErrorKind::OutOfMemory => Err(Status(8)),
        Err(_) => Err(Status(2)),
    }
}
