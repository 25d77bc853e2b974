//! Runs a command of `pisdf_program` on the files of the system and its two output streams.
#![tactic(auto)]

use kernel_library::Library;
use outer_world::{FileShelf, StreamSink};
use pisdf_program::{Status, run_program};
use std::io::ErrorKind;
use std::process::ExitCode;
use std::{env, io};

/// The words after the program's name.
fn arguments(rt: &HostRuntime) -> io::Result<Vec<String>> {
    Ok(env::args(rt)?.skip(1).collect(rt.alloc())?)
}

fn main(rt: HostRuntime) -> ExitCode {
    let words = match arguments(&rt) {
        Ok(words) => words,
        Err(error) if error.kind() == ErrorKind::OutOfMemory => {
            return Status::WantOfMemory.exit_code();
        }
        // Words that aren't text are read by no command.
        Err(_) => Vec::new(rt.alloc()),
    };
    let status = run_program(
        &rt,
        rt.alloc(),
        words.as_slice(),
        &mut FileShelf::new(rt.alloc(), &rt),
        &mut StreamSink::new(rt.stdout()),
        &mut StreamSink::new(rt.stderr()),
        &Library,
    );
    status.exit_code()
}
