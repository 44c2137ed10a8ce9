//! `zcpd`: the administrative core of one pool.
#![tactic(auto)]

use sessions::NoGate;
use std::alloc::Global;
use std::process::ExitCode;
use std::{env, io};
use zc_io::{StdSink, StdSource};
use zc_offline::Status;
use zc_online::zcpd;

#[cfg(test)]
mod tests;

/// The words after the program's name. Words that are no text are none that the program knows.
fn words_of(rt: &HostRuntime, alloc: Global) -> Result<Vec<String>, Status> {
    let mut words = Vec::new(alloc);
    for word in env::args(rt).map_err(status_of)?.skip(1) {
        words.push(word).map_err(|_| Status::NoMemory)?;
    }
    Ok(words)
}

fn status_of(error: io::Error) -> Status {
    match error.kind() {
        io::ErrorKind::OutOfMemory => Status::NoMemory,
        _ => Status::Usage,
    }
}

fn main(rt: HostRuntime) -> ExitCode {
    let alloc = rt.alloc();
    let status = match words_of(&rt, alloc) {
        Ok(words) => {
            let mut source = StdSource::new(rt.stdin());
            let mut sink = StdSink::new(rt.stdout());
            zcpd(
                &rt,
                alloc,
                words.as_slice(),
                &mut source,
                &mut sink,
                &NoGate,
            )
        }
        Err(status) => status,
    };
    if !matches!(status, Status::Ok) {
        let _ = eprintln!(rt; "{status}");
    }
    ExitCode::from(status.code())
}
