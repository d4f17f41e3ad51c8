//! The program `mpc`: the top call over the real files, streams, sockets and threads.
#![tactic(auto)]

use mpc_top::{command, command_alone};
use outer_io::{NoPace, StdFiles, StdSink};
use socket_link::{TcpNet, ThreadSpawner};
use std::alloc::{AllocError, Global};
use std::env;
use std::io::ErrorKind;
use std::process::ExitCode;

/// The words of the call; where one is no text, there are none, which the top call refuses.
fn words(rt: &HostRuntime) -> Result<Vec<String>, AllocError> {
    match env::args(rt) {
        Ok(args) => {
            let mut words = Vec::new(rt.alloc());
            for word in args {
                words.push(word)?;
            }
            Ok(words)
        }
        Err(error) => {
            if error.kind() == ErrorKind::OutOfMemory {
                Err(AllocError)
            } else {
                Ok(Vec::new(rt.alloc()))
            }
        }
    }
}

fn main(rt: HostRuntime) -> ExitCode {
    let Ok(words) = words(&rt) else {
        return ExitCode::from(6);
    };
    let mut files = StdFiles::new(&rt, rt.alloc());
    let mut out = StdSink::new(rt.stdout());
    let mut err = StdSink::new(rt.stderr());
    let alone = command_alone(
        &rt,
        rt.alloc(),
        &words,
        &mut files,
        &mut out,
        &mut err,
        &NoPace,
    );
    if let Some(status) = alone {
        return ExitCode::from(status);
    }
    let mut net = TcpNet::new(&rt);
    let mut spawner = ThreadSpawner::new(&rt, rt.alloc());
    let status = command(
        &rt,
        rt.alloc(),
        &words,
        &mut files,
        &mut out,
        &mut err,
        &mut net,
        &mut spawner,
        &NoPace,
    );
    ExitCode::from(status)
}
