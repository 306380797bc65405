//! The program: `mailstored FOLDER WORD..` runs the command of its words.
#![tactic(auto)]

mod ports;
mod store_files;

use crate::ports::NoPorts;
use crate::store_files::{open_files, tell_failures, tell_unusable};
use disk_model::Files;
use mail_server::{ServePorts, serve_ports};
use port_model::Ports;
use std::alloc::{Alloc, AllocGlobal};
use std::env::{self, Env};
use std::fs::File;
use std::io::{ErrorKind, Input, Print, writer};
use std::process::ExitCode;
use system_adapters::{FileDisk, StreamSink, StreamSource, SystemClock, TcpPorts, Unbound};

/// The status where the arguments can't be used.
const USAGE: u8 = 2;

/// The status where memory was refused.
const NO_MEMORY: u8 = 3;

/// The status where the folder can't be used.
const STORE_FAULT: u8 = 6;

/// The status where a port can't be bound.
const LISTEN_FAULT: u8 = 10;

/// The arguments: the folder, and the words of the command behind it.
struct Arguments {
    folder: String,
    words: Vec<String>,
}

/// The arguments of the program; or the status where there is no folder, one isn't text, or memory was refused.
fn read_arguments<R: Env + AllocGlobal>(rt: &R) -> Result<Arguments, u8> {
    let mut all = match env::args(rt) {
        Ok(all) => all,
        Err(error) => {
            return Err(if error.kind() == ErrorKind::OutOfMemory {
                NO_MEMORY
            } else {
                USAGE
            });
        }
    };
    let _program = all.next();
    let Some(folder) = all.next() else {
        return Err(USAGE);
    };
    match all.collect(rt.alloc()) {
        Ok(words) => Ok(Arguments { folder, words }),
        Err(_error) => Err(NO_MEMORY),
    }
}

/// Runs the command over standard input and output and the files of the folder, and answers the status.
fn run(rt: &HostRuntime) -> u8 {
    let Arguments { folder, words } = match read_arguments(rt) {
        Ok(arguments) => arguments,
        Err(status) => return status,
    };
    let files = match open_files(rt, folder.as_str()) {
        Ok(files) => files,
        Err(why) => {
            tell_unusable(rt, folder.as_str(), &why);
            return STORE_FAULT;
        }
    };
    let (status, files) = match serve_ports(&words) {
        Some(numbers) => match bind_ports(rt, numbers) {
            Ok(mut ports) => run_words(rt, &words, files, &mut ports),
            Err(status) => return status,
        },
        None => run_words(rt, &words, files, &mut NoPorts {}),
    };
    tell_failures(rt, folder.as_str(), &files);
    status
}

/// Listens on the ports of this machine that the words ask for, and says on standard error where that can't be.
fn bind_ports(rt: &HostRuntime, numbers: ServePorts) -> Result<TcpPorts<'_, HostRuntime>, u8> {
    match TcpPorts::bind(rt, numbers.imap, numbers.lmtp) {
        Ok(ports) => Ok(ports),
        Err(Unbound { port, error }) => {
            let _ = eprintln!(rt; "mailstored: port {port} can't be listened on: {error}");
            Err(LISTEN_FAULT)
        }
    }
}

/// Runs the command of the words over standard input and output, files and ports, and answers the status and the files.
fn run_words<P: Ports>(
    rt: &HostRuntime,
    words: &[String],
    files: Files<FileDisk<File>>,
    ports: &mut P,
) -> (u8, Files<FileDisk<File>>) {
    let mut source = StreamSource::new(rt.reader());
    let mut sink = StreamSink::new(writer(rt));
    let mut clock = SystemClock::new(rt);
    mail_server::run(
        rt.alloc(),
        words,
        &mut source,
        &mut sink,
        files,
        ports,
        &mut clock,
    )
}

fn main(rt: HostRuntime) -> ExitCode {
    let status = run(&rt);
    if status != 0 {
        let _ = eprintln!(rt; "mailstored: status {status}");
    }
    ExitCode::from(status)
}
