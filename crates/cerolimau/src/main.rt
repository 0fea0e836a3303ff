//! The server: `host_main` of `host_program` over the words, the listeners and the journal's file that the
//! system gives; and reports of who may do what: `run_report` of `report_input` over the streams.
#![tactic(auto)]

use clap::Error;
use edge_links::{FileDisk, ProgressDisk, StdSink, StdSource};
use host_program::{HostWords, ProgramWords, VERSION, host_main, read_words};
use record_file::Disk;
use report_input::run_report;
use shell_program::{ServerProtocol, Status, add_posts, unsent_at, words_given};
use std::alloc::Global;
use std::env;
use std::fs::{File, Files};
use std::io::{BufReader, ErrorKind};
use std::net::{Ipv4Addr, Net, SocketAddr, SocketAddrV4, TcpListener, TcpStream};
use std::process::ExitCode;

fn status(status: Status) -> ExitCode {
    ExitCode::from(status.number())
}

// Ends where the words aren't taken, or ask for help or the version, and says it.
fn end_by_words<R: Print + Eprint>(rt: &R, error: &Error) -> ExitCode {
    if error.kind() == clap::error::ErrorKind::OutOfMemory {
        return status(Status::NoMemory);
    }
    let _printed = error.print(rt);
    if error.use_stderr() {
        return ExitCode::from(2);
    }
    ExitCode::SUCCESS
}

// The journal's file. Where it can't be opened it says why.
fn open_disk<R: Files<File = File> + Eprint>(rt: &R, path: &str) -> Option<FileDisk> {
    match FileDisk::open(rt, path) {
        Ok(disk) => Some(disk),
        Err(error) if error.kind() == ErrorKind::WouldBlock => {
            let _said = eprintln!(rt; "cerolimau: {path}: another program has it open");
            None
        }
        Err(error) => {
            let _said = eprintln!(rt; "cerolimau: {path}: {error}");
            None
        }
    }
}

// Says how many replies couldn't be sent whole, if there are some.
fn say_unsent<R: Eprint>(rt: &R, unsent: u64) {
    if unsent > 0 {
        let _said = eprintln!(rt; "cerolimau: {unsent} replies could not be sent whole");
    }
}

// Prints who may do what. Ends with the status of `run_report`.
fn report(rt: &HostRuntime, alloc: Global) -> ExitCode {
    let Ok(reader) = BufReader::new(alloc, rt.stdin()) else {
        return status(Status::NoMemory);
    };
    let mut input = StdSource::new(reader);
    let mut output = StdSink::new(rt.stdout());
    ExitCode::from(run_report(alloc, &mut input, &mut output).number())
}

// Listens at a port of this machine. Where it can't it says why.
fn listen<R: Net<Stream = TcpStream, Listener = TcpListener> + Eprint>(
    rt: &R,
    port: u16,
) -> Option<TcpListener> {
    let address = SocketAddr::V4(SocketAddrV4::new(Ipv4Addr::LOCALHOST, port));
    match TcpListener::bind(rt, address) {
        Ok(listener) => Some(listener),
        Err(error) => {
            let _said = eprintln!(rt; "cerolimau: port {port}: {error}");
            None
        }
    }
}

// Says where it serves, and what it keeps.
fn say_ports<R: Eprint>(rt: &R, words: &HostWords) {
    let journal = words.journal.as_str();
    let port = words.port;
    let _said = match words.http_port {
        Some(http) => {
            eprintln!(rt;
                "cerolimau {VERSION}: port {port}, HTTP at port {http}, journal {journal}"
            )
        }
        None => eprintln!(rt; "cerolimau {VERSION}: port {port}, journal {journal}"),
    };
}

/// Prints a report where the words ask for it. Else it serves, and ends with the status of `host_main`; with 5
/// where a port can't be bound, with 8 where the journal's file can't be opened, with 2 where the words aren't
/// taken, and out of memory where the words or the posts find none.
fn main(rt: HostRuntime) -> ExitCode {
    let alloc: Global = rt.alloc();
    let Ok(given) = words_given(alloc, env::args(&rt)) else {
        return status(Status::NoMemory);
    };
    let words = match read_words(alloc, given.as_slice()) {
        Ok(ProgramWords::Host(words)) => words,
        Ok(ProgramWords::Report) => return report(&rt, alloc),
        Err(error) => return end_by_words(&rt, &error),
    };
    say_ports(&rt, &words);
    let Some(listener) = listen(&rt, words.port) else {
        return status(Status::DoorFault);
    };
    let mut requests = 0;
    let mut http_listener = None;
    if let Some(port) = words.http_port {
        requests = words.workers;
        http_listener = listen(&rt, port);
        if http_listener.is_none() {
            return status(Status::DoorFault);
        }
    }
    let Some(mut disk) = open_disk(&rt, words.journal.as_str()) else {
        return status(Status::DiskFault);
    };
    let len = disk.len().unwrap_or(0);
    let disk = ProgressDisk::new(&rt, disk, len);
    let mut posts = Vec::new(alloc);
    let added = add_posts(
        alloc,
        &mut posts,
        words.workers,
        Some(&listener),
        ServerProtocol::Git,
    );
    if added.is_err() {
        return status(Status::NoMemory);
    }
    let added = add_posts(
        alloc,
        &mut posts,
        requests,
        http_listener.as_ref(),
        ServerProtocol::Http,
    );
    if added.is_err() {
        return status(Status::NoMemory);
    }
    // never: there are at most 1,000 workers at each port
    if posts.len() > 2_000 {
        return status(Status::NoMemory);
    }
    let mut output = StdSink::new(rt.stdout());
    let ended = host_main(
        &rt,
        alloc,
        &words.admin,
        &mut output,
        &mut posts,
        words.sessions,
        disk,
    );
    say_unsent(&rt, unsent_at(posts.as_slice()));
    ExitCode::from(ended.status)
}
