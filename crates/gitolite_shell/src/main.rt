//! The program: `shell_main` of `shell_program` over the words, streams, clients and files that the system
//! gives.
#![tactic(auto)]

use edge_links::{FileDisk, StdSink, StdSource};
use shell_program::{ServerProtocol, Status, add_posts, behind_name, shell_main, words_given};
use std::alloc::Global;
use std::env;
use std::fs::{File, Files};
use std::io::BufReader;
use std::net::TcpListener;
use std::process::ExitCode;

// Where `serve` serves, and where `http` does.
const GIT_ADDRESS: &str = "127.0.0.1:9418";

const HTTP_ADDRESS: &str = "127.0.0.1:8418";

// The file of `keep`, in the folder where the program runs.
const JOURNAL: &str = "gitolite.journal";

// How many workers may serve at most.
const POSTS: usize = 8;

// Where the words want to serve: nowhere where they begin neither with `serve` nor with `http`.
fn address_wanted(words: &[String]) -> Option<&'static str> {
    match words.first() {
        Some(word) if word.as_str() == "serve" => Some(GIT_ADDRESS),
        Some(word) if word.as_str() == "http" => Some(HTTP_ADDRESS),
        _ => None,
    }
}

// The disk that the words want: the journal's file where they begin with `keep`, otherwise none. Where the
// file can't be opened each call of the disk fails.
fn disk_wanted<R: Files<File = File>>(files: &R, words: &[String]) -> FileDisk {
    match words.first() {
        Some(word) if word.as_str() == "keep" => match FileDisk::open(files, JOURNAL) {
            Ok(disk) => disk,
            Err(_) => FileDisk::missing(),
        },
        _ => FileDisk::missing(),
    }
}

fn out_of_memory() -> ExitCode {
    ExitCode::from(Status::NoMemory.number())
}

/// Ends with the status of `shell_main`, or out of memory where the words, the input or the posts find none.
fn main(rt: HostRuntime) -> ExitCode {
    let alloc: Global = rt.alloc();
    let Ok(given) = words_given(alloc, env::args(&rt)) else {
        return out_of_memory();
    };
    let words = behind_name(&given);
    let Ok(reader) = BufReader::new(alloc, rt.stdin()) else {
        return out_of_memory();
    };
    let mut count = 0;
    let mut listener = None;
    if let Some(address) = address_wanted(words) {
        count = POSTS;
        listener = TcpListener::bind(&rt, address).ok();
    }
    let mut posts = Vec::new(alloc);
    // what they serve is set by the command
    let added = add_posts(
        alloc,
        &mut posts,
        count,
        listener.as_ref(),
        ServerProtocol::Git,
    );
    if added.is_err() {
        return out_of_memory();
    }
    let mut disk = disk_wanted(&rt, words);
    let mut input = StdSource::new(reader);
    let mut output = StdSink::new(rt.stdout());
    let ended = shell_main(
        &rt,
        alloc,
        words,
        &mut input,
        &mut output,
        &mut posts,
        &mut disk,
    );
    ExitCode::from(ended.status)
}
