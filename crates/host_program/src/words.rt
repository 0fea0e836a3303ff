// The words by which the program is called.
ghost use Rattle.std.specs.Prelude.{◌≤◌, IfOk};
ghost use Rattle.host_program.specs.Words.{AreWithinLimits, IsWithinLimits};

use base_types::NoMemory;
use clap::error::ErrorKind;
use clap::{Arg, ArgMatches, Command, Error, value_parser};
use conf_lex::UserName;
use std::alloc::{AllocError, Global};

/// How many workers there may be at most.
pub const MAX_WORKERS: usize = 1_000;

/// The program's version.
pub const VERSION: &str = "0.1.0";

/// How many sessions a worker serves where the words say nothing of it: more than come in a thousand years.
pub const NO_END: u64 = 1_000_000_000_000_000;

/// What `host` is called with.
#[derive(Drop)]
pub struct HostWords {
    pub admin: UserName,
    pub workers: usize,
    pub port: u16,
    /// The port where requests are served too, if there is one.
    pub http_port: Option<u16>,
    /// The path of the journal's file.
    pub journal: String,
    /// How many sessions each worker serves.
    pub sessions: u64,
}

/// What the program is asked for.
#[derive(Drop)]
pub enum ProgramWords {
    /// Repositories are served.
    Host(HostWords),
    /// Questions over confs are read, and who may do what is printed.
    Report,
}

fn admin_arg<'a>(alloc: Global) -> Arg<'a> {
    Arg::new(alloc, "admin")
        .long("admin")
        .value_name("NAME")
        .required(true)
        .help("The user whose hub it is")
}

fn workers_arg<'a>(alloc: Global) -> Arg<'a> {
    Arg::new(alloc, "workers")
        .long("workers")
        .value_name("K")
        .value_parser(value_parser!(u64).range(1..=1_000))
        .default_value("8")
        .help("How many clients are served at once at each port")
}

fn port_arg<'a>(alloc: Global) -> Arg<'a> {
    Arg::new(alloc, "port")
        .long("port")
        .value_name("P")
        .value_parser(value_parser!(u16))
        .default_value("9418")
        .help("The port of 127.0.0.1 where it listens")
}

fn http_port_arg<'a>(alloc: Global) -> Arg<'a> {
    Arg::new(alloc, "http-port")
        .long("http-port")
        .value_name("P")
        .value_parser(value_parser!(u16))
        .help("The port of 127.0.0.1 where it serves smart HTTP [default: none]")
}

fn journal_arg<'a>(alloc: Global) -> Arg<'a> {
    Arg::new(alloc, "journal")
        .long("journal")
        .value_name("FILE")
        .default_value("cerolimau.journal")
        .help("The file of the events, which is made where there is none")
}

fn sessions_arg<'a>(alloc: Global) -> Arg<'a> {
    Arg::new(alloc, "sessions")
        .long("sessions")
        .value_name("N")
        .value_parser(value_parser!(u64).range(1..=1_000_000_000_000_000))
        .help("How many connections each worker serves [default: without end]")
}

fn host_command<'a>(alloc: Global) -> Result<Command<'a>, AllocError> {
    let host = Command::new(alloc, "host").about(
        "Serves repositories, and keeps them in a journal",
    );
    let host = host.arg(admin_arg(alloc))?;
    let host = host.arg(workers_arg(alloc))?;
    let host = host.arg(port_arg(alloc))?;
    let host = host.arg(http_port_arg(alloc))?;
    let host = host.arg(journal_arg(alloc))?;
    host.arg(sessions_arg(alloc))
}

fn report_command<'a>(alloc: Global) -> Command<'a> {
    Command::new(alloc, "report").about(
        "Reads questions and the files of one conf, or of two, and prints who may do what",
    )
}

fn program_command<'a>(alloc: Global) -> Result<Command<'a>, AllocError> {
    let program = Command::new(alloc, "cerolimau")
        .version(VERSION)
        .about("A Git hosting server with the access control of Gitolite")
        .subcommand_required(true)
        .arg_required_else_help(true);
    let host = host_command(alloc)?;
    let program = program.subcommand(host)?;
    program.subcommand(report_command(alloc))
}

// The number of workers in the words.
fn workers_in(given: &ArgMatches<'_>) -> usize
    ensures some { 1 ≤ result }
    ensures most { result ≤ 1000 }
{
    match given.get_one::<u64>("workers") {
        Some(count) if 1 <= count && count <= 1_000 => count as usize,
        _ => 1,
    }
}

// The number of sessions in the words.
fn sessions_in(given: &ArgMatches<'_>) -> u64
    ensures { result ≤ 1000000000000000 }
{
    match given.get_one::<u64>("sessions") {
        Some(count) if count <= NO_END => count,
        _ => NO_END,
    }
}

// Says of a word why it isn't taken.
fn refusal(alloc: Global, message: &str) -> Error {
    let mut command = match program_command(alloc) {
        Ok(command) => command,
        Err(error) => return Error::from(error),
    };
    match command.error(ErrorKind::ValueValidation, message) {
        Ok(error) => error,
        Err(error) => Error::from(error),
    }
}

fn words_of(alloc: Global, given: &ArgMatches<'_>) -> Result<HostWords, Error>
    ensures { IfOk result IsWithinLimits }
{
    let (Some(admin), Some(journal)) = (given.get_str("admin"), given.get_str("journal")) else {
        return Err(refusal(alloc, "--admin and --journal want a value"));
    };
    let Some(port) = given.get_one::<u16>("port") else {
        return Err(refusal(alloc, "--port wants a number"));
    };
    let Ok(admin) = UserName::parse(alloc, admin.as_bytes()) else {
        return Err(Error::from(AllocError));
    };
    let Some(admin) = admin else {
        return Err(refusal(alloc, "the admin's name is no user's name"));
    };
    let journal = String::from_str(alloc, journal)?;
    Ok(HostWords {
        admin,
        workers: workers_in(given),
        port,
        http_port: given.get_one::<u16>("http-port"),
        journal,
        sessions: sessions_in(given),
    })
}

/// Reads the words by which the program is called, its name the first of them. The error has the text for the
/// user, and the status: also where the words ask for help or the version.
pub fn read_words(alloc: Global, words: &[String]) -> Result<ProgramWords, Error>
    ensures { IfOk result AreWithinLimits }
{
    let command = program_command(alloc)?;
    let matches = command.try_get_matches_from(words)?;
    if let Some(given) = matches.subcommand_matches("host") {
        return match words_of(alloc, given) {
            Ok(words) => Ok(ProgramWords::Host(words)),
            Err(error) => Err(error),
        };
    }
    match matches.subcommand_matches("report") {
        Some(_) => Ok(ProgramWords::Report),
        None => Err(refusal(alloc, "'host' or 'report' is missing")),
    }
}
