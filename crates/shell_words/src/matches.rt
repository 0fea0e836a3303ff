// The command line as `clap` is told of it, and the command that its matches are.
ghost use Rattle.std.specs.Prelude.{◌≡◌, IfErr, IfOk, false, map, string_bytes, true};
ghost use Rattle.std.specs.Option.{option_copied};
ghost use Rattle.clap.specs.Words.{HasMatchesOf, app_of, first_value, found_of, kind_of, rule_of, subcommand_rows_of, takes};
ghost use Rattle.clap.specs.declared.builder.command.Command.TheViews.{out-Command as fields_of};
ghost use Rattle.conf_lex.specs.Names.{is_user_name};
ghost use Rattle.shell_words.specs.Commands.{IsWithinLimits, Reads, serve_by};
ghost use Rattle.shell_words.specs.Matches.{admin_by, admin_command, command_by, command_of, load_by, load_command, option_rule, program, serve_command};

use crate::commands::{Asked, Transport, WordsFault};
use crate::numbers::{LAST_START, MAX_LOADED, MAX_SESSIONS, MAX_WORKERS, number_in};
use base_types::NoMemory;
use clap::error::ErrorKind;
use clap::{Arg, ArgMatches, Command, Error};
use conf_lex::UserName;
use std::alloc::{AllocError, Global};

// `--NAME VALUE`.
fn option<'a>(alloc: Global, name: &'a str) -> Arg<'a>
    ensures rule { rule_of result ≡ option_rule name.entry.now }
    ensures local { result.global ≡ false }
{
    Arg::new(alloc, name).long(name).required(true)
}

// A command with the option `--admin` alone.
fn admin_command<'a>(alloc: Global, name: &'a str) -> Result<Command<'a>, AllocError>
    ensures app { IfOk result (λ c. app_of c ≡ admin_command name.entry.now) }
    ensures local { IfOk result (λ c. (fields_of c).has_globals ≡ false) }
{
    Command::new(alloc, name).arg(option(alloc, "admin"))
}

// A command with the options `--admin`, `--workers` and `--sessions`.
fn serve_command<'a>(alloc: Global, name: &'a str) -> Result<Command<'a>, AllocError>
    ensures app { IfOk result (λ c. app_of c ≡ serve_command name.entry.now) }
    ensures local { IfOk result (λ c. (fields_of c).has_globals ≡ false) }
{
    admin_command(alloc, name)?
        .arg(option(alloc, "workers"))?
        .arg(option(alloc, "sessions"))
}

fn load_command<'a>(alloc: Global) -> Result<Command<'a>, AllocError>
    ensures app { IfOk result (λ c. app_of c ≡ load_command) }
    ensures local { IfOk result (λ c. (fields_of c).has_globals ≡ false) }
{
    let count = Arg::new(alloc, "count").required(true);
    let start = Arg::new(alloc, "start").required(true);
    Command::new(alloc, "load").arg(count)?.arg(start)
}

fn program<'a>(alloc: Global) -> Result<Command<'a>, AllocError>
    ensures { IfOk result (λ c. app_of c ≡ program) }
{
    Command::new(alloc, "gitolite_shell")
        .no_binary_name(true)
        .disable_help_flag(true)
        .disable_help_subcommand(true)
        .subcommand(admin_command(alloc, "script")?)?
        .subcommand(serve_command(alloc, "serve")?)?
        .subcommand(serve_command(alloc, "http")?)?
        .subcommand(Command::new(alloc, "check"))?
        .subcommand(load_command(alloc)?)?
        .subcommand(admin_command(alloc, "keep")?)?
        .subcommand(Command::new(alloc, "access"))
}

/// What `clap` makes of the words of a command. It fails only where memory runs out.
pub(crate) fn matches_of<'a>(alloc: Global, words: &'a [String]) -> Result<ArgMatches<'a>, Error>
    requires { takes program (map string_bytes words.now) ≡ true }
    ensures ok { IfOk result (HasMatchesOf program (map string_bytes words.entry.now)) }
    ensures err { IfErr result (λ e. kind_of e ≡ ErrorKind.OutOfMemory) }
{
    let program = program(alloc)?;
    program.try_get_matches_from(words)
}

/// The command that the matches are.
pub(crate) fn command_in(alloc: Global, matches: &ArgMatches<'_>) -> Result<Asked, WordsFault>
    ensures reads { Reads (command_of (subcommand_rows_of matches.now)) result }
    ensures limits { IfOk result IsWithinLimits }
{
    let Some((name, given)) = matches.subcommand() else {
        return Err(WordsFault::Usage);
    };
    command_by(alloc, name, given)
}

// The command with this name.
fn command_by(alloc: Global, name: &str, given: &ArgMatches<'_>) -> Result<Asked, WordsFault>
    ensures reads { Reads (command_by name.now (first_value (found_of given.now))) result }
    ensures limits { IfOk result IsWithinLimits }
{
    match name {
        "script" => match read_admin(alloc, given.get_str("admin")) {
            Ok(admin) => Ok(Asked::Script { admin }),
            Err(fault) => Err(fault),
        },
        "serve" => {
            read_serve(
                alloc,
                Transport::Git,
                given.get_str("admin"),
                given.get_str("workers"),
                given.get_str("sessions"),
            )
        }
        "http" => {
            read_serve(
                alloc,
                Transport::Http,
                given.get_str("admin"),
                given.get_str("workers"),
                given.get_str("sessions"),
            )
        }
        "check" => Ok(Asked::Check),
        "load" => read_load(given.get_str("count"), given.get_str("start")),
        "keep" => match read_admin(alloc, given.get_str("admin")) {
            Ok(admin) => Ok(Asked::Keep { admin }),
            Err(fault) => Err(fault),
        },
        "access" => Ok(Asked::Access),
        _ => Err(WordsFault::Usage),
    }
}

// The user's name that a word is.
fn read_admin(alloc: Global, admin: Option<&str>) -> Result<UserName, WordsFault>
    ensures reads { Reads (admin_by (option_copied admin.entry)) result }
    ensures name { IfOk result (λ admin. is_user_name admin ≡ true) }
{
    let Some(admin) = admin else {
        return Err(WordsFault::Usage);
    };
    if !UserName::is_name(admin.as_bytes()) {
        return Err(WordsFault::Usage);
    }
    match user_name(alloc, admin.as_bytes()) {
        Ok(admin) => Ok(admin),
        Err(NoMemory) => Err(WordsFault::NoMemory),
    }
}

// The name of a user, which the word is known to be.
fn user_name(alloc: Global, word: &[u8]) -> Result<UserName, NoMemory>
    requires { is_user_name word.now ≡ true }
    ensures { IfOk result (λ name. name ≡ word.now) }
{
    let Some(name) = UserName::parse(alloc, word)? else {
        unreachable!()
    };
    Ok(name)
}

// `serve`, or `http`, with these values.
fn read_serve(
    alloc: Global,
    transport: Transport,
    admin: Option<&str>,
    workers: Option<&str>,
    sessions: Option<&str>,
) -> Result<Asked, WordsFault>
    ensures reads { Reads (serve_by transport (option_copied admin.entry) (option_copied workers.entry) (option_copied sessions.entry)) result }
    ensures limits { IfOk result IsWithinLimits }
{
    let (Some(workers), Some(sessions)) = (workers, sessions) else {
        return Err(WordsFault::Usage);
    };
    let Some(workers) = number_in(1, MAX_WORKERS, workers.as_bytes()) else {
        return Err(WordsFault::Usage);
    };
    let Some(sessions) = number_in(1, MAX_SESSIONS, sessions.as_bytes()) else {
        return Err(WordsFault::Usage);
    };
    match read_admin(alloc, admin) {
        Ok(admin) => Ok(Asked::Serve {
            transport,
            admin,
            workers: workers as u8,
            sessions,
        }),
        Err(fault) => Err(fault),
    }
}

// `load` with these values.
fn read_load(count: Option<&str>, start: Option<&str>) -> Result<Asked, WordsFault>
    ensures reads { Reads (load_by (option_copied count.entry) (option_copied start.entry)) result }
    ensures limits { IfOk result IsWithinLimits }
{
    let (Some(count), Some(start)) = (count, start) else {
        return Err(WordsFault::Usage);
    };
    let Some(count) = number_in(1, MAX_LOADED, count.as_bytes()) else {
        return Err(WordsFault::Usage);
    };
    let Some(start) = number_in(0, LAST_START, start.as_bytes()) else {
        return Err(WordsFault::Usage);
    };
    Ok(Asked::Load {
        count: count as u32,
        start: start as u32,
    })
}
