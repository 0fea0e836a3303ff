// Whether words are a command.
ghost use Rattle.std.specs.Prelude.{◌≡◌, is_some, map, string_bytes};
ghost use Rattle.std.specs.Option.{option_copied};
ghost use Rattle.shell_words.specs.Given.{given_of};
ghost use Rattle.shell_words.specs.Commands.{access_of, asked, check_of, keep_of, load_of, script_of, serve_by, serve_of, value_of};

use crate::commands::Transport;
use crate::numbers::{LAST_START, MAX_LOADED, MAX_SESSIONS, MAX_WORKERS, number_in};
use crate::options::{Flag, Given, first_option};
use conf_lex::UserName;

/// Whether the words are a command. It takes no memory.
#[tactic(auto, unfolding(crate::specs::Commands::asked))]
pub(crate) fn is_command(words: &[String]) -> bool
    ensures { result ≡ is_some (asked (map string_bytes words.now)) }
{
    let [verb, rest @ ..] = words else {
        return false;
    };
    match verb.as_str() {
        "script" => is_admin(rest),
        "serve" => is_serve(rest),
        "http" => is_serve(rest),
        "check" => are_none(rest),
        "load" => is_load(rest),
        "keep" => is_admin(rest),
        "access" => are_none(rest),
        _ => false,
    }
}

// Whether there are no words.
fn are_none(words: &[String]) -> bool
    ensures check { result ≡ is_some (check_of (map string_bytes words.now)) }
    ensures access { result ≡ is_some (access_of (map string_bytes words.now)) }
{
    if let [_, ..] = words {
        return false;
    }
    true
}

// Whether the words are the option `--admin` alone.
fn is_admin(words: &[String]) -> bool
    ensures script { result ≡ is_some (script_of (map string_bytes words.now)) }
    ensures keep { result ≡ is_some (keep_of (map string_bytes words.now)) }
{
    let Some(option) = first_option(words) else {
        return false;
    };
    let Flag::Admin = option.flag else {
        return false;
    };
    if let [_, ..] = option.rest {
        return false;
    }
    if !UserName::is_name(option.value) {
        return false;
    }
    true
}

// Whether the words are the two numbers of `load`.
fn is_load(words: &[String]) -> bool
    ensures { result ≡ is_some (load_of (map string_bytes words.now)) }
{
    let [count, start] = words else {
        return false;
    };
    let Some(_) = number_in(1, MAX_LOADED, count.as_bytes()) else {
        return false;
    };
    let Some(_) = number_in(0, LAST_START, start.as_bytes()) else {
        return false;
    };
    true
}

// Whether the words are the three options of `serve`, which are those of `http`, in any order.
fn is_serve(words: &[String]) -> bool
    ensures git { result ≡ is_some (serve_of Transport.Git (map string_bytes words.now)) }
    ensures http { result ≡ is_some (serve_of Transport.Http (map string_bytes words.now)) }
{
    let Some(first) = first_option(words) else {
        return false;
    };
    let Some(second) = first_option(first.rest) else {
        return false;
    };
    let Some(third) = first_option(second.rest) else {
        return false;
    };
    if let [_, ..] = third.rest {
        return false;
    }
    are_values(
        value_of(Flag::Admin, first, second, third),
        value_of(Flag::Workers, first, second, third),
        value_of(Flag::Sessions, first, second, third),
    )
}

// The value of the option with this flag, among three.
fn value_of<'a>(
    flag: Flag,
    first: Given<'a>,
    second: Given<'a>,
    third: Given<'a>,
) -> Option<&'a [u8]>
    ensures { option_copied result ≡ value_of flag (given_of first.entry) (given_of second.entry) (given_of third.entry) }
{
    if first.flag == flag {
        return Some(first.value);
    }
    if second.flag == flag {
        return Some(second.value);
    }
    if third.flag == flag {
        return Some(third.value);
    }
    None
}

// Whether the values of the options of `serve` are all given, and within their limits.
fn are_values(admin: Option<&[u8]>, workers: Option<&[u8]>, sessions: Option<&[u8]>) -> bool
    ensures git { result ≡ is_some (serve_by Transport.Git (option_copied admin.entry) (option_copied workers.entry) (option_copied sessions.entry)) }
    ensures http { result ≡ is_some (serve_by Transport.Http (option_copied admin.entry) (option_copied workers.entry) (option_copied sessions.entry)) }
{
    let (Some(admin), Some(workers), Some(sessions)) = (admin, workers, sessions) else {
        return false;
    };
    let Some(_) = number_in(1, MAX_WORKERS, workers) else {
        return false;
    };
    let Some(_) = number_in(1, MAX_SESSIONS, sessions) else {
        return false;
    };
    if !UserName::is_name(admin) {
        return false;
    }
    true
}
