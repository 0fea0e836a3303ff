// Options of a command line: a flag and a value.
ghost use Rattle.std.specs.Prelude.{◌≡◌, IfNone, IfSome, None, Some, map, string_bytes};
ghost use Rattle.shell_words.specs.Given.{given_of};
ghost use Rattle.shell_words.specs.Options.{first_option, flag_text, option_at};

/// The flags that a command may have.
#[derive(Clone, Copy, Debug, PartialEq, Eq)]
pub(crate) enum Flag {
    Admin,
    Workers,
    Sessions,
}

impl Flag {
    // How it is written.
    fn text(self) -> &'static [u8]
        ensures { result.now ≡ flag_text self }
    {
        match self {
            Flag::Admin => b"--admin",
            Flag::Workers => b"--workers",
            Flag::Sessions => b"--sessions",
        }
    }
}

/// An option at the front of some words, and the words behind it.
#[derive(Clone, Copy)]
pub(crate) struct Given<'a> {
    pub(crate) flag: Flag,
    pub(crate) value: &'a [u8],
    pub(crate) rest: &'a [String],
}

// The option with this flag at the front of the words.
fn option_at<'a>(flag: Flag, words: &'a [String]) -> Option<Given<'a>>
    ensures some { IfSome result (λ g. option_at flag (map string_bytes words.now) ≡ Some (given_of g)) }
    ensures none { IfNone result (option_at flag (map string_bytes words.now) ≡ None) }
{
    let [word, rest @ ..] = words else {
        return None;
    };
    let Some(more) = word.as_bytes().strip_prefix(flag.text()) else {
        return None;
    };
    match more {
        [] => {
            let [value, rest @ ..] = rest else {
                return None;
            };
            Some(Given {
                flag,
                value: value.as_bytes(),
                rest,
            })
        }
        [b'=', value @ ..] => Some(Given { flag, value, rest }),
        _ => None,
    }
}

/// The option at the front of the words.
pub(crate) fn first_option(words: &[String]) -> Option<Given<'_>>
    ensures some { IfSome result (λ g. first_option (map string_bytes words.now) ≡ Some (given_of g)) }
    ensures none { IfNone result (first_option (map string_bytes words.now) ≡ None) }
{
    if let Some(given) = option_at(Flag::Admin, words) {
        return Some(given);
    }
    if let Some(given) = option_at(Flag::Workers, words) {
        return Some(given);
    }
    option_at(Flag::Sessions, words)
}
