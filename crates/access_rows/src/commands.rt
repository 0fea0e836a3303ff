// What a line changes of what is asked.

/// A line that is no question.
#[derive(Clone, Copy)]
pub(crate) enum Command<'a> {
    /// Another conf, whose first file has this name.
    Conf(&'a [u8]),
    /// A further file of the conf.
    File(&'a [u8]),
    /// Nobody created any repository.
    NoCreator,
    /// This user created all repositories.
    Creator(&'a [u8]),
    /// The creator gives a role to a user.
    Role(&'a [u8], &'a [u8]),
}

/// The command of these words, or none where they are no command.
pub(crate) fn command_of<'a>(words: &[&'a [u8]]) -> Option<Command<'a>> {
    match words {
        [b"creator"] => Some(Command::NoCreator),
        [word, name] => command_with_name(word, name),
        [b"role", role, name] => Some(Command::Role(role, name)),
        _ => None,
    }
}

fn command_with_name<'a>(word: &[u8], name: &'a [u8]) -> Option<Command<'a>> {
    match word {
        b"conf" => Some(Command::Conf(name)),
        b"file" => Some(Command::File(name)),
        b"creator" => Some(Command::Creator(name)),
        _ => None,
    }
}
