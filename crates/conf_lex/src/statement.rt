// What a line says.
use crate::Perm;
use base_types::{ItemList, Text};

/// Texts in the order in which they stand.
pub type TextList = ItemList<Text>;

/// What a line says. Words are kept as they were written, but for the quotes of `Include` and `Subconf`.
#[derive(Drop)]
pub enum Statement {
    /// Nothing, or a comment alone.
    Blank,
    /// The rules that follow are for these repositories.
    Repo {
        words: TextList,
    },
    /// These users have this permission for the refs that match one of these patterns, or for all where there
    /// is no pattern.
    Rule {
        perm: Perm,
        refexes: TextList,
        users: TextList,
    },
    /// The group has these members, too. Its name begins with `@`.
    Group {
        name: Text,
        members: TextList,
    },
    /// The files that this pattern names are spliced in here.
    Include {
        pattern: Text,
    },
    /// The same, and they may speak of their own repositories alone.
    Subconf {
        pattern: Text,
    },
    /// An option of the repositories.
    Opt {
        key: Text,
        value: Text,
    },
    /// A line of Gitolite's that has no effect here.
    NoEffect,
}
