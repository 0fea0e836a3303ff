//! The rules of a conf: a flat list in which the first rule that decides is found, or why the conf has none.
//!
//! - `limits`: how many rules and patterns a conf has at most, and how long a role's name is;
//! - `fault`: why a conf is refused;
//! - `members`, `rule`, `warning`: what a conf is compiled to;
//! - `words`: what the words of a line stand for;
//! - `groups`, `shared`: members of groups, each group's once, and what a subconf may set access for;
//! - `name_list`, `known`, `patterns`: names and patterns, each once;
//! - `stop`, `draft`: what the lines come to, one after another;
//! - `salt`, `word_index`, `cursor`, `rules_for`: which rules may cover a repository;
//! - `option_words`: where an option is in force;
//! - `roles`, `role_options`: which words are declared as roles, and for which repositories;
//! - `policy`: the rules in force;
//! - `laws`: that there are answers to all questions on texts.
//!
//! The rules are in plain words in `docs/CONF.md`.
#![tactic(auto)]

mod cursor;
mod draft;
mod fault;
mod groups;
mod known;
mod laws;
mod limits;
mod members;
mod name_list;
mod option_words;
mod patterns;
mod policy;
mod role_options;
mod roles;
mod rule;
mod rules_for;
mod salt;
mod shared;
mod stop;
mod warning;
mod word_index;
mod words;

pub use base_types::{NoMemory, Text};
pub use conf_groups::{ConfFault, ConfFile, FileList, FileName, Scope};
pub use conf_lex::{Perm, RepoName, TextList, UserName};
pub use fault::{PolicyFault, RuleFault, RuleKind};
pub use laws::some_patterns_are_true;
pub use limits::{MAX_PATTERNS, MAX_ROLE_NAME, MAX_RULES};
pub use members::Members;
pub use policy::Policy;
pub use refex::RefexFault;
pub use rule::{OptionLine, RepoWord, Rule, UserWord};
pub use rules_for::RulesFor;
pub use warning::{Warning, WarningList};
