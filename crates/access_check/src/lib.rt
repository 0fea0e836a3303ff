//! Who may do what: which rule decides, which letter a change needs, and what a denial says.
//!
//! - `users`: who asks of which repository, and whom a rule is for;
//! - `letters`: the letter that a change needs, and what a permission grants;
//! - `verdicts`: what a question is answered;
//! - `deciding`, `opening`: the first rule that decides over a ref, and before a ref is known;
//! - `flags`: what all rules of a repository say together;
//! - `denials`: the text of a denial;
//! - `laws`: what holds of the definitions themselves.
//!
//! The rules are in plain words in `docs/ACCESS.md`.
#![tactic(auto)]

mod deciding;
mod denials;
mod flags;
mod laws;
mod letters;
mod opening;
mod users;
mod verdicts;

pub use ancestry::{Change, Facts};
pub use base_types::{NoMemory, Text};
pub use conf_lex::{RepoName, UserName};
pub use deciding::decide;
pub use denials::{Request, denial_text};
pub use flags::{flags_of, holds_vref};
pub use laws::hold_laws;
pub use letters::{Base, Flags, Letter, letter_of};
pub use opening::{first_stage, may_create, unborn_stage};
pub use rule_compile::{Policy, Rule};
pub use verdicts::{Verdict, Vref, Want};
pub use wild_perms::Wild;
