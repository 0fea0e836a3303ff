// The words by which the program was called.
ghost use Rattle.std.specs.Prelude.{◌≡◌, [], drop, IfErr, IfOk};

use base_types::NoMemory;
use std::alloc::Global;
use std::{env, io};

/// The words by which the program was called, its name among them, as the system gives them. Where one is no
/// text there are none, which is no command either.
pub fn words_given(alloc: Global, given: io::Result<env::Args>) -> Result<Vec<String>, NoMemory>
    ensures { IfErr given (λ _. IfOk result (λ words. words.items ≡ [])) }
{
    match given {
        Ok(all) => Ok(Vec::from_iter(alloc, all)?),
        Err(error) if error.kind() == io::ErrorKind::OutOfMemory => Err(NoMemory),
        Err(_) => Ok(Vec::new(alloc)),
    }
}

/// The words behind the program's name.
pub fn behind_name(words: &[String]) -> &[String]
    ensures { result.now ≡ drop 1 words.now }
{
    match words.split_first() {
        Some((_, rest)) => rest,
        None => words,
    }
}
