// The words that the system gives, and posts at a listener.
use base_types::NoMemory;
use hub::Hub;
use shell_program::{ServerProtocol, add_posts, behind_name, unsent_at, words_given};
use std::io::ErrorKind;
use std::test::Fail;
use std::{env, io};

#[test]
fn words_stand_behind_the_name(rt: HostRuntime) -> Result<(), Fail> {
    let alloc = rt.alloc();
    let count = env::args(&rt)?.len();
    let words = words_given(alloc, env::args(&rt))?;
    assert_eq!(rt; words.len(), count);
    assert_eq!(rt; behind_name(&words).len(), count.saturating_sub(1));
    Ok(())
}

#[test]
fn words_that_are_no_text_are_none(rt: HostRuntime) -> Result<(), Fail> {
    let alloc = rt.alloc();
    let words = words_given(alloc, Err(io::Error::from(ErrorKind::InvalidData)))?;
    assert!(rt; words.is_empty());
    let lacking = words_given(alloc, Err(io::Error::from(ErrorKind::OutOfMemory)));
    assert!(rt; matches!(lacking, Err(NoMemory)));
    Ok(())
}

#[test]
fn there_are_as_many_posts_as_are_wanted(rt: HostRuntime) -> Result<(), Fail> {
    for count in [0, 1, 8] {
        let mut posts = Vec::new(rt.alloc());
        for protocol in [ServerProtocol::Git, ServerProtocol::Http] {
            add_posts::<Hub>(rt.alloc(), &mut posts, count, None, protocol)?;
        }
        assert_eq!(rt; posts.len(), 2 * count);
        assert_eq!(rt; unsent_at(posts.as_slice()), 0);
    }
    Ok(())
}
