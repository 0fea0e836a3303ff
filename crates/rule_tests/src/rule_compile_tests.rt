//! That threads may share rules. Rows of confs are those of the program `access_rows`.

use base_types::NoMemory;
use rule_compile::{ConfFile, FileList, Policy, Text};
use std::alloc::Global;
use std::test::Fail;

fn files(alloc: Global) -> Result<FileList, NoMemory> {
    let mut files = FileList::new(alloc);
    files.push(ConfFile {
        name: Text::of(alloc, b"gitolite.conf")?,
        text: Text::of(alloc, b"repo a x/..*\nRW+ = ann")?,
    })?;
    Ok(files)
}

fn crosses_threads<T: Send + Sync + Drop>(_value: T) {}

#[test]
fn threads_share_a_policy(rt: HostRuntime) -> Result<(), Fail> {
    let files = files(rt.alloc())?;
    let Ok(policy) = Policy::compile(rt.alloc(), &files) else {
        return Err(Fail::from("refused"));
    };
    crosses_threads(policy);
    Ok(())
}
