//! Confs of as many lines, bytes and files as a conf may have, and of more. Rows without such numbers are
//! those of the program `access_rows`.

use conf_groups::{ConfFile, FileList, Text, expand, hold_laws};
use std::alloc::Global;
use std::test::Fail;

// How many line feeds the main file begins with, and its end; how many `#` the file `b` has; and what comes
// of it.
static LIMITS: [(usize, &str, usize, &str); 11] = [
    (65_536, "", 0, "65536"),
    (65_537, "", 0, "gitolite.conf line 65537: too long"),
    (65_535, "include b", 0, "65536"),
    (65_535, "include b", 1, "b line 1: too long"),
    (
        65_536,
        "include x",
        0,
        "gitolite.conf line 65537: no file x",
    ),
    (
        65_536,
        "hello",
        0,
        "gitolite.conf line 65537: not a statement",
    ),
    (65_536, "subconf b", 0, "gitolite.conf line 65537: too long"),
    (0, "include b", 4_194_295, "2"),
    (0, "include b", 4_194_296, "b line 1: too long"),
    (0, "", 67_108_864, "0"),
    (0, "", 67_108_865, "gitolite.conf line 0: too long"),
];

// How many files there are beside the main file, whether that is there, how long the name of the first is,
// and what comes of it where the main file includes all.
static FILES: [(usize, bool, usize, &str); 6] = [
    (999, true, 3, "1000"),
    (1000, true, 3, "gitolite.conf line 0: too long"),
    (1000, true, 256, "1000"),
    (1, true, 255, "2"),
    (
        1000,
        false,
        3,
        "gitolite.conf line 0: no file gitolite.conf",
    ),
    (1001, false, 3, "gitolite.conf line 0: too long"),
];

// How many items were placed, or the fault.
fn outcome(alloc: Global, list: &FileList) -> Result<Vec<u8>, Fail> {
    match expand(alloc, list) {
        Ok(placed) => Ok(
            format!(in alloc; "{}", placed.len())?
                .as_bytes()
                .to_vec(alloc)?,
        ),
        Err(fault) => Ok(fault.text(alloc)?.into_bytes()),
    }
}

fn filled(alloc: Global, name: &[u8], byte: u8, count: usize, end: &str) -> Result<ConfFile, Fail> {
    let mut text = vec![in alloc; byte; count]?;
    text.extend_from_slice(end.as_bytes())?;
    Ok(ConfFile {
        name: Text::of(alloc, name)?,
        text: Text::from(text),
    })
}

#[test]
fn limits_are_reached_and_passed(rt: HostRuntime) -> Result<(), Fail> {
    let alloc = rt.alloc();
    hold_laws();
    for (feeds, end, count, due) in &LIMITS {
        let mut list = FileList::new(alloc);
        list.push(filled(alloc, b"gitolite.conf", b'\n', *feeds, end)?)?;
        list.push(filled(alloc, b"b", b'#', *count, "")?)?;
        let out = outcome(alloc, &list)?;
        assert_eq!(rt; out.as_slice(), due.as_bytes());
    }
    Ok(())
}

fn name_of(alloc: Global, number: usize, long: usize) -> Result<Vec<u8>, Fail> {
    if number == 0 {
        return Ok(vec![in alloc; b'n'; long]?);
    }
    Ok(format!(in alloc; "{number}")?.as_bytes().to_vec(alloc)?)
}

fn many(alloc: Global, count: usize, main: bool, long: usize) -> Result<FileList, Fail> {
    let mut list = FileList::new(alloc);
    if main {
        list.push(filled(alloc, b"gitolite.conf", b'#', 0, "include *")?)?;
    }
    for number in 0..count {
        let name = name_of(alloc, number, long)?;
        list.push(filled(alloc, name.as_slice(), b'#', 1, "")?)?;
    }
    Ok(list)
}

#[test]
fn files_are_counted(rt: HostRuntime) -> Result<(), Fail> {
    let alloc = rt.alloc();
    for (count, main, long, due) in &FILES {
        let list = many(alloc, *count, *main, *long)?;
        let out = outcome(alloc, &list)?;
        assert_eq!(rt; out.as_slice(), due.as_bytes());
    }
    Ok(())
}
