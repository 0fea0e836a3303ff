// What rows of words are read as. In a row the words are divided by spaces.
use shell_words::{Asked, Transport, USAGE, WordsFault, hold_laws, read_words};
use std::alloc::Global;
use std::str;
use std::test::Fail;

const ROWS: [(&str, &str); 54] = [
    ("script --admin ann", "script ann"),
    ("script --admin=ann", "script ann"),
    ("script --admin=a-._@+9", "script a-._@+9"),
    (
        "serve --admin ann --workers 8 --sessions 1000000",
        "serve ann 8 1000000",
    ),
    (
        "serve --sessions=1 --workers 1 --admin=ann",
        "serve ann 1 1",
    ),
    (
        "serve --workers=3 --admin ann --sessions 20",
        "serve ann 3 20",
    ),
    (
        "http --workers=3 --admin ann --sessions 20",
        "http ann 3 20",
    ),
    ("http --sessions 1 --workers=8 --admin ann", "http ann 8 1"),
    ("http --admin ann --workers 8", "usage"),
    ("http --admin ann --workers 9 --sessions 1", "usage"),
    ("https --admin ann --workers 8 --sessions 1", "usage"),
    ("check", "check"),
    ("keep --admin ann", "keep ann"),
    ("keep", "usage"),
    ("keep --admin ann --workers 1", "usage"),
    ("load 1 0", "load 1 0"),
    ("load 5000 4294967295", "load 5000 4294967295"),
    ("", "usage"),
    ("help", "usage"),
    ("--help", "usage"),
    ("-h", "usage"),
    ("--version", "usage"),
    ("help script", "usage"),
    ("script", "usage"),
    ("script --admin", "usage"),
    ("script --admin=", "usage"),
    ("script ann", "usage"),
    ("script -admin ann", "usage"),
    ("script --adm ann", "usage"),
    ("script --admins=ann", "usage"),
    ("script --admin .ann", "usage"),
    ("script --admin CREATOR", "usage"),
    ("script --admin ann --admin ann", "usage"),
    ("script --admin ann more", "usage"),
    ("script -- --admin ann", "usage"),
    ("script --admin ann --help", "usage"),
    ("--admin ann script", "usage"),
    ("scripts --admin ann", "usage"),
    ("serve --admin ann --workers 8", "usage"),
    ("serve --admin ann --workers 9 --sessions 1", "usage"),
    ("serve --admin ann --workers 0 --sessions 1", "usage"),
    ("serve --admin ann --workers 01 --sessions 1", "usage"),
    ("serve --admin ann --workers 1 --sessions 1000001", "usage"),
    ("serve --admin ann --workers 1 --workers 1", "usage"),
    ("serve --admin ann --workers --sessions 1", "usage"),
    ("check check", "usage"),
    ("access", "access"),
    ("access ann", "usage"),
    ("load 0 0", "usage"),
    ("load 5001 0", "usage"),
    ("load 1 4294967296", "usage"),
    ("load +1 0", "usage"),
    ("load 1", "usage"),
    ("load 18446744073709551617 0", "usage"),
];

// How an answer is written in a row.
fn shown(alloc: Global, read: Result<Asked, WordsFault>) -> Result<String, Fail> {
    Ok(match read {
        Ok(Asked::Script { admin }) => {
            format!(in alloc; "script {}", str::from_utf8(admin.bytes())?)?
        }
        Ok(Asked::Keep { admin }) => {
            format!(in alloc; "keep {}", str::from_utf8(admin.bytes())?)?
        }
        Ok(
            Asked::Serve {
                transport,
                admin,
                workers,
                sessions,
            },
        ) => {
            let verb = match transport {
                Transport::Git => "serve",
                Transport::Http => "http",
            };
            format!(in alloc;
                "{verb} {} {workers} {sessions}",
                str::from_utf8(admin.bytes())?
            )?
        }
        Ok(Asked::Check) => format!(in alloc; "check")?,
        Ok(Asked::Access) => format!(in alloc; "access")?,
        Ok(Asked::Load { count, start }) => format!(in alloc; "load {count} {start}")?,
        Err(WordsFault::Usage) => format!(in alloc; "usage")?,
        Err(WordsFault::NoMemory) => format!(in alloc; "no memory")?,
    })
}

#[test]
fn words_are_read_as_the_table_says(rt: HostRuntime) -> Result<(), Fail> {
    let alloc = rt.alloc();
    for (line, wanted) in &ROWS {
        let mut words = Vec::new(alloc);
        for word in line.split(' ') {
            words.push(word.to_string(alloc)?)?;
        }
        let read = shown(alloc, read_words(alloc, &words))?;
        assert!(rt; read.as_str() == *wanted, "{line}: {read}");
    }
    Ok(())
}

#[test]
fn no_words_are_no_command(rt: HostRuntime) -> Result<(), Fail> {
    hold_laws();
    let read = shown(rt.alloc(), read_words(rt.alloc(), &[]))?;
    assert!(rt; read.as_str() == "usage");
    assert!(rt; USAGE.starts_with("usage: gitolite_shell script --admin NAME | "));
    let text = WordsFault::Usage.to_string(rt.alloc())?;
    assert!(rt; text.as_str() == "the words are no command");
    Ok(())
}
