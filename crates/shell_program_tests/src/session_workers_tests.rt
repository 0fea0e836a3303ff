// Posts over memory doors, each with a worker on a thread of its own.
use conf_lex::UserName;
use edge_links::{Door, MemoryDoor, Next};
use git_session::GitSessions;
use hub::{Event, Hub, NoMemory, Outcome};
use pktline_core::{Link, MemoryLink};
use session_core::{Gate, OpenGate};
use session_workers::{Post, ServedAll, serve_all};
use std::alloc::Global;
use std::sync::atomic::AtomicU64;
use std::sync::atomic::Ordering::SeqCst;
use std::test::Fail;

const OPENING: &[u8] = b"0024carol git-receive-pack 'testing'";

const COMMAND: &[u8] =
    b"00750000000000000000000000000000000000000000 1c73cda3964d5dd51bdaad94efd235c910cf59de refs/heads/master\0report-status0000";

const COMMIT: &[u8] =
    b"tree 4b825dc642cb6eb9a060e54bf8d69288fbee4904\nauthor Carol <carol@example.com> 1700000000 +0000\ncommitter Carol <carol@example.com> 1700000000 +0000\n\nfirst\n";

const TRAILER: [u8; 20] = [
    0x64, 0xe5, 0x6d, 0xb6, 0x5e, 0x40, 0xed, 0x16, 0x0b, 0x3b, 0xd3, 0x40, 0x52, 0x5a, 0xb6, 0x1e,
    0x82, 0x69, 0xdb, 0xdb,
];

// An opening, a create of a branch, and its pack.
fn first_push(alloc: Global) -> Result<Vec<u8>, NoMemory> {
    let mut input = OPENING.to_vec(alloc)?;
    input.extend_from_slice(COMMAND)?;
    input.extend_from_slice(b"PACK\0\0\0\x02\0\0\0\x02\x9c\x09")?;
    input.extend_from_slice(COMMIT)?;
    input.extend_from_slice(b"\x20")?;
    input.extend_from_slice(&TRAILER)?;
    Ok(input)
}

// An opening, and nothing pushed.
fn no_push(alloc: Global) -> Result<Vec<u8>, NoMemory> {
    let mut input = OPENING.to_vec(alloc)?;
    input.extend_from_slice(b"0000")?;
    Ok(input)
}

// A door with so many links of this input, which fails at these calls.
fn door_of(
    alloc: Global,
    input: &[u8],
    count: usize,
    failing: &[u64],
) -> Result<MemoryDoor<MemoryLink>, NoMemory> {
    let mut links = Vec::new(alloc);
    for _ in 0..count {
        let link = MemoryLink::new(input.to_vec(alloc)?, 7, Vec::new(alloc), Vec::new(alloc));
        links.push(link)?;
    }
    MemoryDoor::new(alloc, links, failing.to_vec(alloc)?)
}

type MemoryPost = Post<MemoryDoor<MemoryLink>, OpenGate, Hub, GitSessions>;

// So many posts, each with a door of so many links of this input.
fn posts_of(
    alloc: Global,
    input: &[u8],
    posts: usize,
    count: usize,
) -> Result<Vec<MemoryPost>, NoMemory> {
    let mut all = Vec::new(alloc);
    for _ in 0..posts {
        let door = door_of(alloc, input, count, &[])?;
        all.push(Post::new(door, OpenGate, GitSessions))?;
    }
    Ok(all)
}

fn new_hub(alloc: Global) -> Result<Hub, NoMemory> {
    let Some(admin) = UserName::parse(alloc, b"admin")? else {
        unreachable!()
    };
    Hub::start(alloc, &admin)
}

// How many entries bear this number, and how many have a command that is done.
fn counts(hub: &Hub, caller: u64) -> (usize, usize) {
    let mut own = 0usize;
    let mut done = 0usize;
    for entry in hub.log().as_slice() {
        if entry.caller == caller {
            own = own.saturating_add(1);
        }
        if let Event::Pushed { outcomes, .. } = &entry.event {
            if let Some(Outcome::Done) = outcomes.get(0) {
                done = done.saturating_add(1);
            }
        }
    }
    (own, done)
}

#[test]
fn of_two_creates_at_once_one_is_done(rt: HostRuntime) -> Result<(), Fail> {
    let alloc = rt.alloc();
    let mut posts = posts_of(alloc, &first_push(alloc)?, 2, 1)?;
    assert!(rt; posts.len() == 2);
    let served = serve_all::<_, _, _, _, _, GitSessions>(
        &rt,
        alloc,
        new_hub(alloc)?,
        &mut posts,
        1,
    );
    assert!(rt; served.sessions == 2 && !served.door_failed && !served.no_memory);
    let hub = served.hub.ok_or("memory")?;
    assert!(rt; hub.log().len() == 4);
    assert!(rt; counts(&hub, 0) == (2, 1) && counts(&hub, 1) == (2, 1));
    Ok(())
}

#[test]
fn four_posts_serve_as_many_links_as_they_should(rt: HostRuntime) -> Result<(), Fail> {
    let alloc = rt.alloc();
    let mut posts = posts_of(alloc, &no_push(alloc)?, 4, 25)?;
    assert!(rt; posts.len() == 4);
    let served = serve_all::<_, _, _, _, _, GitSessions>(
        &rt,
        alloc,
        new_hub(alloc)?,
        &mut posts,
        20,
    );
    assert!(rt; served.sessions == 80 && !served.door_failed && !served.no_memory);
    let hub = served.hub.ok_or("memory")?;
    assert!(rt; hub.log().len() == 80);
    for caller in 0..4u64 {
        assert!(rt; counts(&hub, caller) == (20, 0));
    }
    assert!(rt; posts[0].door.served().len() == 20 && posts[3].door.served().len() == 20);
    Ok(())
}

// The second door fails at one of its calls; the first serves its two links, and is closed.
#[test]
fn a_door_that_fails_ends_its_worker_alone(rt: HostRuntime) -> Result<(), Fail> {
    let alloc = rt.alloc();
    let input = no_push(alloc)?;
    for call in 0..4u64 {
        let mut posts = Vec::new(alloc);
        for failing in [[9u64], [call]] {
            let door = door_of(alloc, &input, 2, &failing)?;
            posts.push(Post::new(door, OpenGate, GitSessions))?;
        }
        assert!(rt; posts.len() == 2);
        let ServedAll {
            hub,
            sessions,
            door_failed,
            no_memory,
        } = serve_all::<_, _, _, _, _, GitSessions>(&rt, alloc, new_hub(alloc)?, &mut posts, 3);
        let hub = hub.ok_or("memory")?;
        let served = call.min(2);
        assert!(rt; sessions == 2 + served && door_failed == (call < 3) && !no_memory);
        assert!(rt;
            counts(&hub, 1) == (served as usize, 0) && hub.log().len() == 2 + served as usize
        );
    }
    Ok(())
}

// ---- two workers that run at once

// A door that raises a flag where a link is given back, if it is the one that does.
#[derive(Drop)]
struct Telling<'a> {
    door: MemoryDoor<MemoryLink>,
    flag: &'a AtomicU64,
    tells: bool,
}

impl<'a> Door<MemoryLink> for Telling<'a> {
    ghost state = { λ d. ⟦<MemoryDoor<MemoryLink> as Door<MemoryLink>>⟧.state d.door };

    fn next(&mut self) -> Next<MemoryLink> {
        self.door.next()
    }

    fn done(&mut self, link: MemoryLink) {
        self.door.done(link);
        if self.tells {
            self.flag.store(1, SeqCst);
        }
    }
}

// How often a gate looks at its flag at most.
const MOST_LOOKS: u64 = 100_000_000;

// A gate that holds its session up until the flag is raised, if it is the one that does.
#[derive(Drop)]
struct Waiting<'a> {
    flag: &'a AtomicU64,
    waits: bool,
    seen: bool,
}

impl<'a> Gate for Waiting<'a> {
    ghost use Rattle.std.specs.Prelude.{None};

    ghost calls = { λ _. None };

    fn between<L: Link>(&mut self, _place: u64, _link: &L) {
        if !self.waits {
            return;
        }
        for _ in 0..MOST_LOOKS {
            if self.flag.load(SeqCst) == 1 {
                self.seen = true;
                return;
            }
        }
    }
}

// One session waits behind its opening until another worker has served its own.
#[test]
fn two_sessions_are_served_at_once(rt: HostRuntime) -> Result<(), Fail> {
    let alloc = rt.alloc();
    let input = no_push(alloc)?;
    for waiting in 0..2usize {
        let flag = AtomicU64::new(0);
        let mut posts = Vec::new(alloc);
        for place in 0..2usize {
            let door = Telling {
                door: door_of(alloc, &input, 1, &[])?,
                flag: &flag,
                tells: place != waiting,
            };
            let gate = Waiting {
                flag: &flag,
                waits: place == waiting,
                seen: false,
            };
            posts.push(Post::new(door, gate, GitSessions))?;
        }
        assert!(rt; posts.len() == 2);
        let served = serve_all::<_, _, _, _, _, GitSessions>(
            &rt,
            alloc,
            new_hub(alloc)?,
            &mut posts,
            1,
        );
        assert!(rt; served.sessions == 2 && !served.no_memory);
        assert!(rt; posts[waiting].gate.seen);
    }
    Ok(())
}
