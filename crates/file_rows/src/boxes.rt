//! The files and consoles, in memory, over the system and over a system that fails in mid-stream.

ghost use Rattle.std.specs.Prelude.{◌≡◌, IfOk, vec_len};

mod faulty;

use faulty::{FaultyFiles, FaultyOutput, Turn};
use outside::{
    Console, DiskBox, Failed, FetchFault, Fetched, FileBox, MemBox, MemConsole, OutConsole,
};
use std::alloc::{AllocError, Global};
use std::fs;
use std::rt::Files;
use std::test::Fail;

// Bytes of which no two that stand 65,536 apart are equal.
fn sample(alloc: Global, count: u32) -> Result<Vec<u8>, AllocError>
    ensures { IfOk result (λ v. vec_len v ≡ count) }
{
    (0..count).map(|i| (i % 251) as u8).collect(alloc)
}

fn kind_of(answer: &Result<Fetched, FetchFault>) -> &'static str {
    match answer {
        Ok(Fetched::Bytes(_)) => "bytes",
        Ok(Fetched::Absent) => "absent",
        Ok(Fetched::TooLong { limit: _ }) => "too long",
        Err(FetchFault::Failed) => "failed",
        Err(FetchFault::Memory) => "memory",
    }
}

fn has_bytes(answer: &Result<Fetched, FetchFault>, bytes: &[u8]) -> bool {
    match answer {
        Ok(Fetched::Bytes(found)) => found.as_slice() == bytes,
        _ => false,
    }
}

fn fetch_kind<F: FileBox>(alloc: Global, files: &mut F, name: &str, limit: u64) -> &'static str {
    kind_of(&files.fetch(alloc, name, limit))
}

// The first row whose file is not fetched or found as it says. A row has the name, the limit, what a fetch of it comes
// to, and whether it is found, if that is answered.
fn first_wrong_fetch<F: FileBox>(
    alloc: Global,
    files: &mut F,
    rows: &'static [(&'static str, u64, &'static str, Option<bool>)],
) -> Option<&'static str> {
    for (name, limit, kind, found) in rows {
        if fetch_kind(alloc, files, name, *limit) != *kind || files.has(name).ok() != *found {
            return Some(name);
        }
    }
    None
}

// The first row whose bytes are not stored, or are, as it says.
fn first_wrong_store<F: FileBox>(
    files: &mut F,
    rows: &'static [(&'static str, &'static [u8], bool)],
) -> Option<&'static str> {
    for (name, bytes, stored) in rows {
        if files.store(name, bytes).is_ok() != *stored {
            return Some(name);
        }
    }
    None
}

// The four calls of a command, of which one may fail: the box after them, and which of them did not fail.
fn four_calls(alloc: Global, image: &[u8], failing: u32) -> Result<(MemBox, [bool; 4]), Fail> {
    let mut files = MemBox::new(Vec::from_slice(alloc, &[failing])?, 100);
    files.put("half.ctl", b"void main() {}")?;
    files.put("in.dpx", image)?;
    files.room("out.dpx", 2052)?;
    let answers = [
        files.has("out.dpx").is_ok(),
        fetch_kind(alloc, &mut files, "half.ctl", 99) == "bytes",
        fetch_kind(alloc, &mut files, "in.dpx", 2052) == "bytes",
        files.store("out.dpx", image).is_ok(),
    ];
    Ok((files, answers))
}

// The number of the call that is to fail, which calls answer, and how many bytes are stored.
static ANSWERS: [(u32, [bool; 4], usize); 6] = [
    (0, [true, true, true, true], 2052),
    (1, [false, true, true, true], 2052),
    (2, [true, false, true, true], 2052),
    (3, [true, true, false, true], 2052),
    (4, [true, true, true, false], 100),
    (5, [true, true, true, true], 2052),
];

#[test]
fn a_listed_call_fails(rt: HostRuntime) -> Result<(), Fail> {
    let image = sample(rt.alloc(), 2052)?;
    for (failing, answers, kept) in &ANSWERS {
        let (files, given) = four_calls(rt.alloc(), &image, *failing)?;
        assert_eq!(rt; given, *answers, "call {failing}");
        assert_eq!(rt; files.calls(), 4);
        assert_eq!(rt; files.held("out.dpx"), image.get(..*kept), "call {failing}");
        assert_eq!(rt; files.held("in.dpx"), Some(image.as_slice()));
    }
    Ok(())
}

// How many bytes a store that fails is told to leave, and how many of 2052 it leaves.
static TORN: [(u32, usize); 6] = [
    (0, 0),
    (1, 1),
    (100, 100),
    (2051, 2051),
    (2052, 2052),
    (9999, 2052),
];

#[test]
fn a_torn_store_leaves_a_prefix(rt: HostRuntime) -> Result<(), Fail> {
    let alloc = rt.alloc();
    let image = sample(alloc, 2052)?;
    for (torn, kept) in &TORN {
        let mut files = MemBox::new(Vec::from_slice(alloc, &[1])?, *torn);
        files.put("out.dpx", b"as it was")?;
        files.room("out.dpx", 2052)?;
        assert!(rt; files.store("out.dpx", &image).is_err());
        assert_eq!(rt; files.held("out.dpx"), image.get(..*kept), "torn at {torn}");
    }
    Ok(())
}

#[test]
fn a_store_needs_its_room(rt: HostRuntime) -> Result<(), Fail> {
    let alloc = rt.alloc();
    let image = sample(alloc, 2052)?;
    let shorter = sample(alloc, 2051)?;
    let mut files = MemBox::new(Vec::new(alloc), 0);
    assert!(rt; files.store("out.dpx", &image).is_err());
    files.room("out.dpx", 2051)?;
    assert!(rt; files.store("out.dpx", &image).is_err());
    assert!(rt; files.store("in.dpx", &shorter).is_err());
    assert!(rt; files.will_serve("out.dpx", 2051) && !files.will_serve("out.dpx", 2052));
    assert!(rt; files.store("out.dpx", &shorter).is_ok());
    assert_eq!(rt; files.held("out.dpx"), Some(shorter.as_slice()));
    assert!(rt; files.store("out.dpx", b"").is_err());
    Ok(())
}

static HELD: [(&str, u64, &str, Option<bool>); 7] = [
    ("a", 0, "too long", Some(true)),
    ("a", 5, "too long", Some(true)),
    ("a", 6, "bytes", Some(true)),
    ("a", u64::MAX, "bytes", Some(true)),
    ("b", 0, "bytes", Some(true)),
    ("ab", 9, "absent", Some(false)),
    ("", 9, "absent", Some(false)),
];

#[test]
fn files_in_memory_are_found_within_the_limit(rt: HostRuntime) -> Result<(), Fail> {
    let alloc = rt.alloc();
    let mut files = MemBox::new(Vec::new(alloc), 0);
    files.put("a", b"first")?;
    files.put("b", b"")?;
    files.put("a", b"second")?;
    assert_eq!(rt; first_wrong_fetch(alloc, &mut files, &HELD), None);
    assert!(rt; has_bytes(&files.fetch(alloc, "a", 6), b"second"));
    Ok(())
}

static REAL: [(&str, u64, &str, Option<bool>); 9] = [
    ("long", 200_000, "bytes", Some(true)),
    ("long", 199_999, "too long", Some(true)),
    ("long", 0, "too long", Some(true)),
    ("empty", 0, "bytes", Some(true)),
    ("link", u64::MAX, "bytes", Some(true)),
    ("none", 9, "absent", Some(false)),
    ("dangling", 9, "absent", Some(false)),
    (".", 9, "failed", Some(true)),
    ("long/er", 9, "failed", None),
];

#[test]
fn real_files_are_read_to_the_limit(rt: HostRuntime) -> Result<(), Fail> {
    let alloc = rt.alloc();
    let bytes = sample(alloc, 200_000)?;
    fs::write(&rt, "long", bytes.as_slice())?;
    fs::write(&rt, "empty", "")?;
    rt.symlink("long", "link")?;
    rt.symlink("none", "dangling")?;
    let mut files = DiskBox::new(rt.clone()?);
    assert_eq!(rt; first_wrong_fetch(alloc, &mut files, &REAL), None);
    assert!(rt; has_bytes(&files.fetch(alloc, "long", 200_000), &bytes));
    assert!(rt; has_bytes(&files.fetch(alloc, "empty", 9), b""));
    for name in ["long", "empty", "link", "dangling"] {
        fs::remove_file(&rt, name)?;
    }
    Ok(())
}

#[test]
fn real_files_are_stored(rt: HostRuntime) -> Result<(), Fail> {
    let alloc = rt.alloc();
    let bytes = sample(alloc, 200_000)?;
    let mut files = DiskBox::new(rt.clone()?);
    assert_eq!(rt; files.store("new", &bytes), Ok(()));
    assert!(rt; has_bytes(&files.fetch(alloc, "new", 200_000), &bytes));
    assert_eq!(rt; files.store("new", b"short"), Ok(()));
    assert_eq!(rt; fs::read(&rt, "new")?.as_slice(), b"short".as_slice());
    assert_eq!(rt; files.store("missing/new", &bytes), Err(Failed));
    assert_eq!(rt; files.store(".", &bytes), Err(Failed));
    fs::remove_file(&rt, "new")?;
    Ok(())
}

static FAULTY_READS: [(&str, u64, &str, Option<bool>); 5] = [
    ("interrupted", 9, "bytes", Some(true)),
    ("broken", 9, "failed", Some(true)),
    ("broken", 1, "too long", Some(true)),
    ("locked", 9, "failed", None),
    ("absent", 9, "absent", Some(false)),
];

static FAULTY_WRITES: [(&str, &[u8], bool); 5] = [
    ("interrupted", b"ab", true),
    ("interrupted", b"abc", false),
    ("broken", b"ab", true),
    ("broken", b"abc", false),
    ("locked", b"", false),
];

#[test]
fn a_disk_that_fails_in_mid_stream_is_told(rt: HostRuntime) {
    let mut files = DiskBox::new(FaultyFiles);
    assert_eq!(rt;
        first_wrong_fetch(rt.alloc(), &mut files, &FAULTY_READS),
        None
    );
    assert!(rt; has_bytes(&files.fetch(rt.alloc(), "interrupted", 9), b"xx"));
    assert_eq!(rt; first_wrong_store(&mut files, &FAULTY_WRITES), None);
}

// A piece, whether it is said, and what was said then, on a console with room for ten bytes.
static PIECES: [(&[u8], bool, &[u8]); 5] = [
    (b"first\n", true, b"first\n"),
    (b"later", false, b"first\n"),
    (b"more", true, b"first\nmore"),
    (b"", true, b"first\nmore"),
    (b"!", false, b"first\nmore"),
];

#[test]
fn a_console_in_memory_keeps_to_its_room(rt: HostRuntime) -> Result<(), Fail> {
    let mut console = MemConsole::new(rt.alloc(), 10)?;
    for (piece, said, text) in &PIECES {
        assert_eq!(rt; say(&mut console, piece), *said);
        assert_eq!(rt; console.text(), *text);
    }
    Ok(())
}

fn say<C: Console>(console: &mut C, piece: &[u8]) -> bool {
    console.say(piece).is_ok()
}

#[test]
fn the_standard_output_is_written_to(rt: HostRuntime) -> Result<(), Fail> {
    let mut console = OutConsole::new(rt.clone()?);
    assert!(rt; say(&mut console, b"said\n"));
    assert!(rt; say(&mut console, b""));
    Ok(())
}

#[test]
fn an_output_that_fails_in_mid_stream_is_not_written_again(rt: HostRuntime) {
    let script = [
        Turn::One,
        Turn::Interrupted,
        Turn::One,
        Turn::Broken,
        Turn::One,
    ];
    let mut console = OutConsole::new(FaultyOutput::new(script));
    assert!(rt; say(&mut console, b"ab"));
    // From a failure on no piece is said, though the stream would take it.
    for piece in [b"c".as_slice(), b"d", b""] {
        assert!(rt; !say(&mut console, piece));
    }
}
