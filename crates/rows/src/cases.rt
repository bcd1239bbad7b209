//! The command that does all it is asked, and each way in which it refuses.

use crate::fixture::{
    HALF, HALF_PIXEL, PIXEL, SAME, Said, Setting, WORDS, Wanted, done, dpx, ends, ends_over, files,
    given, refused, stores,
};
use ctl_base::Memory;
use std::alloc::Global;

#[test]
fn half_of_a_pixel_is_stored_byte_by_byte(rt: HostRuntime) -> Result<(), Memory> {
    let source = dpx(rt.alloc(), 1, 1, &[PIXEL])?;
    let stored = dpx(rt.alloc(), 1, 1, &[HALF_PIXEL])?;
    // 2052 bytes in all, the last four these
    assert!(rt; stored.get(2048..) == Some([0x80, 0, 4, 0].as_slice()));
    assert!(rt; stores(rt.alloc(), HALF.as_bytes(), &source, &stored)?);
    Ok(())
}

#[test]
fn every_code_of_ten_bits_returns(rt: HostRuntime) -> Result<(), Memory> {
    let source = every_code(rt.alloc())?;
    assert!(rt; stores(rt.alloc(), SAME.as_bytes(), &source, &source)?);
    Ok(())
}

// A line of 1024 pixels, each with one code in all its channels.
fn every_code(alloc: Global) -> Result<Vec<u8>, Memory> {
    let mut pixels = Vec::new(alloc);
    for code in 0..1024u32 {
        pixels.push((code << 22) | (code << 12) | (code << 2))?;
    }
    dpx(alloc, 1024, 1, &pixels)
}

#[test]
fn a_held_destination_is_left(rt: HostRuntime) -> Result<(), Memory> {
    let source = dpx(rt.alloc(), 1, 1, &[PIXEL])?;
    let held = [
        ("half.ctl", HALF.as_bytes()),
        ("in.dpx", source.as_slice()),
        ("out.dpx", b"old".as_slice()),
    ];
    let mut wanted = refused(3, "out.dpx exists", 1);
    wanted.stored = Some(b"old");
    assert!(rt; ends(rt.alloc(), &given(&held, &WORDS), &wanted)?);
    Ok(())
}

/// Words, the number that the program ends with, the line that is said and how many calls were made so far.
type Refused = (&'static [&'static str], u8, &'static str, u32);

/// Words that are refused over the text and the source of the first command.
static REFUSED: [Refused; 9] = [
    // words of another form ask for no file
    (&[], 13, "not built yet", 0),
    (&["-ctl"], 13, "not built yet", 0),
    (&["-ctl", "half.ctl", "in.dpx"], 13, "not built yet", 0),
    (
        &["-ctl", "half.ctl", "in.dpx", "out.dpx", "more"],
        13,
        "not built yet",
        0,
    ),
    (
        &["-ctl", "half.ctl", "-force", "out.dpx"],
        13,
        "not built yet",
        0,
    ),
    (
        &["-ctl", "half.ctl", "in.dpx", "-force"],
        13,
        "not built yet",
        0,
    ),
    (
        &["in.dpx", "out.dpx", "-ctl", "half.ctl"],
        13,
        "not built yet",
        0,
    ),
    (
        &["ctl", "half.ctl", "in.dpx", "out.dpx"],
        13,
        "not built yet",
        0,
    ),
    // the source is no destination
    (
        &["-ctl", "half.ctl", "in.dpx", "in.dpx"],
        3,
        "in.dpx exists",
        1,
    ),
];

#[test]
fn words_are_refused(rt: HostRuntime) -> Result<(), Memory> {
    let source = dpx(rt.alloc(), 1, 1, &[PIXEL])?;
    let held = [("half.ctl", HALF.as_bytes()), ("in.dpx", source.as_slice())];
    for (case, (words, code, said, calls)) in REFUSED.iter().copied().enumerate() {
        let wanted = refused(code, said, calls);
        assert!(rt;
            ends(rt.alloc(), &given(&held, words), &wanted)?,
            "case {case}"
        );
    }
    Ok(())
}

/// Words that name what is absent, one after the other over the same box. A name need not be ASCII.
static ABSENT: [Refused; 3] = [
    (
        &["-ctl", "other.ctl", "in.dpx", "out.dpx"],
        4,
        "other.ctl not found",
        2,
    ),
    (
        &["-ctl", "half.ctl", "other.dpx", "out.dpx"],
        8,
        "image: Absent",
        5,
    ),
    (&OTHER_NAME, 4, "hälfte.ctl not found", 7),
];

const OTHER_NAME: [&str; 4] = ["-ctl", "hälfte.ctl", "in.dpx", "out.dpx"];

#[test]
fn what_is_absent_is_told_until_it_is_there(rt: HostRuntime) -> Result<(), Memory> {
    let source = dpx(rt.alloc(), 1, 1, &[PIXEL])?;
    let stored = dpx(rt.alloc(), 1, 1, &[HALF_PIXEL])?;
    assert_eq!(rt; told_until_there(rt.alloc(), &source, &stored)?, 4);
    Ok(())
}

// How many of the commands end as is wanted, up to the first that does not: those of the table, and one more when the
// file of the last is there.
fn told_until_there(alloc: Global, source: &[u8], stored: &[u8]) -> Result<usize, Memory> {
    let held = [("half.ctl", HALF.as_bytes()), ("in.dpx", source)];
    let mut files = files(alloc, &given(&held, &WORDS))?;
    for (case, (words, code, said, calls)) in ABSENT.iter().copied().enumerate() {
        let wanted = refused(code, said, calls);
        if !ends_over(alloc, &mut files, &given(&held, words), &wanted)? {
            return Ok(case);
        }
    }
    files.put("hälfte.ctl", HALF.as_bytes())?;
    let mut wanted = done(stored);
    wanted.calls = 11;
    let is_there = ends_over(alloc, &mut files, &given(&held, &OTHER_NAME), &wanted)?;
    Ok(if is_there { 4 } else { 3 })
}

/// What is said where the console has room for so many bytes, as whole pieces that fit.
static ROOMS: [(u32, &[u8]); 6] = [
    (0, b""),
    (10, b""),
    (11, b"ctlrender: "),
    // The name does not fit, and what follows it would.
    (19, b"ctlrender: "),
    (26, b"ctlrender: destination.dpx"),
    (34, b"ctlrender: destination.dpx exists\n"),
];

#[test]
fn a_console_without_room_hears_a_beginning(rt: HostRuntime) -> Result<(), Memory> {
    let held = [
        ("half.ctl", HALF.as_bytes()),
        ("in.dpx", b"".as_slice()),
        ("destination.dpx", b"old".as_slice()),
    ];
    let words = ["-ctl", "half.ctl", "in.dpx", "destination.dpx"];
    for (hears, said) in ROOMS.iter().copied() {
        let setting = Setting {
            hears,
            ..given(&held, &words)
        };
        let wanted = Wanted {
            said: Said::Bytes(said),
            ..refused(3, "", 1)
        };
        assert!(rt; ends(rt.alloc(), &setting, &wanted)?, "room {hears}");
    }
    Ok(())
}
