//! Files that fail at each call in turn, stores that are torn, and too little room.

use crate::fixture::{
    HALF, HALF_PIXEL, Held, PIXEL, Said, Setting, WORDS, Wanted, dpx, ends, given, refused,
};
use ctl_base::Memory;
use std::alloc::Global;

/// How the files fail, and what comes of it.
#[derive(Clone, Copy)]
struct Failing<'a> {
    /// The number of the call that fails.
    failing: Option<u32>,
    torn: u32,
    room: u64,
    code: u8,
    said: Said<'a>,
    calls: u32,
    /// How many bytes the destination holds in the end, if it is there.
    left: Option<usize>,
}

// Whether that comes of it where half of a pixel is stored.
fn is_told(alloc: Global, case: &Failing<'_>) -> Result<bool, Memory> {
    let source = dpx(alloc, 1, 1, &[PIXEL])?;
    let stored = dpx(alloc, 1, 1, &[HALF_PIXEL])?;
    let left = match case.left {
        Some(left) => stored.get(..left),
        None => None,
    };
    is_left(alloc, case, &source, left)
}

fn is_left(
    alloc: Global,
    case: &Failing<'_>,
    source: &[u8],
    left: Option<&[u8]>,
) -> Result<bool, Memory> {
    let held = [("half.ctl", HALF.as_bytes()), ("in.dpx", source)];
    let wanted = Wanted {
        said: case.said,
        stored: left,
        ..refused(case.code, "", case.calls)
    };
    ends(alloc, &given_to(case, &held), &wanted)
}

fn given_to<'a>(case: &Failing<'_>, held: &'a [Held<'a>]) -> Setting<'a> {
    Setting {
        failing: case.failing,
        torn: case.torn,
        room: case.room,
        ..given(held, &WORDS)
    }
}

/// The call that fails, the number that the program ends with, and the line that is said.
static CALLS: [(u32, u8, &str); 4] = [
    (1, 10, "read fault on out.dpx"),
    (2, 10, "read fault on half.ctl"),
    (3, 10, "read fault on in.dpx"),
    (4, 11, "write fault"),
];

#[test]
fn each_call_that_fails_is_told_by_its_name(rt: HostRuntime) -> Result<(), Memory> {
    for torn in [0u32, 1, 100, 2051, 2052] {
        for (call, code, line) in CALLS.iter().copied() {
            let case = Failing {
                failing: Some(call),
                torn,
                room: 1 << 24,
                code,
                said: Said::Line(line),
                calls: call,
                left: if call == 4 { Some(torn as usize) } else { None },
            };
            assert!(rt; is_told(rt.alloc(), &case)?, "call {call}, torn at {torn}");
        }
    }
    Ok(())
}

/// The room, the number that the program ends with, what is said, and how many bytes are stored.
static ROOMS: [(u64, u8, Said, Option<usize>); 2] = [
    (2051, 11, Said::Line("write fault"), None),
    (2052, 0, Said::Bytes(b""), Some(2052)),
];

#[test]
fn too_little_room_is_a_write_fault(rt: HostRuntime) -> Result<(), Memory> {
    for (room, code, said, left) in ROOMS.iter().copied() {
        let case = Failing {
            failing: None,
            torn: 0,
            room,
            code,
            said,
            calls: 4,
            left,
        };
        assert!(rt; is_told(rt.alloc(), &case)?, "room {room}");
    }
    Ok(())
}
