//! Images, files and words for the cases, and one comparison of all that the command does.

use ctl_base::{Counter64, Memory, Steps, TextArg};
use dpx_file::DpxFault;
use outside::{MemBox, MemConsole};
use render_command::{ImageFault, Status, render};
use std::alloc::Global;

/// The words of the first command.
pub const WORDS: [&str; 4] = ["-ctl", "half.ctl", "in.dpx", "out.dpx"];

/// Each channel by a half.
pub const HALF: &str =
    "void main(input varying float rIn, input varying float gIn, input varying float bIn, output varying float rOut, output varying float gOut, output varying float bOut) { rOut = rIn * 0.5; gOut = gIn * 0.5; bOut = bIn * 0.5; }\n";

/// Each channel as it is.
pub const SAME: &str =
    "void main(input varying float rIn, input varying float gIn, input varying float bIn, output varying float rOut, output varying float gOut, output varying float bOut) { rOut = rIn * 1.0; gOut = gIn * 1.0; bOut = bIn * 1.0; }\n";

/// The pixel of ten bits with the codes 1023, 0 and 512.
pub const PIXEL: u32 = 0xFFC0_0800;

/// The pixel of ten bits with the codes 512, 0 and 256.
pub const HALF_PIXEL: u32 = 0x8000_0400;

/// A name, and the bytes that it holds.
pub type Held<'a> = (&'a str, &'a [u8]);

/// What the command is run on.
#[derive(Clone, Copy)]
pub struct Setting<'a> {
    /// What is held at the start.
    pub held: &'a [Held<'a>],
    pub words: &'a [&'a str],
    /// The number of the call of the files that fails, counted from 1.
    pub failing: Option<u32>,
    /// How many bytes a store that fails leaves.
    pub torn: u32,
    /// For how many bytes the destination has room.
    pub room: u64,
    /// For how many bytes the console has room.
    pub hears: u32,
}

/// These files and words, where no call fails and there is ample room.
pub fn given<'a>(held: &'a [Held<'a>], words: &'a [&'a str]) -> Setting<'a> {
    Setting {
        held,
        words,
        failing: None,
        torn: 0,
        room: 1 << 24,
        hears: 1 << 16,
    }
}

/// What the console hears.
#[derive(Clone, Copy)]
pub enum Said<'a> {
    /// The name of the command, this, and the end of the line.
    Line(&'a str),
    /// Just these bytes.
    Bytes(&'a [u8]),
}

/// What the command does.
#[derive(Clone, Copy)]
pub struct Wanted<'a> {
    /// The number that the program ends with.
    pub code: u8,
    /// The fault of the source, where it breaks a rule of the format.
    pub fault: Option<DpxFault>,
    /// All that the console hears.
    pub said: Said<'a>,
    /// How many calls of the files were made so far.
    pub calls: u32,
    /// What the destination holds in the end.
    pub stored: Option<&'a [u8]>,
}

/// All that is asked, with nothing said.
pub fn done<'a>(stored: &'a [u8]) -> Wanted<'a> {
    Wanted {
        code: 0,
        fault: None,
        said: Said::Bytes(b""),
        calls: 4,
        stored: Some(stored),
    }
}

/// An end with this number, line and count of calls, and nothing stored.
pub fn refused<'a>(code: u8, line: &'a str, calls: u32) -> Wanted<'a> {
    Wanted {
        code,
        fault: None,
        said: Said::Line(line),
        calls,
        stored: None,
    }
}

/// Whether the command does just what is wanted, and what is held at the start stays.
pub fn ends(alloc: Global, setting: &Setting<'_>, wanted: &Wanted<'_>) -> Result<bool, Memory> {
    let mut files = files(alloc, setting)?;
    ends_over(alloc, &mut files, setting, wanted)
}

/// The same over a box that is there already.
pub fn ends_over(
    alloc: Global,
    files: &mut MemBox,
    setting: &Setting<'_>,
    wanted: &Wanted<'_>,
) -> Result<bool, Memory> {
    let mut console = MemConsole::new(alloc, setting.hears)?;
    let status = run(alloc, setting.words, files, &mut console)?;
    let is_told = status.code() == wanted.code
        && fault_of(&status) == wanted.fault
        && is_said(wanted.said, console.text());
    Ok(is_told && is_left(files, setting.held, wanted))
}

fn is_said(said: Said<'_>, heard: &[u8]) -> bool {
    match said {
        Said::Bytes(bytes) => heard == bytes,
        Said::Line(line) => match heard.strip_prefix(b"ctlrender: ".as_slice()) {
            Some(rest) => rest.strip_suffix(b"\n".as_slice()) == Some(line.as_bytes()),
            None => false,
        },
    }
}

// Whether the files were called as often as is wanted, hold what is wanted, and what was held stays.
fn is_left(files: &MemBox, held: &[Held<'_>], wanted: &Wanted<'_>) -> bool {
    for (name, bytes) in held.iter().copied() {
        if files.held(name) != Some(bytes) {
            return false;
        }
    }
    files.calls() == wanted.calls && files.held("out.dpx") == wanted.stored
}

fn fault_of(status: &Status) -> Option<DpxFault> {
    match status {
        Status::Image {
            fault: ImageFault::Dpx(fault),
        } => Some(*fault),
        _ => None,
    }
}

fn run(
    alloc: Global,
    words: &[&str],
    files: &mut MemBox,
    console: &mut MemConsole,
) -> Result<Status, Memory> {
    let words = texts(alloc, words)?;
    if words.len() > 100 {
        return Err(Memory);
    }
    let mut steps = Steps::new(Counter64::new());
    Ok(render(alloc, &words, ".", files, console, &mut steps))
}

fn texts(alloc: Global, words: &[&str]) -> Result<Vec<TextArg>, Memory> {
    let mut texts = Vec::new(alloc);
    for word in words {
        texts.push(TextArg::new(alloc, word)?)?;
    }
    Ok(texts)
}

/// A box that holds what is given, and has room for the destination.
pub fn files(alloc: Global, setting: &Setting<'_>) -> Result<MemBox, Memory> {
    let mut failing = Vec::new(alloc);
    if let Some(call) = setting.failing {
        failing.push(call)?;
    }
    let mut files = MemBox::new(failing, setting.torn);
    for (name, bytes) in setting.held.iter().copied() {
        files.put(name, bytes)?;
    }
    files.room("out.dpx", setting.room)?;
    Ok(files)
}

/// Whether the command stores this for the source by the text.
pub fn stores(alloc: Global, text: &[u8], source: &[u8], stored: &[u8]) -> Result<bool, Memory> {
    let held = [("half.ctl", text), ("in.dpx", source)];
    ends(alloc, &given(&held, &WORDS), &done(stored))
}

/// Whether it stores this pixel of ten bits.
pub fn stores_pixel(alloc: Global, text: &[u8], source: &[u8], pixel: u32) -> Result<bool, Memory> {
    let stored = dpx(alloc, 1, 1, &[pixel])?;
    stores(alloc, text, source, &stored)
}

/// A word of 32 bits, and how often it stands.
type Run = (u32, u32);

/// The letters SDPX as a number.
const MAGIC: u32 = 0x5344_5058;

/// The letters V1.0 as a number.
const VERSION: u32 = 0x5631_2E30;

/// No value.
const NONE: u32 = u32::MAX;

/// What stands behind the fields of the one element: seven elements that are not there, and of the image orientation,
/// film and television no value.
static REST: [Run; 23] = [
    // the description of the one element
    (0, 8),
    (NONE, 10),
    (0, 8),
    (NONE, 10),
    (0, 8),
    (NONE, 10),
    (0, 8),
    (NONE, 10),
    (0, 8),
    (NONE, 10),
    (0, 8),
    (NONE, 10),
    (0, 8),
    (NONE, 10),
    (0, 21),
    (NONE, 6),
    (0, 47),
    (NONE, 4),
    (0, 19),
    (NONE, 5),
    (0, 47),
    (NONE, 13),
    (0, 19),
];

/// A file of ten bits by method A, from the table of the fields of SMPTE 268M: big numbers, no padding.
pub fn dpx(alloc: Global, width: u32, height: u32, pixels: &[u32]) -> Result<Vec<u8>, Memory> {
    let mut bytes = Vec::new(alloc);
    for pixel in pixels {
        bytes.extend_from_slice(&pixel.to_be_bytes())?;
    }
    dpx_of(alloc, width, height, 10, &bytes)
}

/// A file of so many bits a code, with these bytes of pixels: big numbers, no padding.
pub fn dpx_of(
    alloc: Global,
    width: u32,
    height: u32,
    depth: u8,
    pixels: &[u8],
) -> Result<Vec<u8>, Memory> {
    let length = u32::try_from(pixels.len()).unwrap_or(0).wrapping_add(2048);
    let (high, packing) = if depth == 10 {
        (1023, 0x1_0000)
    } else {
        (65_535, 0)
    };
    let file_information = [
        (MAGIC, 1),
        (2048, 1),
        (VERSION, 1),
        (0, 1),
        (length, 1),
        (1, 1),
        (1664, 1),
        (384, 1),
        (0, 157),
        (NONE, 1),
        (0, 26),
    ];
    // one element, its size, unsigned codes from the least to the highest
    let size = [
        (1, 1),
        (width, 1),
        (height, 1),
        (0, 2),
        (NONE, 1),
        (high, 1),
        (NONE, 1),
    ];
    // red, green and blue, method A or one code in two bytes, no encoding, the place of the pixels, no padding
    let element = [
        (0x3200_0000 | u32::from(depth), 1),
        (packing, 1),
        (2048, 1),
        (0, 2),
    ];
    let mut file = Vec::new(alloc);
    put_words(
        &mut file,
        true,
        &[&file_information, &size, &element, &REST],
    )?;
    file.extend_from_slice(pixels)?;
    Ok(file)
}

/// A file of little numbers with no field but those that are read, and with these bytes of lines and their padding.
pub fn little(
    alloc: Global,
    width: u32,
    height: u32,
    depth: u8,
    padding: u32,
    lines: &[u8],
) -> Result<Vec<u8>, Memory> {
    let packing = if depth == 10 { 1 } else { 0 };
    let file_information = [(MAGIC, 1), (0, 164), (NONE, 1), (0, 26)];
    // one element, its size, and unsigned codes
    let size = [(0x1_0000, 1), (width, 1), (height, 1), (0, 5)];
    // red, green and blue, method A or one code in two bytes, no encoding, the place of the pixels and the padding
    let element = [
        (50 | u32::from(depth) << 24, 1),
        (packing, 1),
        (2048, 1),
        (padding, 1),
        (0, 308),
    ];
    let mut file = Vec::new(alloc);
    put_words(&mut file, false, &[&file_information, &size, &element])?;
    file.extend_from_slice(lines)?;
    Ok(file)
}

// Puts the words of each part behind the file, as big or as little numbers.
fn put_words(file: &mut Vec<u8>, is_big: bool, parts: &[&[Run]]) -> Result<(), Memory> {
    for part in parts.iter().copied() {
        for (word, count) in part.iter().copied() {
            put_run(
                file,
                if is_big {
                    word.to_be_bytes()
                } else {
                    word.to_le_bytes()
                },
                count,
            )?;
        }
    }
    Ok(())
}

fn put_run(file: &mut Vec<u8>, word: [u8; 4], count: u32) -> Result<(), Memory> {
    for _ in 0..count {
        file.extend_from_slice(&word)?;
    }
    Ok(())
}
