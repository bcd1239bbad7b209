//! Files of a few pixels in both byte orders and at both depths, each fault, and every byte of the written form.

use byteorder::{BigEndian, ByteOrder, LittleEndian};
use dpx_file::*;
use std::alloc::{AllocError, Global};
use std::test::*;

// The header of one pixel of ten bits as runs of equal bytes.
static ONE_PIXEL: [(usize, u8); 65] = [
    (1, 0x53),
    (1, 0x44),
    (1, 0x50),
    (1, 0x58),
    (2, 0x00),
    (1, 0x08),
    (1, 0x00),
    (1, 0x56),
    (1, 0x31),
    (1, 0x2E),
    (1, 0x30),
    (6, 0x00),
    (1, 0x08),
    (1, 0x04),
    (3, 0x00),
    (1, 0x01),
    (2, 0x00),
    (1, 0x06),
    (1, 0x80),
    (2, 0x00),
    (1, 0x01),
    (1, 0x80),
    (628, 0x00),
    (4, 0xFF),
    (107, 0x00),
    (1, 0x01),
    (3, 0x00),
    (1, 0x01),
    (3, 0x00),
    (1, 0x01),
    (8, 0x00),
    (4, 0xFF),
    (2, 0x00),
    (1, 0x03),
    (5, 0xFF),
    (1, 0x32),
    (2, 0x00),
    (1, 0x0A),
    (1, 0x00),
    (1, 0x01),
    (4, 0x00),
    (1, 0x08),
    (41, 0x00),
    (40, 0xFF),
    (32, 0x00),
    (40, 0xFF),
    (32, 0x00),
    (40, 0xFF),
    (32, 0x00),
    (40, 0xFF),
    (32, 0x00),
    (40, 0xFF),
    (32, 0x00),
    (40, 0xFF),
    (32, 0x00),
    (40, 0xFF),
    (84, 0x00),
    (24, 0xFF),
    (188, 0x00),
    (16, 0xFF),
    (76, 0x00),
    (20, 0xFF),
    (188, 0x00),
    (52, 0xFF),
    (76, 0x00),
];

// The same for three pixels by two of sixteen bits.
static SIX_PIXELS: [(usize, u8); 62] = [
    (1, 0x53),
    (1, 0x44),
    (1, 0x50),
    (1, 0x58),
    (2, 0x00),
    (1, 0x08),
    (1, 0x00),
    (1, 0x56),
    (1, 0x31),
    (1, 0x2E),
    (1, 0x30),
    (6, 0x00),
    (1, 0x08),
    (1, 0x24),
    (3, 0x00),
    (1, 0x01),
    (2, 0x00),
    (1, 0x06),
    (1, 0x80),
    (2, 0x00),
    (1, 0x01),
    (1, 0x80),
    (628, 0x00),
    (4, 0xFF),
    (107, 0x00),
    (1, 0x01),
    (3, 0x00),
    (1, 0x03),
    (3, 0x00),
    (1, 0x02),
    (8, 0x00),
    (4, 0xFF),
    (2, 0x00),
    (6, 0xFF),
    (1, 0x32),
    (2, 0x00),
    (1, 0x10),
    (6, 0x00),
    (1, 0x08),
    (41, 0x00),
    (40, 0xFF),
    (32, 0x00),
    (40, 0xFF),
    (32, 0x00),
    (40, 0xFF),
    (32, 0x00),
    (40, 0xFF),
    (32, 0x00),
    (40, 0xFF),
    (32, 0x00),
    (40, 0xFF),
    (32, 0x00),
    (40, 0xFF),
    (84, 0x00),
    (24, 0xFF),
    (188, 0x00),
    (16, 0xFF),
    (76, 0x00),
    (20, 0xFF),
    (188, 0x00),
    (52, 0xFF),
    (76, 0x00),
];

fn push_run(bytes: &mut Vec<u8>, count: usize, byte: u8) -> Result<(), AllocError> {
    for _ in 0..count {
        bytes.push(byte)?;
    }
    Ok(())
}

// The bytes of the runs, and the pixels behind them.
fn file_of(alloc: Global, runs: &[(usize, u8)], pixels: &[u8]) -> Result<Vec<u8>, AllocError> {
    let mut bytes = Vec::new(alloc);
    for (count, byte) in runs {
        push_run(&mut bytes, *count, *byte)?;
    }
    bytes.extend_from_slice(pixels)?;
    Ok(bytes)
}

fn pixel_file(alloc: Global, pixels: &[u8]) -> Result<Vec<u8>, AllocError> {
    file_of(alloc, &ONE_PIXEL, pixels)
}

fn six_file(alloc: Global, pixels: &[u8]) -> Result<Vec<u8>, AllocError> {
    file_of(alloc, &SIX_PIXELS, pixels)
}

// Writes four bytes over others.
fn put<T: ByteOrder>(bytes: &mut [u8], at: usize, word: u32) {
    if at < bytes.len() && 4 <= bytes.len() - at {
        T::write_u32(&mut bytes[at..], word);
    }
}

// A file of one pixel, changed at two places.
fn changed(
    alloc: Global,
    first: (usize, u32),
    second: (usize, u32),
) -> Result<Vec<u8>, AllocError> {
    let mut bytes = pixel_file(alloc, &[0xFF, 0xC0, 0x08, 0x00])?;
    put::<BigEndian>(&mut bytes, first.0, first.1);
    put::<BigEndian>(&mut bytes, second.0, second.1);
    Ok(bytes)
}

// Whether a file reads as these codes.
fn has_codes(alloc: Global, bytes: &[u8], codes: &[u16]) -> bool {
    match read(alloc, bytes) {
        Ok(image) => image.codes() == codes,
        Err(_) => false,
    }
}

// Whether a file reads as an image that is written as these bytes.
fn is_written(alloc: Global, bytes: &[u8], written: &[u8]) -> bool {
    match read(alloc, bytes) {
        Ok(image) => match write(alloc, &image, image.depth()) {
            Ok(text) => text.as_slice() == written,
            Err(_) => false,
        },
        Err(_) => false,
    }
}

fn fault_of(alloc: Global, bytes: &[u8]) -> Option<ReadError> {
    read(alloc, bytes).err()
}

#[test]
fn a_pixel_is_read_and_written(rt: HostRuntime) -> Result<(), AllocError> {
    let bytes = pixel_file(rt.alloc(), &[0xFF, 0xC0, 0x08, 0x00])?;
    assert_eq!(rt; bytes.len(), 2052);
    assert!(rt; has_codes(rt.alloc(), &bytes, &[1023, 0, 512]));
    assert!(rt; is_written(rt.alloc(), &bytes, &bytes));
    Ok(())
}

// The codes of a line that is put into a canvas of one pixel, by the line and by the file.
fn put_pixel(alloc: Global) -> Option<(Canvas, [u16; 3])> {
    let mut canvas = Canvas::begin(alloc, 1, 1, 10).ok()?;
    canvas.put_line(0, &[512, 0, 256]);
    let mut line = [0u16; 3];
    canvas.line(0, &mut line);
    Some((canvas, line))
}

#[test]
fn a_pixel_is_put(rt: HostRuntime) -> Result<(), Fail> {
    let bytes = pixel_file(rt.alloc(), &[0x80, 0x00, 0x04, 0x00])?;
    let (canvas, line) = put_pixel(rt.alloc()).ok_or("memory")?;
    assert_eq!(rt; canvas.bytes(), bytes.as_slice());
    assert_eq!(rt; line, [512, 0, 256]);
    Ok(())
}

// A line of each code of ten bits, the same for red, green and blue: its pixels and its codes.
fn all_codes(alloc: Global) -> Result<(Vec<u8>, Vec<u16>), AllocError> {
    let mut pixels = Vec::new(alloc);
    let mut codes = Vec::new(alloc);
    for code in 0..1024u16 {
        let word = code as u32 * 0x0040_1004;
        pixels.extend_from_slice(&word.to_be_bytes())?;
        codes.extend_from_slice(&[code, code, code])?;
    }
    Ok((pixels, codes))
}

#[test]
fn each_code_returns(rt: HostRuntime) -> Result<(), AllocError> {
    let (pixels, codes) = all_codes(rt.alloc())?;
    let mut bytes = pixel_file(rt.alloc(), &pixels)?;
    put::<BigEndian>(&mut bytes, 772, 1024);
    put::<BigEndian>(&mut bytes, 16, 2048 + 4096);
    assert!(rt; has_codes(rt.alloc(), &bytes, &codes));
    assert!(rt; is_written(rt.alloc(), &bytes, &bytes));
    Ok(())
}

static SIX_LITTLE: [u8; 38] = [
    0, 0, 1, 0, 2, 0, 0, 1, 0xFF, 0xFF, 0x34, 0x12, 7, 0, 8, 0, 9, 0, 0xAA, 0xBB, 1, 0, 1, 0, 1, 0,
    1, 0, 1, 0, 1, 0, 1, 0, 1, 0, 1, 0,
];

static SIX_CODES: [u16; 18] = [
    0, 1, 2, 0x100, 0xFFFF, 0x1234, 7, 8, 9, 1, 1, 1, 1, 1, 1, 1, 1, 1,
];

static SIX_BIG: [u8; 36] = [
    0, 0, 0, 1, 0, 2, 1, 0, 0xFF, 0xFF, 0x12, 0x34, 0, 7, 0, 8, 0, 9, 0, 1, 0, 1, 0, 1, 0, 1, 0, 1,
    0, 1, 0, 1, 0, 1, 0, 1,
];

// Sixteen bits, least significant byte first, with two bytes of padding between the lines and none behind the last.
fn little_file(alloc: Global) -> Result<Vec<u8>, AllocError> {
    let mut bytes = Vec::new(alloc);
    push_run(&mut bytes, 2048, 0)?;
    bytes.extend_from_slice(&SIX_LITTLE)?;
    put::<LittleEndian>(&mut bytes, 0, 0x5344_5058);
    put::<LittleEndian>(&mut bytes, 768, 0x0001_0000);
    put::<LittleEndian>(&mut bytes, 772, 3);
    put::<LittleEndian>(&mut bytes, 776, 2);
    put::<LittleEndian>(&mut bytes, 800, 0x1000_0032);
    put::<LittleEndian>(&mut bytes, 808, 2048);
    put::<LittleEndian>(&mut bytes, 812, 2);
    Ok(bytes)
}

#[test]
fn sixteen_bits_are_read_and_written(rt: HostRuntime) -> Result<(), AllocError> {
    let bytes = little_file(rt.alloc())?;
    let written = six_file(rt.alloc(), &SIX_BIG)?;
    assert_eq!(rt; written.len(), 2084);
    assert!(rt; has_codes(rt.alloc(), &bytes, &SIX_CODES));
    assert!(rt; is_written(rt.alloc(), &bytes, &written));
    Ok(())
}

// Two lines of two pixels of ten bits by method B, with a word of padding behind the first line.
static PADDED_WORDS: [u32; 5] = [
    0x0010_0803,
    0x3FF0_0200,
    0xAAAA_AAAA,
    0x0040_1406,
    0x007F_A009,
];

static PADDED_CODES: [u16; 12] = [1, 2, 3, 1023, 0, 512, 4, 5, 6, 7, 1000, 9];

// The same codes by method A, most significant byte first.
static PADDED_WRITTEN: [u8; 16] = [
    0x00, 0x40, 0x20, 0x0C, 0xFF, 0xC0, 0x08, 0x00, 0x01, 0x00, 0x50, 0x18, 0x01, 0xFE, 0x80, 0x24,
];

// The file of these words, with the words in which bytes 768, 800 and 804 lie in this byte order.
fn padded_file<T: ByteOrder>(alloc: Global, parts: [u32; 3]) -> Result<Vec<u8>, AllocError> {
    let mut bytes = Vec::new(alloc);
    push_run(&mut bytes, 2068, 0)?;
    let fields = [
        (0, 0x5344_5058),
        (768, parts[0]),
        (772, 2),
        (776, 2),
        (800, parts[1]),
        (804, parts[2]),
        (808, 2048),
        (812, 4),
    ];
    for (at, word) in &fields {
        put::<T>(&mut bytes, *at, *word);
    }
    for (k, word) in PADDED_WORDS.iter().enumerate() {
        put::<T>(&mut bytes, 2048 + 4 * k, *word);
    }
    Ok(bytes)
}

#[test]
fn padded_lines_are_read_in_both_orders(rt: HostRuntime) -> Result<(), AllocError> {
    let alloc = rt.alloc();
    let mut written = pixel_file(alloc, &PADDED_WRITTEN)?;
    put::<BigEndian>(&mut written, 772, 2);
    put::<BigEndian>(&mut written, 776, 2);
    put::<BigEndian>(&mut written, 16, 2064);
    let big = padded_file::<BigEndian>(alloc, [1, 0x3200_000A, 0x0002_0000])?;
    let little = padded_file::<LittleEndian>(alloc, [0x0001_0000, 0x0A00_0032, 2])?;
    for bytes in [big.as_slice(), little.as_slice()] {
        assert!(rt; has_codes(alloc, bytes, &PADDED_CODES));
        assert!(rt; is_written(alloc, bytes, &written));
    }
    Ok(())
}

// A change of the file of one pixel, by words of four bytes, and the codes that it then reads as.
static READ: [((usize, u32), (usize, u32), [u16; 3]); 8] = [
    ((804, 0x0002_0000), (2048, 0xFFF0_0200), [1023, 0, 512]),
    ((804, 0x0001_0000), (2048, 0xFFC0_0803), [1023, 0, 512]),
    ((808, 0), (4, 2048), [1023, 0, 512]),
    ((808, 0xFFFF_FFFF), (4, 2048), [1023, 0, 512]),
    ((808, 10), (4, 0), [184, 768, 0]),
    ((812, 0xFFFF_FFFE), (660, 0), [1023, 0, 512]),
    ((780, 0xFFFF_FFFF), (768, 0xFFFF_0001), [1023, 0, 512]),
    ((804, 0x0001_FFFF), (812, 0xFFFF_FFFF), [1023, 0, 512]),
];

#[test]
fn words_are_read(rt: HostRuntime) -> Result<(), AllocError> {
    for (first, second, codes) in &READ {
        let bytes = changed(rt.alloc(), *first, *second)?;
        assert!(rt;
            has_codes(rt.alloc(), &bytes, codes),
            "{}: {:x}",
            first.0,
            first.1
        );
    }
    Ok(())
}

// A change of the file of one pixel, by words of four bytes, and the fault.
static REFUSED: [((usize, u32), (usize, u32), DpxFault); 17] = [
    ((0, 0x5344_5059), (660, 5), DpxFault::NotDpx),
    ((660, 5), (804, 0x0001_0001), DpxFault::Encrypted),
    ((768, 0x0001_0002), (772, 0), DpxFault::Orientation(1)),
    ((768, 0x0000_0002), (772, 0), DpxFault::Elements(2)),
    (
        (772, 16385),
        (780, 1),
        DpxFault::Size {
            width: 16385,
            height: 1,
        },
    ),
    (
        (772, 0),
        (780, 1),
        DpxFault::Size {
            width: 0,
            height: 1,
        },
    ),
    (
        (776, 0),
        (780, 1),
        DpxFault::Size {
            width: 1,
            height: 0,
        },
    ),
    (
        (772, 16384),
        (776, 4097),
        DpxFault::Size {
            width: 16384,
            height: 4097,
        },
    ),
    ((780, 1), (800, 0x3300_000A), DpxFault::Sign(1)),
    ((800, 0x3300_0008), (804, 0), DpxFault::Descriptor(51)),
    ((800, 0x3200_0008), (804, 0), DpxFault::Depth(8)),
    ((804, 0x0000_0001), (808, 3000), DpxFault::Packing(0)),
    ((804, 0x0003_0000), (808, 3000), DpxFault::Packing(3)),
    ((804, 0x0001_0001), (808, 3000), DpxFault::Compressed(1)),
    (
        (808, 0xFFFF_FFFE),
        (4, 2048),
        DpxFault::Truncated {
            need: 4_294_967_298,
            have: 2052,
        },
    ),
    (
        (812, 0xFFFF_FFFE),
        (776, 2),
        DpxFault::Truncated {
            need: 4_294_969_350,
            have: 2052,
        },
    ),
    (
        (800, 0x3200_0010),
        (804, 0),
        DpxFault::Truncated {
            need: 2054,
            have: 2052,
        },
    ),
];

#[test]
fn faults_are_told_in_order(rt: HostRuntime) -> Result<(), AllocError> {
    for (first, second, fault) in &REFUSED {
        let bytes = changed(rt.alloc(), *first, *second)?;
        assert_eq!(rt; fault_of(rt.alloc(), &bytes), Some(ReadError::Dpx(*fault)));
    }
    Ok(())
}

// How many bytes of the file of one pixel are left, and the fault.
static CUT: [(usize, DpxFault); 8] = [
    (0, DpxFault::NotDpx),
    (3, DpxFault::NotDpx),
    (
        4,
        DpxFault::Truncated {
            need: 2048,
            have: 4,
        },
    ),
    (
        772,
        DpxFault::Truncated {
            need: 2048,
            have: 772,
        },
    ),
    (
        803,
        DpxFault::Truncated {
            need: 2048,
            have: 803,
        },
    ),
    (
        2047,
        DpxFault::Truncated {
            need: 2048,
            have: 2047,
        },
    ),
    (
        2048,
        DpxFault::Truncated {
            need: 2052,
            have: 2048,
        },
    ),
    (
        2051,
        DpxFault::Truncated {
            need: 2052,
            have: 2051,
        },
    ),
];

#[test]
fn a_cut_file_is_refused(rt: HostRuntime) -> Result<(), AllocError> {
    let bytes = pixel_file(rt.alloc(), &[0xFF, 0xC0, 0x08, 0x00])?;
    for (count, fault) in &CUT {
        let left = bytes.get(..*count).unwrap_or(&[]);
        assert_eq!(rt; fault_of(rt.alloc(), left), Some(ReadError::Dpx(*fault)));
    }
    Ok(())
}

// Each fault, and its text.
static TEXTS: [(DpxFault, &str); 11] = [
    (DpxFault::NotDpx, "no magic number of DPX"),
    (
        DpxFault::Truncated {
            need: 2052,
            have: 2051,
        },
        "2051 bytes where 2052 are needed",
    ),
    (DpxFault::Encrypted, "encrypted"),
    (DpxFault::Orientation(3), "image orientation 3"),
    (DpxFault::Elements(2), "2 image elements"),
    (
        DpxFault::Size {
            width: 16385,
            height: 1,
        },
        "16385 pixels per line, 1 lines",
    ),
    (DpxFault::Sign(1), "data sign 1"),
    (DpxFault::Descriptor(51), "descriptor 51"),
    (DpxFault::Depth(8), "8 bits"),
    (DpxFault::Packing(3), "packing 3"),
    (DpxFault::Compressed(1), "encoding 1"),
];

#[test]
fn a_fault_is_told_in_words(rt: HostRuntime) -> Result<(), AllocError> {
    for (fault, text) in &TEXTS {
        assert_eq!(rt; fault.to_string(rt.alloc())?.as_str(), *text);
    }
    Ok(())
}
