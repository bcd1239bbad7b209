//! Sources that keep the rules of the format, and sources that break each.

use crate::fixture::{
    HALF, HALF_PIXEL, PIXEL, SAME, WORDS, Wanted, dpx, dpx_of, ends, given, little, refused,
    stores, stores_pixel,
};
use crate::tables::{HALVES, PIXELS};
use ctl_base::Memory;
use dpx_file::DpxFault;
use std::alloc::Global;

#[test]
fn each_line_is_rendered_in_its_place(rt: HostRuntime) -> Result<(), Memory> {
    let source = dpx(rt.alloc(), 2, 3, &PIXELS)?;
    let stored = dpx(rt.alloc(), 2, 3, &HALVES)?;
    assert!(rt; stores(rt.alloc(), HALF.as_bytes(), &source, &stored)?);
    Ok(())
}

/// Two lines of three pixels of sixteen bits with little numbers, and two bytes behind the first.
static LITTLE_LINES: [u8; 38] = [
    0x00, 0x00, 0x01, 0x00, 0x02, 0x00, 0x00, 0x01, 0xFF, 0xFF, 0x34, 0x12, 0x07, 0x00, 0x08, 0x00,
    0x09, 0x00, 0xAA, 0xBB, 0x01, 0x00, 0x01, 0x00, 0x01, 0x00, 0x01, 0x00, 0x01, 0x00, 0x01, 0x00,
    0x01, 0x00, 0x01, 0x00, 0x01, 0x00,
];

/// The same with big numbers and nothing behind.
static BIG_LINES: [u8; 36] = [
    0x00, 0x00, 0x00, 0x01, 0x00, 0x02, 0x01, 0x00, 0xFF, 0xFF, 0x12, 0x34, 0x00, 0x07, 0x00, 0x08,
    0x00, 0x09, 0x00, 0x01, 0x00, 0x01, 0x00, 0x01, 0x00, 0x01, 0x00, 0x01, 0x00, 0x01, 0x00, 0x01,
    0x00, 0x01, 0x00, 0x01,
];

#[test]
fn sixteen_bits_of_little_numbers_are_stored_big(rt: HostRuntime) -> Result<(), Memory> {
    let source = little(rt.alloc(), 3, 2, 16, 2, &LITTLE_LINES)?;
    let stored = dpx_of(rt.alloc(), 3, 2, 16, &BIG_LINES)?;
    assert!(rt; stored.len() == 2084);
    // What is stored keeps the rules, and is stored as it is.
    for (case, file) in [&source, &stored].into_iter().enumerate() {
        assert!(rt;
            stores(rt.alloc(), SAME.as_bytes(), file, &stored)?,
            "case {case}"
        );
    }
    Ok(())
}

/// Two lines of a pixel of ten bits with little numbers, and a byte behind the first.
static LITTLE_WORDS: [u8; 9] = [0, 8, 0xC0, 0xFF, 7, 0, 8, 0xC0, 0xFF];

#[test]
fn ten_bits_of_little_numbers_are_stored_big(rt: HostRuntime) -> Result<(), Memory> {
    let source = little(rt.alloc(), 1, 2, 10, 1, &LITTLE_WORDS)?;
    let stored = dpx(rt.alloc(), 1, 2, &[HALF_PIXEL, HALF_PIXEL])?;
    assert!(rt; stores(rt.alloc(), HALF.as_bytes(), &source, &stored)?);
    Ok(())
}

/// A change of the source of one pixel: from where on which bytes.
type Change = (usize, &'static [u8]);

/// The source of one pixel with the changes, cut to a length.
fn changed(alloc: Global, changes: &[Change], length: usize) -> Result<Vec<u8>, Memory> {
    let whole = dpx(alloc, 1, 1, &[PIXEL])?;
    let mut source = Vec::new(alloc);
    for (place, byte) in whole.iter().take(length).enumerate() {
        source.push(byte_at(changes, place, *byte))?;
    }
    Ok(source)
}

/// The byte at a place: that of the last change there, if there is one.
fn byte_at(changes: &[Change], place: usize, byte: u8) -> u8 {
    let mut byte = byte;
    for (at, bytes) in changes.iter().copied() {
        let other = place.checked_sub(at).and_then(|i| bytes.get(i));
        byte = *other.unwrap_or(&byte);
    }
    byte
}

/// The length that is left of a source, and how many bytes are needed where the magic number is left.
static CUT: [(usize, Option<u64>); 12] = [
    (0, None),
    (1, None),
    (2, None),
    (3, None),
    (4, Some(2048)),
    (772, Some(2048)),
    (803, Some(2048)),
    (2047, Some(2048)),
    (2048, Some(2052)),
    (2049, Some(2052)),
    (2050, Some(2052)),
    (2051, Some(2052)),
];

#[test]
fn a_source_that_is_cut_is_told_with_its_lengths(rt: HostRuntime) -> Result<(), Memory> {
    for (length, need) in CUT.iter().copied() {
        assert!(rt; is_cut(rt.alloc(), length, need)?, "{length} bytes");
    }
    Ok(())
}

fn is_cut(alloc: Global, length: usize, need: Option<u64>) -> Result<bool, Memory> {
    let source = changed(alloc, &[], length)?;
    let have = length as u64;
    match need {
        Some(need) => is_refused(
            alloc,
            &source,
            DpxFault::Truncated { need, have },
            "image: Truncated",
        ),
        None => is_refused(alloc, &source, DpxFault::NotDpx, "image: NotDpx"),
    }
}

/// Changes, the fault that is told, and its line.
type Broken = (&'static [Change], DpxFault, &'static str);

static BROKEN: [Broken; 16] = [
    (&[(0, b"SDPY")], DpxFault::NotDpx, "image: NotDpx"),
    (
        &[(660, &[0, 0, 0, 5])],
        DpxFault::Encrypted,
        "image: Encrypted",
    ),
    // The key is looked at before the encoding.
    (
        &[(660, &[0, 0, 0, 5]), (806, &[0, 1])],
        DpxFault::Encrypted,
        "image: Encrypted",
    ),
    (
        &[(768, &[0, 1])],
        DpxFault::Orientation(1),
        "image: Orientation",
    ),
    (&[(770, &[0, 2])], DpxFault::Elements(2), "image: Elements"),
    (
        &[(772, &[0, 0, 64, 1])],
        DpxFault::Size {
            width: 16_385,
            height: 1,
        },
        "image: Size",
    ),
    (
        &[(776, &[0, 0, 0, 0])],
        DpxFault::Size {
            width: 1,
            height: 0,
        },
        "image: Size",
    ),
    (&[(780, &[0, 0, 0, 1])], DpxFault::Sign(1), "image: Sign"),
    (
        &[(800, &[51])],
        DpxFault::Descriptor(51),
        "image: Descriptor",
    ),
    (&[(803, &[12])], DpxFault::Depth(12), "image: Depth"),
    (&[(804, &[0, 0])], DpxFault::Packing(0), "image: Packing"),
    (
        &[(806, &[0, 1])],
        DpxFault::Compressed(1),
        "image: Compressed",
    ),
    (
        &[(808, &[255, 255, 255, 254])],
        DpxFault::Truncated {
            need: 4_294_967_298,
            have: 2052,
        },
        "image: Truncated",
    ),
    (
        &[(776, &[0, 0, 0, 2]), (812, &[255, 255, 255, 254])],
        DpxFault::Truncated {
            need: 4_294_969_350,
            have: 2052,
        },
        "image: Truncated",
    ),
    (
        &[(776, &[0, 0, 0, 2])],
        DpxFault::Truncated {
            need: 2056,
            have: 2052,
        },
        "image: Truncated",
    ),
    (
        &[(803, &[16]), (804, &[0, 0])],
        DpxFault::Truncated {
            need: 2054,
            have: 2052,
        },
        "image: Truncated",
    ),
];

#[test]
fn each_rule_of_the_format_refuses_the_source(rt: HostRuntime) -> Result<(), Memory> {
    for (changes, fault, line) in BROKEN.iter().copied() {
        let source = changed(rt.alloc(), changes, 2052)?;
        assert!(rt; is_refused(rt.alloc(), &source, fault, line)?, "{fault}");
    }
    Ok(())
}

// Whether the command refuses that source by the fault, says its line, and stores nothing.
fn is_refused(alloc: Global, source: &[u8], fault: DpxFault, line: &str) -> Result<bool, Memory> {
    let held = [("half.ctl", HALF.as_bytes()), ("in.dpx", source)];
    let wanted = Wanted {
        fault: Some(fault),
        ..refused(8, line, 3)
    };
    ends(alloc, &given(&held, &WORDS), &wanted)
}

/// Changes, and the pixel that is stored for the source with each channel as it is.
static KEPT: [(&[Change], u32); 6] = [
    (&[(812, &[255, 255, 255, 254])], PIXEL),
    (&[(808, &[0, 0, 0, 0])], PIXEL),
    (&[(768, &[255, 255])], PIXEL),
    // by method A the two last bits of a word are padding, by method B the two first
    (&[(2048, &[0xFF, 0xC0, 0x08, 0x03])], PIXEL),
    (&[(804, &[0, 2]), (2048, &[0xFF, 0xF0, 0x02, 0x00])], PIXEL),
    // The pixel is in the version of the header: 184, 768 and 0.
    (&[(808, &[0, 0, 0, 10])], 0x2E30_0000),
];

#[test]
fn a_source_that_keeps_each_rule_is_taken(rt: HostRuntime) -> Result<(), Memory> {
    for (changes, pixel) in KEPT.iter().copied() {
        let source = changed(rt.alloc(), changes, 2052)?;
        assert!(rt;
            stores_pixel(rt.alloc(), SAME.as_bytes(), &source, pixel)?,
            "{pixel}"
        );
    }
    Ok(())
}
