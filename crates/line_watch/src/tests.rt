//! Each watcher at its own type and in a box, over a few pixels.

use crate::{BinArray, BinMap, ClipWatch, RangeWatch, SumWatch, Tally, Watcher, bins_agree};
use std::test::Fail;

// What a watcher tells of one line.
fn told<W: Watcher>(mut watcher: W) -> Tally {
    watcher.show(10, &[512, 0, 256]);
    watcher.report()
}

// A tally with these numbers, and 0 elsewhere.
fn tally(kind: u8, some: &[(usize, u64)]) -> Tally {
    let mut numbers = [0; 48];
    for (place, number) in some {
        if *place < 48 {
            numbers[*place] = *number;
        }
    }
    Tally { kind, numbers }
}

#[test]
fn one_pixel_at_ten_bits(rt: HostRuntime) -> Result<(), Fail> {
    let range = tally(1, &[(0, 512), (1, 512), (4, 256), (5, 256)]);
    let clip = tally(2, &[(2, 1)]);
    let sum = tally(3, &[(0, 512), (2, 256)]);
    let bins = tally(4, &[(8, 1), (16, 1), (36, 1)]);
    assert_eq!(rt; told(RangeWatch::new()), range);
    assert_eq!(rt; told(ClipWatch::new()), clip);
    assert_eq!(rt; told(SumWatch::new()), sum);
    assert_eq!(rt; told(BinArray::new()), bins);
    assert_eq!(rt; told(BinMap::new(rt.alloc())?), bins);
    Ok(())
}

#[test]
fn boxes_tell_what_is_in_them(rt: HostRuntime) -> Result<(), Fail> {
    let range: Box<dyn Watcher> = Box::new(rt.alloc(), RangeWatch::new())?;
    let clip: Box<dyn Watcher> = Box::new(rt.alloc(), ClipWatch::new())?;
    let sum: Box<dyn Watcher> = Box::new(rt.alloc(), SumWatch::new())?;
    let array: Box<dyn Watcher> = Box::new(rt.alloc(), BinArray::new())?;
    let ordered: Box<dyn Watcher> = Box::new(rt.alloc(), BinMap::new(rt.alloc())?)?;
    assert_eq!(rt; range.kind(), 1);
    assert_eq!(rt; told(range), told(RangeWatch::new()));
    assert_eq!(rt; told(clip), told(ClipWatch::new()));
    assert_eq!(rt; told(sum), told(SumWatch::new()));
    assert_eq!(rt; told(array), told(BinArray::new()));
    assert_eq!(rt; told(ordered), told(BinArray::new()));
    Ok(())
}

#[test]
fn codes_at_the_ends_of_three_depths(rt: HostRuntime) {
    let mut clip = ClipWatch::new();
    clip.show(8, &[0, 255, 254]);
    clip.show(10, &[0, 255, 1023]);
    clip.show(16, &[0, 1023, 65535]);
    assert_eq!(rt; clip.report(), tally(2, &[(0, 3), (3, 1), (5, 2)]));
    let mut bins = BinArray::new();
    bins.show(8, &[15, 16, 255]);
    bins.show(10, &[63, 64, 1023]);
    bins.show(16, &[4095, 4096, 65535]);
    assert_eq!(rt; bins.report(), tally(4, &[(0, 3), (17, 3), (47, 3)]));
}

#[test]
fn two_bins_of_two_lines(rt: HostRuntime) -> Result<(), Fail> {
    let mut array = BinArray::new();
    let mut ordered = BinMap::new(rt.alloc())?;
    let lines = vec![in rt.alloc();
        [0, 200, 100, 250, 7, 16].to_vec(rt.alloc())?,
        [31, 128, 16].to_vec(rt.alloc())?,
    ]?;
    bins_agree(&mut array, &mut ordered, 8, &lines);
    assert_eq!(rt; array.report(), ordered.report());
    assert_eq!(rt;
        array.report(),
        tally(
            4,
            &[
                (0, 1),
                (15, 1),
                (1, 1),
                (28, 1),
                (16, 1),
                (24, 1),
                (38, 1),
                (33, 2)
            ]
        )
    );
    Ok(())
}
