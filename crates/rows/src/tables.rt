//! Printed by tools/rows_tables.py.

/// Words of pixels of ten bits.
pub static PIXELS: [u32; 6] = [
    0xFFC00800, 0x0040200C, 0x013FC554, 0xAABFE01C, 0x001FFFFC, 0x1914DE10,
];

/// The words of the pixels whose channels are their halves.
pub static HALVES: [u32; 6] = [
    0x80000400, 0x00001004, 0x009FE2AC, 0x555FF00C, 0x00100800, 0x0C8A7708,
];
