//! Decimal constants of 18 places, as whole numbers of quintillionths.

/// log2(e), that is 1 / ln(2).
pub const LOG2_E: u64 = 1_442_695_040_888_963_407;

/// log2(10).
pub const LOG2_TEN: u64 = 3_321_928_094_887_362_348;

/// ln(2).
pub const LN_2: u64 = 693_147_180_559_945_309;

/// log10(2).
pub const LOG10_2: u64 = 301_029_995_663_981_195;

/// 2 / pi.
pub const TWO_OVER_PI: u64 = 636_619_772_367_581_343;

/// pi / 2.
pub const HALF_PI: u64 = 1_570_796_326_794_896_619;
