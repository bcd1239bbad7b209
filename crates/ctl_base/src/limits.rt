//! The limits of the project. What is met above each is said by the call that tests it.

ghost use Rattle.ctl_base.specs.Limits.{LimitsStand};

/// The most bytes of a source text.
pub const TEXT_BYTES: u64 = 1 << 24;

/// The most bytes of an image file.
pub const IMAGE_BYTES: u64 = 1 << 30;

/// The greatest number of pixels per line, and of lines.
pub const SIDE: u32 = 16_384;

/// The most pixels of an image.
pub const PIXELS: u32 = 1 << 26;

/// The most modules of a stage, its root included.
pub const MODULES: u32 = 64;

/// The most stages of a chain.
pub const STAGES: u32 = 32;

/// The deepest nesting of forms in a module.
pub const NESTING: u32 = 200;

/// The greatest call depth of a function.
pub const CALL_DEPTH: u32 = 32;

/// The most elements of an array along one index.
pub const ARRAY_SIZE: u32 = 65_536;

/// The most scalars of one shape.
pub const SCALARS: u32 = 1 << 20;

/// The most instances of functions in a stage.
pub const INSTANCES: u32 = 4_096;

/// The most cells of a stage.
pub const CELLS: u32 = 1 << 22;

/// The most varying cells of a stage.
pub const VARYING_CELLS: u32 = 1 << 18;

/// The most parts of a stage.
pub const PARTS: u32 = 1 << 27;

/// The loop turns that a pixel has for the whole chain, and that a constant or default has for itself.
pub const TURNS: u32 = 1_000_000;

/// Each limit is its number.
pub fn limits_stand()
    ensures { LimitsStand }
{}
