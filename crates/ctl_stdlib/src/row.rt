//! The functions of the library, and the shapes of what they take and give.

ghost use Rattle.std.specs.Prelude.{◌≡◌};
ghost use Rattle.ctl_stdlib.specs.Shapes.{base, open_sizes, stated_sizes};

use ctl_base::ScalarKind;

/// A function of the library.
#[derive(Clone, Copy, Debug, PartialEq, Eq)]
pub enum LibraryId {
    Exp,
    Log,
    Log10,
    Pow10,
    Sqrt,
    Fabs,
    Floor,
    Sin,
    Cos,
    Tan,
    Asin,
    Acos,
    Atan,
    Pow,
    Fmod,
    Hypot,
    Atan2,
    ExpH,
    LogH,
    Log10H,
    Pow10H,
    PowH,
    AddF3F3,
    SubtractF3F3,
    MultFF3,
    DotF3F3,
    CrossF3F3,
    LengthF3,
    MultF3F33,
    MultF3F44,
    MultF33F33,
    MultF44F44,
    MultFF33,
    MultFF44,
    AddF33F33,
    AddF44F44,
    TransposeF33,
    TransposeF44,
    InvertF33,
    InvertF44,
    Lookup1D,
    LookupCubic1D,
    Interpolate1D,
    InterpolateCubic1D,
    Lookup3DF3,
    Lookup3DF,
    RgbToXyz,
    XyzToRgb,
    Assert,
}

/// What a shape holds in the end: scalars of one kind, or the struct of four points that are two floats each.
#[derive(Clone, Copy, Debug, PartialEq, Eq)]
pub enum Base {
    Scalar(ScalarKind),
    Chromaticities,
}

/// The shape of a parameter or a result.
#[derive(Clone, Copy, Debug, PartialEq, Eq)]
pub enum RowShape {
    Bool,
    Half,
    Float,
    /// Three floats.
    Float3,
    /// Three rows of three floats.
    Float33,
    /// Four rows of four floats.
    Float44,
    /// Any number of floats.
    Floats,
    /// Any number of pairs of floats.
    Pairs,
    /// Triples of floats in three indices, each of any size.
    Lattice,
    Chromaticities,
}

/// A parameter.
#[derive(Clone, Copy, Debug, PartialEq, Eq)]
pub struct Param {
    pub shape: RowShape,
    pub is_output: bool,
}

impl RowShape {
    /// What the shape holds in the end.
    pub fn base(self) -> Base
        ensures { result ≡ base self }
    {
        match self {
            RowShape::Bool => Base::Scalar(ScalarKind::Bool),
            RowShape::Half => Base::Scalar(ScalarKind::Half),
            RowShape::Float => Base::Scalar(ScalarKind::Float),
            RowShape::Float3 => Base::Scalar(ScalarKind::Float),
            RowShape::Float33 => Base::Scalar(ScalarKind::Float),
            RowShape::Float44 => Base::Scalar(ScalarKind::Float),
            RowShape::Floats => Base::Scalar(ScalarKind::Float),
            RowShape::Pairs => Base::Scalar(ScalarKind::Float),
            RowShape::Lattice => Base::Scalar(ScalarKind::Float),
            RowShape::Chromaticities => Base::Chromaticities,
        }
    }

    /// How many sizes are open: they are the outermost.
    pub fn open_sizes(self) -> u32
        ensures { result ≡ open_sizes self }
    {
        match self {
            RowShape::Floats => 1,
            RowShape::Pairs => 1,
            RowShape::Lattice => 3,
            _ => 0,
        }
    }

    /// The sizes that are stated, the outermost first.
    pub fn stated_sizes(self) -> &'static [u32]
        ensures { result.now ≡ stated_sizes self }
    {
        match self {
            RowShape::Float3 => &[3],
            RowShape::Float33 => &[3, 3],
            RowShape::Float44 => &[4, 4],
            RowShape::Pairs => &[2],
            RowShape::Lattice => &[3],
            _ => &[],
        }
    }
}
