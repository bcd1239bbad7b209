//! The parameters and the result of each function.

ghost use Rattle.std.specs.Prelude.{◌≡◌};
ghost use Rattle.ctl_stdlib.specs.Rows.{row};

use crate::row::LibraryId::{
    self, AddF3F3, AddF33F33, AddF44F44, Assert, Atan2, CrossF3F3, DotF3F3, ExpH, Fmod, Hypot,
    Interpolate1D, InterpolateCubic1D, InvertF33, InvertF44, LengthF3, Log10H, LogH, Lookup1D,
    Lookup3DF, Lookup3DF3, LookupCubic1D, MultF3F33, MultF3F44, MultF33F33, MultF44F44, MultFF3,
    MultFF33, MultFF44, Pow, Pow10H, PowH, RgbToXyz, SubtractF3F3, TransposeF33, TransposeF44,
    XyzToRgb,
};
use crate::row::{Param, RowShape};

const BOOL: Param = Param {
    shape: RowShape::Bool,
    is_output: false,
};

const HALF: Param = Param {
    shape: RowShape::Half,
    is_output: false,
};

const FLOAT: Param = Param {
    shape: RowShape::Float,
    is_output: false,
};

const FLOAT3: Param = Param {
    shape: RowShape::Float3,
    is_output: false,
};

const FLOAT33: Param = Param {
    shape: RowShape::Float33,
    is_output: false,
};

const FLOAT44: Param = Param {
    shape: RowShape::Float44,
    is_output: false,
};

const FLOATS: Param = Param {
    shape: RowShape::Floats,
    is_output: false,
};

const PAIRS: Param = Param {
    shape: RowShape::Pairs,
    is_output: false,
};

const LATTICE: Param = Param {
    shape: RowShape::Lattice,
    is_output: false,
};

const CHROMATICITIES: Param = Param {
    shape: RowShape::Chromaticities,
    is_output: false,
};

const OUTPUT: Param = Param {
    shape: RowShape::Float,
    is_output: true,
};

/// The parameters in their order.
pub fn params(id: LibraryId) -> &'static [Param]
    ensures { result.now ≡ (row id).params }
{
    match id {
        Pow | Fmod | Hypot | Atan2 => &[FLOAT, FLOAT],
        ExpH | LogH | Log10H | Pow10H => &[HALF],
        PowH => &[HALF, HALF],
        AddF3F3 | SubtractF3F3 | DotF3F3 | CrossF3F3 => &[FLOAT3, FLOAT3],
        MultFF3 => &[FLOAT, FLOAT3],
        LengthF3 => &[FLOAT3],
        MultF3F33 => &[FLOAT3, FLOAT33],
        MultF3F44 => &[FLOAT3, FLOAT44],
        MultF33F33 | AddF33F33 => &[FLOAT33, FLOAT33],
        MultF44F44 | AddF44F44 => &[FLOAT44, FLOAT44],
        MultFF33 => &[FLOAT, FLOAT33],
        MultFF44 => &[FLOAT, FLOAT44],
        TransposeF33 | InvertF33 => &[FLOAT33],
        TransposeF44 | InvertF44 => &[FLOAT44],
        Lookup1D | LookupCubic1D => &[FLOATS, FLOAT, FLOAT, FLOAT],
        Interpolate1D | InterpolateCubic1D => &[PAIRS, FLOAT],
        Lookup3DF3 => &[LATTICE, FLOAT3, FLOAT3, FLOAT3],
        Lookup3DF => &[
            LATTICE, FLOAT3, FLOAT3, FLOAT, FLOAT, FLOAT, OUTPUT, OUTPUT, OUTPUT,
        ],
        RgbToXyz | XyzToRgb => &[CHROMATICITIES, FLOAT],
        Assert => &[BOOL],
        _ => &[FLOAT],
    }
}

/// The result, and None where there is none.
pub fn result(id: LibraryId) -> Option<RowShape>
    ensures { result ≡ (row id).result }
{
    match id {
        ExpH | LogH | Log10H | Pow10H | PowH => Some(RowShape::Half),
        AddF3F3 | SubtractF3F3 | MultFF3 | CrossF3F3 => Some(RowShape::Float3),
        MultF3F33 | MultF3F44 | Lookup3DF3 => Some(RowShape::Float3),
        MultF33F33 | MultFF33 | AddF33F33 => Some(RowShape::Float33),
        TransposeF33 | InvertF33 => Some(RowShape::Float33),
        MultF44F44 | MultFF44 | AddF44F44 => Some(RowShape::Float44),
        TransposeF44 | InvertF44 => Some(RowShape::Float44),
        RgbToXyz | XyzToRgb => Some(RowShape::Float44),
        Lookup3DF | Assert => None,
        _ => Some(RowShape::Float),
    }
}
