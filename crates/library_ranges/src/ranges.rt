//! What the functions of the library give lies in the range of float.

ghost use Rattle.library_ranges.specs.Ranges.{ElementaryStaysInRange, AnglesStayInRange, VectorsStayInRange, TablesStayInRange, RawsComeOut};

use fix_num::{
    arithmetic_stays_in_range, halves_stay_in_range, root_is_floor, rounding_keeps_bounds,
    saturation_clamps,
};
use fix_trig::turns_fit;

/// The law that powers, logarithms and lengths are in the range of float whatever their arguments are, and a remainder
/// where its dividend is, at up to 40 fraction bits.
pub fn elementary_stays_in_range()
    ensures { ElementaryStaysInRange }
{
    arithmetic_stays_in_range();
    saturation_clamps();
    rounding_keeps_bounds();
    root_is_floor();
}

/// The law that sine, cosine, tangent and their inverses are in the range of float whatever their arguments are, at up to
/// 40 fraction bits.
pub fn angles_stay_in_range()
    ensures { AnglesStayInRange }
{
    arithmetic_stays_in_range();
    saturation_clamps();
    rounding_keeps_bounds();
    turns_fit();
}

/// The law that what is computed of vectors and matrices is in the range of float whatever their words are, and a
/// transposed matrix where the words of its argument are, at up to 40 fraction bits.
pub fn vectors_stay_in_range()
    ensures { VectorsStayInRange }
{
    arithmetic_stays_in_range();
    saturation_clamps();
}

/// The law that look-ups along a line and in three indices, and the matrices of colour, are in the range of float
/// whatever their words are, and those along a curve and in pairs where the words of the table are, at up to 40
/// fraction bits.
pub fn tables_stay_in_range()
    ensures { TablesStayInRange }
{
    saturation_clamps();
    vectors_stay_in_range();
}

/// The law that each function of the library gives words in the range of float where the words of its table and of
/// its other inputs are in that range, at the fraction bits of the number type. The words of a half are such words.
pub fn raws_come_out()
    ensures { RawsComeOut }
{
    arithmetic_stays_in_range();
    halves_stay_in_range();
    elementary_stays_in_range();
    angles_stay_in_range();
    vectors_stay_in_range();
    tables_stay_in_range();
}
