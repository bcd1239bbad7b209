//! Laws that all results are in the range of their kind.

ghost use Rattle.fix_num.specs.Ranges.{ArithmeticStaysInRange, HalvesStayInRange, WholesStayInRange, CodesStayInRange};

/// The law that the arithmetic gives raws.
pub fn arithmetic_stays_in_range()
    ensures { ArithmeticStaysInRange }
{}

/// The law that the half of a number is one of the halves, and that these are raws.
pub fn halves_stay_in_range()
    ensures { HalvesStayInRange }
{}

/// The law that operations on whole numbers and conversions keep the range of their kind.
pub fn wholes_stay_in_range()
    ensures { WholesStayInRange }
{}

/// The law that codes fit their depth, and stand for numbers from 0.0 to 1.0.
pub fn codes_stay_in_range()
    ensures { CodesStayInRange }
{}
