//! What is well typed is never wrong.

ghost use Rattle.std.specs.Prelude.{ℕ};
ghost use Rattle.ctl_laws.specs.Sound.{EntriesEndWell, ExpressionsGiveWell, InitialisersGiveWell, SizeIsLength};
ghost use Rattle.ctl_types.specs.Cost.{uncounted, counted};

use ctl_stdlib::halves_come_out;
use ctl_types::words_are_counted;
use fix_num::{arithmetic_stays_in_range, half_keeps, halves_stay_in_range, wholes_stay_in_range};
use library_ranges::raws_come_out;

/// The run of any function of definitions that keep the rules, as an entry, is never wrong, where its inputs fit: there
/// is one for each input parameter, of its shape, with open sizes and scalars within the limits, and each output has a
/// default or no open size. So it traps, or gives outputs of their shapes with scalars within the limit, where the open
/// sizes of an output are those of its first value. Without a count, and with one.
pub fn entries_are_sound()
    ensures plain { EntriesEndWell (Unit {0}) uncounted }
    ensures counted { EntriesEndWell ℕ counted }
{
    arithmetic_stays_in_range();
    halves_stay_in_range();
    wholes_stay_in_range();
    half_keeps();
    words_are_counted();
    halves_come_out();
    raws_come_out();
}

/// The run of a well typed expression, where the first k functions of definitions that keep the rules may be called, is
/// never wrong, with any open sizes in range and any variables of their shapes. So it traps, or gives a value of the
/// shape of its type, and the variables keep their shapes. Without a count, and with one.
pub fn expressions_are_sound()
    ensures plain { ExpressionsGiveWell (Unit {0}) uncounted }
    ensures counted { ExpressionsGiveWell ℕ counted }
{
    arithmetic_stays_in_range();
    halves_stay_in_range();
    wholes_stay_in_range();
    half_keeps();
    words_are_counted();
    halves_come_out();
    raws_come_out();
}

/// The run of a well typed initialiser outside functions, behind definitions that keep the rules, is never wrong: it
/// traps, or gives a value of the shape of its type. Without a count, and with one.
pub fn initialisers_are_sound()
    ensures plain { InitialisersGiveWell (Unit {0}) uncounted }
    ensures counted { InitialisersGiveWell ℕ counted }
{
    arithmetic_stays_in_range();
    halves_stay_in_range();
    wholes_stay_in_range();
    half_keeps();
    words_are_counted();
    halves_come_out();
    raws_come_out();
}

/// A value of an array's shape is a list, and has as many elements as the array's static size says, with any open sizes.
pub fn size_is_length()
    ensures { SizeIsLength }
{}
