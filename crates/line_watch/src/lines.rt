//! Lines in order, and the two representations of bins.

ghost use Rattle.std.specs.Prelude.{◌≡◌, All, map};
ghost use Rattle.line_watch.specs.Tally.{IsLine, after_lines};

use crate::bin_array::BinArray;
use crate::bin_map::BinMap;
use crate::watcher::Watcher;

/// Shows lines of one depth in order.
pub fn show_lines<W: Watcher>(watcher: &mut W, depth: u8, lines: &[Vec<u16>])
    requires { All (λ l. IsLine depth l.items) lines.now }
    ensures kind { W.kind_of watcher.new ≡ W.kind_of watcher.old }
    ensures tally { W.tally watcher.new ≡ after_lines (W.kind_of watcher.old) depth (W.tally watcher.old) (map (λ l. l.items) lines.now) }
{
    'lines: for line in lines {
        watcher.show(depth, line);
    }
}

/// The law that an array and an ordered map of bins are two representations of one meaning: where their tallies are
/// equal, they are equal after the same lines.
pub fn bins_agree(array: &mut BinArray, ordered: &mut BinMap, depth: u8, lines: &[Vec<u16>])
    requires same { array.old ≡ ordered.old }
    requires lines { All (λ l. IsLine depth l.items) lines.now }
    ensures tally { array.new ≡ after_lines 4 depth array.old (map (λ l. l.items) lines.now) }
    ensures same { array.new ≡ ordered.new }
{
    show_lines(array, depth, lines);
    show_lines(ordered, depth, lines);
}
