//! Lines pixel by pixel.

ghost use Rattle.std.specs.Prelude.{◌≡◌, ◌<◌, ◌≤◌, ◌^◌, ◌∷◌, [], ℕ, List};
ghost use Rattle.line_watch.specs.Tally.{IsLine, after_line};

/// Takes a tally on by one pixel.
pub(crate) trait SeesPixels {
    ghost kind_seen: { Self → ℕ };

    ghost numbers_seen: { Self → List ℕ };

    fn see(&mut self, depth: u8, red: u16, green: u16, blue: u16)
        requires depth { (8 ≤ depth) × (depth ≤ 16) }
        requires red { red < 2 ^ depth }
        requires green { green < 2 ^ depth }
        requires blue { blue < 2 ^ depth }
        ensures kind { kind_seen self.new ≡ kind_seen self.old }
        ensures numbers { numbers_seen self.new ≡ after_line (kind_seen self.old) depth (numbers_seen self.old) (red ∷ green ∷ blue ∷ []) };
}

/// Takes a tally on by the pixels of a line.
pub(crate) fn see_line<S: SeesPixels>(watch: &mut S, depth: u8, line: &[u16])
    requires { IsLine depth line.now }
    ensures kind { S.kind_seen watch.new ≡ S.kind_seen watch.old }
    ensures numbers { S.numbers_seen watch.new ≡ after_line (S.kind_seen watch.old) depth (S.numbers_seen watch.old) line.now }
{
    let mut rest = line;
    'pixels: while let [red, green, blue, others @ ..] = rest {
        watch.see(depth, *red, *green, *blue);
        rest = others;
    }
}
