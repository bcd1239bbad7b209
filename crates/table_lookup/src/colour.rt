//! The matrix from red, green and blue to XYZ.

ghost use Rattle.std.specs.Prelude.{◌≡◌, ℕ, ℤ, pos, ◌+◌, ◌*◌, ◌<◌, length};
ghost use Rattle.table_lookup.specs.Colour.{x_of, y_of, z_of, white_x, white_rest, balance, rise, divisor, red_share, green_share, blue_share, rgb_to_xyz};

use crate::ONE_64;
use fix_num::{FRACTION, Fix};

const RED: usize = 0;

const GREEN: usize = 1;

const BLUE: usize = 2;

const WHITE: usize = 3;

/// The matrix of 4 by 4, its rows one after the other, by which a row of red, green and blue is
/// multiplied to give XYZ. `c` has the chromaticities x and y of red, green, blue and white, and
/// `luminance` is that of white. `out` is overwritten.
pub fn rgb_to_xyz(c: &[Fix], luminance: Fix, out: &mut [Fix])
    requires points { length c.now ≡ 8 }
    requires room { length out.old ≡ 16 }
    ensures { out.new ≡ rgb_to_xyz FRACTION c.now luminance }
{
    let zero = Fix::from_raw(0);
    let one = Fix::from_raw(ONE_64 as i64);
    let red = red_share(c, luminance);
    let green = green_share(c, luminance);
    let blue = blue_share(c, luminance);
    out.copy_from_slice(&[
        red.mul(x_of(c, RED)),
        red.mul(y_of(c, RED)),
        red.mul(z_of(c, RED)),
        zero,
        green.mul(x_of(c, GREEN)),
        green.mul(y_of(c, GREEN)),
        green.mul(z_of(c, GREEN)),
        zero,
        blue.mul(x_of(c, BLUE)),
        blue.mul(y_of(c, BLUE)),
        blue.mul(z_of(c, BLUE)),
        zero,
        zero,
        zero,
        zero,
        one,
    ]);
}

// The coordinates of a point.
fn x_of(c: &[Fix], k: usize) -> Fix
    requires points { length c.now ≡ 8 }
    requires point { k < 4 }
    ensures { result ≡ x_of c.now k }
{
    c[2 * k]
}

// And its y.
fn y_of(c: &[Fix], k: usize) -> Fix
    requires points { length c.now ≡ 8 }
    requires point { k < 4 }
    ensures { result ≡ y_of c.now k }
{
    c[2 * k + 1]
}

// What x and y leave of 1.0.
#[tactic(auto, unfolding(crate::specs::Colour::z_of))]
fn z_of(c: &[Fix], k: usize) -> Fix
    requires points { length c.now ≡ 8 }
    requires point { k < 4 }
    ensures { result ≡ z_of FRACTION c.now k }
{
    let one = Fix::from_raw(ONE_64 as i64);
    one.sub(x_of(c, k)).sub(y_of(c, k))
}

// X of white.
#[tactic(auto, unfolding(crate::specs::Colour::white_x))]
fn white_x(c: &[Fix], luminance: Fix) -> Fix
    requires points { length c.now ≡ 8 }
    ensures { result ≡ white_x FRACTION c.now luminance }
{
    x_of(c, WHITE).mul(luminance).div(y_of(c, WHITE))
}

// X + Z of white.
#[tactic(auto, unfolding(crate::specs::Colour::white_rest))]
fn white_rest(c: &[Fix], luminance: Fix) -> Fix
    requires points { length c.now ≡ 8 }
    ensures { result ≡ white_rest FRACTION c.now luminance }
{
    let z = z_of(c, WHITE).mul(luminance).div(y_of(c, WHITE));
    white_x(c, luminance).add(z)
}

// What the point k takes of white.
#[tactic(auto, unfolding(crate::specs::Colour::balance))]
fn balance(c: &[Fix], luminance: Fix, k: usize) -> Fix
    requires points { length c.now ≡ 8 }
    requires point { k < 4 }
    ensures { result ≡ balance FRACTION c.now luminance k }
{
    let one = Fix::from_raw(ONE_64 as i64);
    let y = y_of(c, k);
    luminance
        .mul(y.sub(one))
        .add(y.mul(white_rest(c, luminance)))
}

// From the y of point k to that of point j.
fn rise(c: &[Fix], j: usize, k: usize) -> Fix
    requires points { length c.now ≡ 8 }
    requires first { j < 4 }
    requires second { k < 4 }
    ensures { result ≡ rise c.now j k }
{
    y_of(c, j).sub(y_of(c, k))
}

// What the three shares are divided by.
#[tactic(auto, unfolding(crate::specs::Colour::divisor))]
fn divisor(c: &[Fix]) -> Fix
    requires points { length c.now ≡ 8 }
    ensures { result ≡ divisor FRACTION c.now }
{
    let red = x_of(c, RED).mul(rise(c, BLUE, GREEN));
    let blue = x_of(c, BLUE).mul(rise(c, GREEN, RED));
    let green = x_of(c, GREEN).mul(rise(c, RED, BLUE));
    red.add(blue).add(green)
}

// The share of one of the three in white.
#[tactic(auto, unfolding(crate::specs::Colour::red_share))]
fn red_share(c: &[Fix], luminance: Fix) -> Fix
    requires points { length c.now ≡ 8 }
    ensures { result ≡ red_share FRACTION c.now luminance }
{
    let across = white_x(c, luminance).mul(rise(c, BLUE, GREEN));
    let first = x_of(c, GREEN).mul(balance(c, luminance, BLUE));
    let second = x_of(c, BLUE).mul(balance(c, luminance, GREEN));
    across.sub(first).add(second).div(divisor(c))
}

// The share of one of the three in white.
#[tactic(auto, unfolding(crate::specs::Colour::green_share))]
fn green_share(c: &[Fix], luminance: Fix) -> Fix
    requires points { length c.now ≡ 8 }
    ensures { result ≡ green_share FRACTION c.now luminance }
{
    let across = white_x(c, luminance).mul(rise(c, RED, BLUE));
    let first = x_of(c, RED).mul(balance(c, luminance, BLUE));
    let second = x_of(c, BLUE).mul(balance(c, luminance, RED));
    across.add(first).sub(second).div(divisor(c))
}

// The share of one of the three in white.
#[tactic(auto, unfolding(crate::specs::Colour::blue_share))]
fn blue_share(c: &[Fix], luminance: Fix) -> Fix
    requires points { length c.now ≡ 8 }
    ensures { result ≡ blue_share FRACTION c.now luminance }
{
    let across = white_x(c, luminance).mul(rise(c, GREEN, RED));
    let first = x_of(c, RED).mul(balance(c, luminance, GREEN));
    let second = x_of(c, GREEN).mul(balance(c, luminance, RED));
    across.sub(first).add(second).div(divisor(c))
}
