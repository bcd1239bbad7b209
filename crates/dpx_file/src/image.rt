//! An image in memory.

ghost use Rattle.std.specs.Prelude.{◌≡◌, ◌<◌};

use crate::codes::CodeList;
use std::marker::Model;

/// An image: pixels per line, lines, bits of a code, and three codes a pixel, red, green and blue, line after line.
/// It has from 1 to 16384 pixels per line and lines, at most 2^26 pixels, and 10 or 16 bits.
#[derive(Debug, Drop)]
pub struct Image {
    width: u32,
    height: u32,
    depth: u8,
    codes: CodeList,
}

impl Model for Image {
    ghost use Rattle.dpx_file.specs.Plain.{PlainImage, IsImage};

    ghost Value = { PlainImage };

    ghost view = { λ i. record { width = i.width; height = i.height; depth = i.depth; codes = i.codes } };

    ghost invariant = { λ i. IsImage (record { width = i.width; height = i.height; depth = i.depth; codes = i.codes }) };
}

impl Image {
    ghost use Rattle.dpx_file.specs.Plain.{IsImage, codes_of_line};

    /// The image of these codes.
    pub fn new(width: u32, height: u32, depth: u8, codes: CodeList) -> Image
        requires { IsImage (record { width = width; height = height; depth = depth; codes = codes }) }
        ensures { result ≡ record { width = width; height = height; depth = depth; codes = codes } }
    {
        Image {
            width,
            height,
            depth,
            codes,
        }
    }

    /// Pixels per line.
    pub fn width(&self) -> u32
        ensures value { result ≡ self.now.width }
        ensures valid { IsImage self.now }
    {
        self.width
    }

    /// Lines.
    pub fn height(&self) -> u32
        ensures value { result ≡ self.now.height }
        ensures valid { IsImage self.now }
    {
        self.height
    }

    /// Bits of a code.
    pub fn depth(&self) -> u8
        ensures value { result ≡ self.now.depth }
        ensures valid { IsImage self.now }
    {
        self.depth
    }

    /// All codes, line after line.
    pub fn codes(&self) -> &[u16]
        ensures value { result.now ≡ self.now.codes }
        ensures valid { IsImage self.now }
    {
        self.codes.as_slice()
    }

    /// The codes of line y, counted from 0.
    pub fn line(&self, y: u32) -> &[u16]
        requires { y < self.now.height }
        ensures value { result.now ≡ codes_of_line self.now y }
        ensures valid { IsImage self.now }
    {
        let codes = 3 * self.width as usize;
        let start = codes * y as usize;
        &self.codes.as_slice()[start..start + codes]
    }
}
