//! The file of an image that is put line by line.

ghost use Rattle.std.specs.Prelude.{◌≡◌, ◌*◌, ◌<◌, IfOk, length};
ghost use Rattle.dpx_file.specs.Plain.{IsImageSize, IsBitDepth, IsImage, CodesFit, blank, codes_of_line, with_line};
ghost use Rattle.dpx_file.specs.Writing.{dpx_writing};

use crate::file::{blank_file, line_size, line_start};
use crate::pixels::{decode, encode, written_packing};
use byteorder::BigEndian;
use ctl_base::Memory;
use std::alloc::Global;
use std::marker::Model;

/// The file of an image that is put line by line. It keeps the bytes of the file, and contracts see it as the image.
#[derive(Debug, Drop)]
pub struct Canvas {
    width: u32,
    height: u32,
    depth: u8,
    bytes: Vec<u8>,
}

impl Model for Canvas {
    ghost use Rattle.dpx_file.specs.Plain.{PlainImage, IsImage};
    ghost use Rattle.dpx_file.specs.Canvas.{shown, IsWritten};

    ghost Value = { PlainImage };

    ghost view = { λ c. shown c.width c.height c.depth c.bytes.items };

    ghost invariant = { λ c. IsWritten c.width c.height c.depth c.bytes.items };
}

impl Canvas {
    /// The file of an image in which every code is 0.
    pub fn begin(alloc: Global, width: u32, height: u32, depth: u8) -> Result<Canvas, Memory>
        requires size { IsImageSize width height }
        requires depth { IsBitDepth depth }
        ensures { IfOk result (λ c. c ≡ blank width height depth) }
    {
        let bytes = blank_file(alloc, width, height, depth)?;
        Ok(Canvas {
            width,
            height,
            depth,
            bytes,
        })
    }

    /// Pixels per line.
    pub fn width(&self) -> u32
        ensures value { result ≡ self.now.width }
        ensures valid { IsImage self.now }
    {
        self.width
    }

    /// Lines.
    pub fn height(&self) -> u32
        ensures value { result ≡ self.now.height }
        ensures valid { IsImage self.now }
    {
        self.height
    }

    /// Bits of a code.
    pub fn depth(&self) -> u8
        ensures value { result ≡ self.now.depth }
        ensures valid { IsImage self.now }
    {
        self.depth
    }

    /// Puts these codes in the place of line y, counted from 0.
    pub fn put_line(&mut self, y: u32, codes: &[u16])
        requires line { y < self.old.height }
        requires count { length codes.now ≡ 3 * self.old.width }
        requires fit { CodesFit self.old.depth codes.now }
        ensures { self.new ≡ with_line self.old y codes.now }
    {
        let start = line_start(self.width, self.depth, y);
        let end = start + line_size(self.width, self.depth);
        encode(self.depth, codes, &mut self.bytes[start..end]);
    }

    /// Copies the codes of line y, counted from 0.
    pub fn line(&self, y: u32, out: &mut [u16])
        requires line { y < self.now.height }
        requires count { length out.old ≡ 3 * self.now.width }
        ensures { out.new ≡ codes_of_line self.now y }
    {
        let at = line_start(self.width, self.depth, y);
        let packing = written_packing(self.depth);
        decode::<BigEndian>(self.depth, packing, self.width, &self.bytes[at..], out);
    }

    /// The file.
    pub fn bytes(&self) -> &[u8]
        ensures { result.now ≡ dpx_writing self.now }
    {
        self.bytes.as_slice()
    }
}
