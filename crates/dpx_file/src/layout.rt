//! What the header says of the pixels.

ghost use Rattle.std.specs.Prelude.{◌≡◌, ◌+◌, ◌*◌, ◌-◌, ◌^◌, ◌<◌, ◌≤◌, IfOk, ◌==◌, ◌||◌, length};
ghost use Rattle.ctl_base.specs.Answers.{Gives};
ghost use Rattle.dpx_file.specs.Kept.{plain_header, plain_layout};
ghost use Rattle.dpx_file.specs.Plain.{IsImageSize, IsBitDepth};
ghost use Rattle.dpx_file.specs.Reading.{header_of, layout_of as told_by, is_unset as unset, is_size as within, is_packing as known_packing, start_of_pixels as start_of, padding_of as padded, line_size, line_start, bytes_needed};

use crate::fault::DpxFault;
use crate::header::HEADER_SIZE;
use crate::pixels::pixel_size;
use byteorder::ByteOrder;
use ctl_base::limits::{PIXELS, SIDE};

// Where the fields that are read begin, in bytes from the start of the file.
const OFFSET_TO_IMAGE_DATA: usize = 4;

const ENCRYPTION_KEY: usize = 660;

const IMAGE_ORIENTATION: usize = 768;

const NUMBER_OF_IMAGE_ELEMENTS: usize = 770;

const PIXELS_PER_LINE: usize = 772;

const LINES_PER_IMAGE_ELEMENT: usize = 776;

const DATA_SIGN: usize = 780;

const DESCRIPTOR: usize = 800;

const BIT_SIZE: usize = 803;

const PACKING: usize = 804;

const ENCODING: usize = 806;

const OFFSET_TO_DATA: usize = 808;

const END_OF_LINE_PADDING: usize = 812;

/// The descriptor of red, green and blue.
const RGB: u8 = 50;

/// The fields that are read, those of an image element for element 0.
#[derive(Clone, Copy, Debug)]
pub struct Header {
    pub encryption_key: u32,
    pub image_orientation: u16,
    pub number_of_image_elements: u16,
    pub pixels_per_line: u32,
    pub lines_per_image_element: u32,
    pub data_sign: u32,
    pub descriptor: u8,
    pub bit_size: u8,
    pub packing: u16,
    pub encoding: u16,
    pub offset_to_data: u32,
    pub offset_to_image_data: u32,
    pub end_of_line_padding: u32,
}

/// Where the pixels stand in a file.
#[derive(Clone, Copy, Debug)]
pub struct Layout {
    /// Pixels per line.
    pub width: u32,
    /// Lines.
    pub height: u32,
    /// Bits of a code.
    pub depth: u8,
    /// How codes of ten bits are packed: 1 is method A, 2 is method B.
    pub packing: u16,
    /// The byte at which the first line begins.
    pub offset: u32,
    /// Bytes between the end of a line and the next one.
    pub padding: u32,
}

// A number of four bytes is 0, or all ones, which the standard writes where a field has no value.
#[tactic(auto, unfolding(crate::specs::Reading::is_unset))]
fn is_unset(number: u32) -> bool
    ensures { result ≡ unset 4 number }
{
    number == 0 || number == u32::MAX
}

// The same of a number of two bytes.
#[tactic(auto, unfolding(crate::specs::Reading::is_unset))]
fn is_unset_short(number: u16) -> bool
    ensures { result ≡ unset 2 number }
{
    number == 0 || number == u16::MAX
}

#[tactic(auto, unfolding(crate::specs::Reading::is_size))]
fn is_size(width: u32, height: u32) -> bool
    ensures { result ≡ within width height }
{
    1 <= width
        && width <= SIDE
        && 1 <= height
        && height <= SIDE
        && width as u64 * height as u64 <= PIXELS as u64
}

fn is_depth(depth: u8) -> bool
    ensures { result ≡ (depth == 10 || depth == 16) }
{
    depth == 10 || depth == 16
}

#[tactic(auto, unfolding(crate::specs::Reading::is_packing))]
fn is_packing(depth: u8, packing: u16) -> bool
    ensures { result ≡ known_packing depth packing }
{
    packing == 1 || packing == 2 || (packing == 0 && depth == 16)
}

// The number of one byte.
fn read_u8<T: ByteOrder>(bytes: &[u8]) -> u8
    requires { 1 ≤ length bytes.now }
    ensures { result ≡ T.number_of 1 bytes.now }
{
    T::read_uint(bytes, 1) as u8
}

#[tactic(auto, unfolding(crate::specs::Reading::start_of_pixels))]
fn start_of_pixels(own: u32, general: u32) -> u32
    ensures { result ≡ start_of own general }
{
    if is_unset(own) { general } else { own }
}

#[tactic(auto, unfolding(crate::specs::Reading::padding_of))]
fn padding_of(number: u32) -> u32
    ensures { result ≡ padded number }
{
    if number == u32::MAX { 0 } else { number }
}

/// The fields of a file.
#[tactic(auto, unfolding(crate::specs::Reading::header_of))]
pub fn read_header<T: ByteOrder>(bytes: &[u8]) -> Header
    requires { 2048 ≤ length bytes.now }
    ensures { plain_header result ≡ header_of T.number_of bytes.now }
{
    Header {
        encryption_key: T::read_u32(&bytes[ENCRYPTION_KEY..]),
        image_orientation: T::read_u16(&bytes[IMAGE_ORIENTATION..]),
        number_of_image_elements: T::read_u16(&bytes[NUMBER_OF_IMAGE_ELEMENTS..]),
        pixels_per_line: T::read_u32(&bytes[PIXELS_PER_LINE..]),
        lines_per_image_element: T::read_u32(&bytes[LINES_PER_IMAGE_ELEMENT..]),
        data_sign: T::read_u32(&bytes[DATA_SIGN..]),
        descriptor: read_u8::<T>(&bytes[DESCRIPTOR..]),
        bit_size: read_u8::<T>(&bytes[BIT_SIZE..]),
        packing: T::read_u16(&bytes[PACKING..]),
        encoding: T::read_u16(&bytes[ENCODING..]),
        offset_to_data: T::read_u32(&bytes[OFFSET_TO_DATA..]),
        offset_to_image_data: T::read_u32(&bytes[OFFSET_TO_IMAGE_DATA..]),
        end_of_line_padding: T::read_u32(&bytes[END_OF_LINE_PADDING..]),
    }
}

/// The layout that a header tells, or the fault of the first rule that it breaks.
#[tactic(auto, unfolding(crate::specs::Reading::layout_of))]
pub fn layout_of(h: &Header) -> Result<Layout, DpxFault>
    ensures exact { Gives plain_layout (λ claim fault. claim fault) result (told_by (plain_header h.now)) }
    ensures size { IfOk result (λ l. IsImageSize l.width l.height) }
    ensures depth { IfOk result (λ l. IsBitDepth l.depth) }
{
    if !is_unset(h.encryption_key) {
        return Err(DpxFault::Encrypted);
    }
    if !is_unset_short(h.image_orientation) {
        return Err(DpxFault::Orientation(h.image_orientation));
    }
    if h.number_of_image_elements != 1 {
        return Err(DpxFault::Elements(h.number_of_image_elements));
    }
    let (width, height) = (h.pixels_per_line, h.lines_per_image_element);
    if !is_size(width, height) {
        return Err(DpxFault::Size { width, height });
    }
    if !is_unset(h.data_sign) {
        return Err(DpxFault::Sign(h.data_sign));
    }
    if h.descriptor != RGB {
        return Err(DpxFault::Descriptor(h.descriptor));
    }
    if !is_depth(h.bit_size) {
        return Err(DpxFault::Depth(h.bit_size));
    }
    if !is_packing(h.bit_size, h.packing) {
        return Err(DpxFault::Packing(h.packing));
    }
    if !is_unset_short(h.encoding) {
        return Err(DpxFault::Compressed(h.encoding));
    }
    Ok(Layout {
        width,
        height,
        depth: h.bit_size,
        packing: h.packing,
        offset: start_of_pixels(h.offset_to_data, h.offset_to_image_data),
        padding: padding_of(h.end_of_line_padding),
    })
}

impl Layout {
    // Bytes of a line without its padding.
    fn line_size(&self) -> u64
        requires size { IsImageSize self.now.width self.now.height }
        ensures { result ≡ line_size (plain_layout self.now) }
    {
        self.width as u64 * pixel_size(self.depth) as u64
    }

    /// The byte at which line y begins.
    pub fn line_start(&self, y: u32) -> u64
        requires size { IsImageSize self.now.width self.now.height }
        requires line { y < self.now.height }
        ensures { result ≡ line_start (plain_layout self.now) y }
    {
        self.offset as u64 + y as u64 * (self.line_size() + self.padding as u64)
    }

    /// The bytes that a file must have.
    pub fn bytes_needed(&self) -> u64
        requires size { IsImageSize self.now.width self.now.height }
        ensures { result ≡ bytes_needed (plain_layout self.now) }
    {
        self.offset as u64
            + self.height as u64 * self.line_size()
            + (self.height as u64 - 1) * self.padding as u64
    }
}
