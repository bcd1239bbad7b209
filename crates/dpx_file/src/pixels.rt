//! Codes to bytes and back.

ghost use Rattle.std.specs.Prelude.{◌≡◌, ◌+◌, ◌*◌, ◌/◌, ◌%◌, ◌^◌, ◌<◌, ◌≤◌, ◌==◌, if◌then◌else◌, length};
ghost use Rattle.dpx_file.specs.Canvas.{written_packing as packing_of};
ghost use Rattle.dpx_file.specs.Plain.{IsBitDepth, CodesFit};
ghost use Rattle.dpx_file.specs.Reading.{line_codes, pixel_size as size_of};
ghost use Rattle.dpx_file.specs.Writing.{ten_bit_words, pixels};

use byteorder::{BigEndian, ByteOrder};

/// The packing of method A: red in the highest bits of the word, two bits free below blue.
const METHOD_A: u16 = 1;

/// The bytes of a pixel.
pub fn pixel_size(depth: u8) -> u32
    ensures { result ≡ size_of depth }
{
    if depth == 10 { 4 } else { 6 }
}

/// The packing of the written form.
pub fn written_packing(depth: u8) -> u16
    ensures { result ≡ packing_of depth }
{
    if depth == 10 { METHOD_A } else { 0 }
}

// The ten bits of a word from a bit on.
fn ten_bits(word: u32, lowest: u32) -> u16
    requires { lowest < 32 }
    ensures { result ≡ word / 2 ^ lowest % 2 ^ 10 }
{
    ((word >> lowest) % 1024) as u16
}

// The lowest bit of red in a word of ten bits a code.
fn bit_of_red(packing: u16) -> u32
    ensures { result ≡ (if packing == 1 then 22 else 20) }
{
    if packing == METHOD_A { 22 } else { 20 }
}

// The codes of a line of ten bits, whose bytes begin the slice.
fn decode_ten<T: ByteOrder>(packing: u16, width: u32, line: &[u8], out: &mut [u16])
    requires room { 4 * width ≤ length line.now }
    requires count { length out.old ≡ 3 * width }
    ensures { out.new ≡ line_codes T.number_of 10 packing width line.now }
{
    let red = bit_of_red(packing);
    'pixels: for x in 0..width as usize {
        let word = T::read_u32(&line[4 * x..]);
        out[3 * x] = ten_bits(word, red);
        out[3 * x + 1] = ten_bits(word, red - 10);
        out[3 * x + 2] = ten_bits(word, red - 20);
    }
}

// The codes of a line of sixteen bits, whose bytes begin the slice.
fn decode_sixteen<T: ByteOrder>(packing: u16, width: u32, line: &[u8], out: &mut [u16])
    requires room { 6 * width ≤ length line.now }
    requires count { length out.old ≡ 3 * width }
    ensures { out.new ≡ line_codes T.number_of 16 packing width line.now }
{
    'pixels: for x in 0..width as usize {
        out[3 * x] = T::read_u16(&line[6 * x..]);
        out[3 * x + 1] = T::read_u16(&line[6 * x + 2..]);
        out[3 * x + 2] = T::read_u16(&line[6 * x + 4..]);
    }
}

/// Copies the codes of a line, whose bytes begin the slice.
pub fn decode<T: ByteOrder>(depth: u8, packing: u16, width: u32, line: &[u8], out: &mut [u16])
    requires depth { IsBitDepth depth }
    requires room { width * size_of depth ≤ length line.now }
    requires count { length out.old ≡ 3 * width }
    ensures { out.new ≡ line_codes T.number_of depth packing width line.now }
{
    if depth == 10 {
        decode_ten::<T>(packing, width, line, out);
    } else {
        decode_sixteen::<T>(packing, width, line, out);
    }
}

// A pixel of ten bits by method A.
fn word_of(red: u16, green: u16, blue: u16) -> u32
    requires red { red < 2 ^ 10 }
    requires green { green < 2 ^ 10 }
    requires blue { blue < 2 ^ 10 }
    ensures { result ≡ red * 2 ^ 22 + green * 2 ^ 12 + blue * 2 ^ 2 }
{
    ((red as u32) << 22) + ((green as u32) << 12) + ((blue as u32) << 2)
}

// Writes codes of ten bits.
fn encode_ten(codes: &[u16], out: &mut [u8])
    requires count { 3 * length out.old ≡ 4 * length codes.now }
    requires fit { CodesFit 10 codes.now }
    ensures { out.new ≡ ten_bit_words codes.now }
{
    'pixels: for x in 0..codes.len() / 3 {
        let word = word_of(codes[3 * x], codes[3 * x + 1], codes[3 * x + 2]);
        BigEndian::write_u32(&mut out[4 * x..], word);
    }
}

/// Writes codes, three a pixel.
#[tactic(auto, unfolding(crate::specs::Writing::pixels))]
pub fn encode(depth: u8, codes: &[u16], out: &mut [u8])
    requires depth { IsBitDepth depth }
    requires count { 3 * length out.old ≡ size_of depth * length codes.now }
    requires fit { CodesFit depth codes.now }
    ensures { out.new ≡ pixels depth codes.now }
{
    if depth == 10 {
        encode_ten(codes, out);
    } else {
        BigEndian::write_u16_into(codes, out);
    }
}
