//! Reading.

ghost use Rattle.std.specs.Prelude.{◌≡◌, ◌*◌, ◌≤◌, IfOk, length};
ghost use Rattle.ctl_base.specs.Answers.{Gives};
ghost use Rattle.dpx_file.specs.Kept.{plain_header, plain_layout};
ghost use Rattle.dpx_file.specs.Plain.{IsImageSize, IsBitDepth};
ghost use Rattle.dpx_file.specs.Reading.{bytes_needed, codes_in_file, reading_in, dpx_reading};
ghost use Rattle.dpx_file.specs.Refusal.{read_refusal};

use crate::codes::CodeList;
use crate::fault::{DpxFault, ReadError};
use crate::header::HEADER_SIZE;
use crate::image::Image;
use crate::layout::{Header, Layout, layout_of, read_header};
use crate::pixels::decode;
use byteorder::{BigEndian, ByteOrder, LittleEndian};
use ctl_base::Memory;
use std::alloc::Global;

// Copies the codes of all lines.
fn decode_lines<T: ByteOrder>(layout: &Layout, bytes: &[u8], out: &mut [u16])
    requires size { IsImageSize layout.now.width layout.now.height }
    requires depth { IsBitDepth layout.now.depth }
    requires room { bytes_needed (plain_layout layout.now) ≤ length bytes.now }
    requires count { length out.old ≡ 3 * layout.now.width * layout.now.height }
    ensures { out.new ≡ codes_in_file T.number_of (plain_layout layout.now) bytes.now }
{
    let codes = 3 * layout.width as usize;
    'lines: for y in 0..layout.height {
        let line = &bytes[layout.line_start(y) as usize..];
        let at = codes * y as usize;
        decode::<T>(
            layout.depth,
            layout.packing,
            layout.width,
            line,
            &mut out[at..at + codes],
        );
    }
}

fn read_codes<T: ByteOrder>(
    alloc: Global,
    layout: &Layout,
    bytes: &[u8],
) -> Result<CodeList, Memory>
    requires size { IsImageSize layout.now.width layout.now.height }
    requires depth { IsBitDepth layout.now.depth }
    requires room { bytes_needed (plain_layout layout.now) ≤ length bytes.now }
    ensures { IfOk result (λ v. v ≡ codes_in_file T.number_of (plain_layout layout.now) bytes.now) }
{
    let count = 3 * layout.width as usize * layout.height as usize;
    let mut codes = vec![in alloc; 0u16; count]?;
    decode_lines::<T>(layout, bytes, &mut codes);
    Ok(CodeList::from_vec(codes))
}

// What a file reads as in a known byte order.
#[tactic(auto, unfolding(crate::specs::Reading::reading_in))]
fn read_in<T: ByteOrder>(alloc: Global, bytes: &[u8]) -> Result<Image, ReadError>
    ensures { Gives (λ image. image) read_refusal result (reading_in T.number_of bytes.now) }
{
    let need = HEADER_SIZE as u64;
    let have = bytes.len() as u64;
    if have < need {
        return Err(ReadError::Dpx(DpxFault::Truncated { need, have }));
    }
    let layout = layout_of(&read_header::<T>(bytes))?;
    let need = layout.bytes_needed();
    if have < need {
        return Err(ReadError::Dpx(DpxFault::Truncated { need, have }));
    }
    let codes = read_codes::<T>(alloc, &layout, bytes)?;
    Ok(Image::new(layout.width, layout.height, layout.depth, codes))
}

/// The image that a file reads as, or the first rule that it breaks.
#[tactic(auto, unfolding(crate::specs::Reading::dpx_reading))]
pub fn read(alloc: Global, bytes: &[u8]) -> Result<Image, ReadError>
    ensures { Gives (λ image. image) read_refusal result (dpx_reading bytes.now) }
{
    if bytes.starts_with(b"SDPX") {
        return read_in::<BigEndian>(alloc, bytes);
    }
    if bytes.starts_with(b"XPDS") {
        return read_in::<LittleEndian>(alloc, bytes);
    }
    Err(ReadError::Dpx(DpxFault::NotDpx))
}
