//! The file of the written form.

ghost use Rattle.std.specs.Prelude.{◌≡◌, ◌+◌, ◌*◌, ◌^◌, ◌<◌, ◌≤◌, IfOk, vec_len};
ghost use Rattle.ctl_base.specs.declared.limits.TheConstants.{SIDE};
ghost use Rattle.dpx_file.specs.Plain.{IsImageSize, IsBitDepth, blank};
ghost use Rattle.dpx_file.specs.Reading.{pixel_size as size_of};
ghost use Rattle.dpx_file.specs.Writing.{dpx_writing};

use crate::header::{HEADER_SIZE, put_header};
use crate::pixels::pixel_size;
use ctl_base::Memory;
use std::alloc::Global;

/// The bytes of a line.
pub fn line_size(width: u32, depth: u8) -> usize
    requires { width ≤ SIDE }
    ensures { result ≡ width * size_of depth }
{
    width as usize * pixel_size(depth) as usize
}

/// The byte at which line y begins.
pub fn line_start(width: u32, depth: u8, y: u32) -> usize
    requires width { width ≤ SIDE }
    requires line { y ≤ SIDE }
    ensures { result ≡ 2048 + y * (width * size_of depth) }
{
    HEADER_SIZE as usize + y as usize * line_size(width, depth)
}

/// The file of an image in which every code is 0.
pub fn blank_file(alloc: Global, width: u32, height: u32, depth: u8) -> Result<Vec<u8>, Memory>
    requires size { IsImageSize width height }
    requires depth { IsBitDepth depth }
    ensures file { IfOk result (λ v. v.items ≡ dpx_writing (blank width height depth)) }
    ensures count { IfOk result (λ v. vec_len v ≡ 2048 + height * (width * size_of depth)) }
{
    let size = line_start(width, depth, height);
    let mut bytes = Vec::with_capacity(alloc, size)?;
    put_header(&mut bytes, size as u32, width, height, depth)?;
    bytes.resize(size, 0)?;
    Ok(bytes)
}
