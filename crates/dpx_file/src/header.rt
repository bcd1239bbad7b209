//! The header that is written.

ghost use Rattle.std.specs.Prelude.{◌≡◌, ◌+◌, ◌*◌, ◌^◌, ◌<◌, ◌≤◌, ◌++◌, length, map, OnOk};
ghost use Rattle.std.specs.Int.{byte_at};
ghost use Rattle.std.specs.List.{flat_map, range_with_len};
ghost use Rattle.byteorder.specs.Endian.{big_bytes};
ghost use Rattle.dpx_file.specs.Plain.{IsBitDepth};
ghost use Rattle.dpx_file.specs.Rows.{plain, sized, bytes_of};
ghost use Rattle.dpx_file.specs.Writing.{row_bytes, header_rows, file_information, image_information, first_element, unused_element, orientation_header, film_header, television_header};

use crate::pixels::written_packing;
use ctl_base::Memory;

/// The bytes of the header.
pub const HEADER_SIZE: u32 = 2048;

/// A field as it is written: its size in bytes, and its number.
#[derive(Clone, Copy)]
pub struct FieldValue {
    size: u8,
    number: u64,
}

const fn field(size: u8, number: u64) -> FieldValue
    ensures { result ≡ record { size = size; number = number } }
{
    FieldValue { size, number }
}

const fn empty(size: u8) -> FieldValue
    ensures { result ≡ record { size = size; number = 0 } }
{
    FieldValue { size, number: 0 }
}

const UNDEFINED_8: FieldValue = FieldValue {
    size: 1,
    number: 0xFF,
};

const UNDEFINED_16: FieldValue = FieldValue {
    size: 2,
    number: 0xFFFF,
};

const UNDEFINED_32: FieldValue = FieldValue {
    size: 4,
    number: 0xFFFF_FFFF,
};

fn file_rows(file_size: u32) -> [FieldValue; 15]
    ensures { map plain result ≡ map sized (file_information file_size) }
{
    [
        field(4, 0x5344_5058), // magic number
        field(4, HEADER_SIZE as u64), // offset to image data
        field(8, 0x5631_2E30_0000_0000), // version number of header format
        field(4, file_size as u64), // total image file size
        field(4, 1), // ditto key
        field(4, 1664), // generic section header length
        field(4, 384), // industry specific header length
        field(4, 0), // user-defined header length
        empty(100), // image file name
        empty(24), // creation date and time
        empty(100), // creator
        empty(200), // project name
        empty(200), // right to use or copyright statement
        UNDEFINED_32, // encryption key
        empty(104), // reserved
    ]
}

fn image_rows(width: u32, height: u32) -> [FieldValue; 4]
    ensures { map plain result ≡ map sized (image_information width height) }
{
    [
        field(2, 0), // image orientation
        field(2, 1), // number of image elements
        field(4, width as u64), // pixels per line
        field(4, height as u64), // lines per image element
    ]
}

fn first_element_rows(depth: u8) -> [FieldValue; 15]
    requires { IsBitDepth depth }
    ensures { map plain result ≡ map sized (first_element depth) }
{
    let packing = written_packing(depth) as u64;
    [
        field(4, 0), // data sign
        field(4, 0), // reference low data code value
        UNDEFINED_32, // reference low quantity represented
        field(4, (1 << depth) - 1), // reference high data code value
        UNDEFINED_32, // reference high quantity represented
        field(1, 50), // descriptor
        field(1, 0), // transfer characteristic
        field(1, 0), // colorimetric specification
        field(1, depth as u64), // bit size
        field(2, packing), // packing
        field(2, 0), // encoding
        field(4, HEADER_SIZE as u64), // offset to data
        field(4, 0), // end-of-line padding
        field(4, 0), // end-of-image padding
        empty(32), // description of image element
    ]
}

fn unused_element_rows() -> [FieldValue; 15]
    ensures { map plain result ≡ map sized (unused_element 1) }
{
    [
        UNDEFINED_32, // data sign
        UNDEFINED_32, // reference low data code value
        UNDEFINED_32, // reference low quantity represented
        UNDEFINED_32, // reference high data code value
        UNDEFINED_32, // reference high quantity represented
        UNDEFINED_8, // descriptor
        UNDEFINED_8, // transfer characteristic
        UNDEFINED_8, // colorimetric specification
        UNDEFINED_8, // bit size
        UNDEFINED_16, // packing
        UNDEFINED_16, // encoding
        UNDEFINED_32, // offset to data
        UNDEFINED_32, // end-of-line padding
        UNDEFINED_32, // end-of-image padding
        empty(32), // description of image element
    ]
}

fn orientation_rows() -> [FieldValue; 18]
    ensures { map plain result ≡ map sized orientation_header }
{
    [
        empty(52), // reserved
        UNDEFINED_32, // x offset
        UNDEFINED_32, // y offset
        UNDEFINED_32, // x center
        UNDEFINED_32, // y center
        UNDEFINED_32, // x original size
        UNDEFINED_32, // y original size
        empty(100), // source image file name
        empty(24), // source image date and time
        empty(32), // input device name
        empty(32), // input device serial number
        UNDEFINED_16, // border validity
        UNDEFINED_16,
        UNDEFINED_16,
        UNDEFINED_16,
        UNDEFINED_32, // pixel aspect ratio
        UNDEFINED_32,
        empty(28), // reserved
    ]
}

fn film_rows() -> [FieldValue; 14]
    ensures { map plain result ≡ map sized film_header }
{
    [
        empty(2), // film manufacturer id code
        empty(2), // film type
        empty(2), // offset in perfs
        empty(6), // prefix
        empty(4), // count
        empty(32), // format
        UNDEFINED_32, // frame position in sequence
        UNDEFINED_32, // sequence length
        UNDEFINED_32, // held count
        UNDEFINED_32, // frame rate of original
        UNDEFINED_32, // shutter angle of camera
        empty(32), // frame identification
        empty(100), // slate information
        empty(56), // reserved
    ]
}

fn television_rows() -> [FieldValue; 17]
    ensures { map plain result ≡ map sized television_header }
{
    [
        UNDEFINED_32, // SMPTE time code
        UNDEFINED_32, // SMPTE user bits
        UNDEFINED_8, // interlace
        UNDEFINED_8, // field number
        UNDEFINED_8, // video signal standard
        UNDEFINED_8, // zero
        UNDEFINED_32, // horizontal sampling rate
        UNDEFINED_32, // vertical sampling rate
        UNDEFINED_32, // temporal sampling rate
        UNDEFINED_32, // time offset from sync to first pixel
        UNDEFINED_32, // gamma value
        UNDEFINED_32, // black level code value
        UNDEFINED_32, // black gain
        UNDEFINED_32, // breakpoint
        UNDEFINED_32, // reference white level code value
        UNDEFINED_32, // integration times
        empty(76), // reserved
    ]
}

// Byte k of a number, counted from the lowest.
fn byte_of(number: u64, k: u8) -> u8
    ensures { result ≡ byte_at k number }
{
    if k < 8 {
        ((number >> (8 * k)) % 256) as u8
    } else {
        0
    }
}

fn put_field(out: &mut Vec<u8>, field: FieldValue) -> Result<(), Memory>
    ensures { OnOk result (out.new.items ≡ out.old.items ++ bytes_of field) }
{
    let mut left = field.size;
    'bytes: while left > 0 {
        left -= 1;
        out.push(byte_of(field.number, left))?;
    }
    Ok(())
}

fn put_fields(out: &mut Vec<u8>, fields: &[FieldValue]) -> Result<(), Memory>
    ensures { OnOk result (out.new.items ≡ out.old.items ++ flat_map bytes_of fields.now) }
{
    'rows: for field in fields {
        put_field(out, *field)?;
    }
    Ok(())
}

fn put_unused_elements(out: &mut Vec<u8>) -> Result<(), Memory>
    ensures { OnOk result (out.new.items ≡ out.old.items ++ flat_map row_bytes (flat_map unused_element (range_with_len 1 7))) }
{
    'elements: for _k in 1..8u8 {
        put_fields(out, &unused_element_rows())?;
    }
    Ok(())
}

/// Appends the header of a file of so many bytes.
pub fn put_header(
    out: &mut Vec<u8>,
    file_size: u32,
    width: u32,
    height: u32,
    depth: u8,
) -> Result<(), Memory>
    requires { IsBitDepth depth }
    ensures { OnOk result (out.new.items ≡ out.old.items ++ flat_map row_bytes (header_rows file_size width height depth)) }
{
    put_fields(out, &file_rows(file_size))?;
    put_fields(out, &image_rows(width, height))?;
    put_fields(out, &first_element_rows(depth))?;
    put_unused_elements(out)?;
    put_fields(out, &orientation_rows())?;
    put_fields(out, &film_rows())?;
    put_fields(out, &television_rows())?;
    Ok(())
}
