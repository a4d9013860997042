// Numbers written into a part of the output.
ghost use Rattle.std.specs.Prelude.{◌≡◌, ◌-◌, ◌^◌, ◌≤◌, ◌<◌, true, false, ◌++◌, length, drop, ltb};
ghost use Rattle.readers.specs.Numbers.{padded, fixed_bytes};
ghost use Rattle.readers.specs.Layout.{number_bytes};
ghost use Rattle.readers.specs.References.{encoded_by};
ghost use Rattle.rewriting.specs.Written.{groups_fit, padded_answer, padded_out};
ghost use Rattle.rewriting.specs.Inner.Written.{bytes_fit, number_fits, unfit, Put};
ghost use Rattle.rewriting.specs.Written.{over, put_in, number_there};

use readers::cursor::Cursor;
use readers::refusal::{Cause, Refusal};
use readers::tables::clear_bytes;

// Whether a number has at most so many digits.
fn fits(value: u64, base: u64, width: usize) -> bool
    requires { 0 < base }
    ensures { result ≡ ltb value (base ^ width) }
{
    let mut rest = value;
    for _i in 0..width {
        rest = rest / base;
    }
    rest == 0
}

// Whether a ULEB128 number goes into exactly so many bytes of a part of so many.
fn groups_fit(value: u64, width: usize, room: usize) -> bool
    ensures { result ≡ groups_fit value width room }
{
    width > 0 && width <= 10 && width <= room && fits(value, 128, width)
}

// A ULEB128 number in exactly so many bytes at the start of a part, each but the last with its high bit set: whether it
// fits; else the part stays as it is.
fn put_groups(value: u64, width: usize, out: &mut [u8]) -> bool
    ensures { Put (groups_fit value width (length out.old)) (padded (width - 1) value) width
        out.old out.old result out.new }
{
    if !groups_fit(value, width, out.len()) {
        return false;
    }
    let last = width - 1;
    let mut rest = value;
    for i in 0..last {
        out[i] = (rest % 128) as u8 + 128;
        rest = rest / 128;
    }
    out[last] = rest as u8;
    true
}

// Whether a number of a fixed width, at most eight bytes, goes into so many bytes of a part of so many.
pub(crate) fn bytes_fit(value: u64, width: usize, room: usize) -> bool
    ensures { result ≡ bytes_fit value width room }
{
    width <= 8 && width <= room && fits(value, 256, width)
}

// Writes a little-endian number at the start of a part that has room for it.
fn put_little_endian(value: u64, width: usize, out: &mut [u8])
    requires { width ≤ length out.old }
    ensures { out.new ≡ fixed_bytes false width value ++ drop width out.old }
{
    // Not one loop with put_big_endian: an order as an argument is a test at each byte.
    let mut rest = value;
    for i in 0..width {
        out[i] = (rest % 256) as u8;
        rest = rest / 256;
    }
}

// A number in so many bytes, at most eight, in a byte order: whether it fits; else the part stays as it is.
pub(crate) fn put_fixed(value: u64, width: usize, big_endian: bool, out: &mut [u8]) -> bool
    ensures { Put (bytes_fit value width (length out.old)) (fixed_bytes big_endian width value) width
        out.old out.old result out.new }
{
    if !bytes_fit(value, width, out.len()) {
        return false;
    }
    if big_endian {
        put_big_endian(out, 0, width, value);
        return true;
    }
    put_little_endian(value, width, out);
    true
}

// Writes a ULEB128 number in exactly so many bytes at the start of a slice, zeros after it (gc.rs: `write_uleb128_padded`).
// 15, and zeros, for a width of 0, above 10, below what the number needs or beyond the slice.
pub fn write_uleb128_padded(value: u64, width: usize, out: &mut [u8]) -> Result<(), Refusal>
    ensures answer { result ≡ padded_answer value width (length out.old) }
    ensures bytes { out.new ≡ padded_out value width (length out.old) }
{
    if put_groups(value, width, out) {
        clear_bytes(&mut out[width..]);
        return Ok(());
    }
    clear_bytes(out);
    Err(Refusal(Cause::PaddedWidth))
}

// Writes a number in its own encoding at the start of a part: whether it fits. A padded number has a part of exactly its
// width; the byte order is of fixed widths alone.
pub(crate) fn put_number(
    value: u64,
    width: usize,
    leb: bool,
    big_endian: bool,
    out: &mut [u8],
) -> bool
    ensures { Put (number_fits leb value width (length out.old))
        (number_bytes big_endian (encoded_by leb width) value) width
        out.old (unfit leb width out.old) result out.new }
{
    if leb {
        if width > out.len() {
            return false;
        }
        match write_uleb128_padded(value, width, &mut out[..width]) {
            Ok(()) => {
                return true;
            }
            Err(_) => {
                return false;
            }
        }
    }
    put_fixed(value, width, big_endian, out)
}

// Copies a run of bytes into the start of a part that has room for it; else the part stays as it is.
pub fn put_bytes(bytes: &[u8], out: &mut [u8])
    ensures { out.new ≡ over bytes.now out.old }
{
    // No copy_from_slice: it calls memmove, which the archive for C would need from outside.
    if bytes.len() <= out.len() {
        for i in 0..bytes.len() {
            out[i] = bytes[i];
        }
    }
}

// A big-endian number of so many bytes at a place; 0 where it is not there.
pub fn big_endian_at(s: &[u8], at: usize, width: usize) -> u64
    ensures { result ≡ number_there width s.now at }
{
    let c = Cursor { at };
    match c.fixed(s, width, true) {
        Some((value, _)) => value,
        None => 0,
    }
}

// Writes a big-endian number of so many bytes at a place; nothing where there is no room for it.
pub fn put_big_endian(s: &mut [u8], at: usize, width: usize, value: u64)
    ensures { s.new ≡ put_in s.old at (fixed_bytes true width value) }
{
    if at > s.len() || width > s.len() - at {
        return;
    }
    // No to_be_bytes: a number is written where it goes, and no array is made.
    let mut rest = value;
    for i in (0..width).rev() {
        s[at + i] = (rest % 256) as u8;
        rest = rest / 256;
    }
}
