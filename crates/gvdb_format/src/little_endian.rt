//! Numbers in a file: little-endian, at any place.
ghost use Rattle.std.specs.Prelude.{◌≡◌, ◌+◌, ◌<◌, ◌≤◌, ◌++◌, OnOk, length};
ghost use Rattle.gv_model.specs.BasicValue.{number_in};
ghost use Rattle.gv_model.specs.Encode.{number_bytes};
ghost use Rattle.dconf_model.specs.Bytes.{u32_at, u16_at, u8_at};

use byteorder::{ByteOrder, LittleEndian};
use std::alloc::AllocError;

/// How many bytes an item's number has in a list.
pub const NUMBER_LEN: usize = 4;

/// The number in the four bytes from there on.
#[inline(always)]
pub fn read_u32(file: &[u8], at: usize) -> u32
    requires { at + 4 ≤ length file.now }
    ensures { result ≡ u32_at file.now at }
{
    LittleEndian::read_u32(&file[at..at + 4])
}

/// The number in the two bytes from there on.
#[inline(always)]
pub(crate) fn read_u16(file: &[u8], at: usize) -> u16
    requires { at + 2 ≤ length file.now }
    ensures { result ≡ u16_at file.now at }
{
    LittleEndian::read_u16(&file[at..at + 2])
}

/// The byte there.
#[tactic(auto, unfolding(dconf_model::specs::Bytes::u8_at))]
#[inline(always)]
pub(crate) fn read_u8(file: &[u8], at: usize) -> u8
    requires { at < length file.now }
    ensures { result ≡ u8_at file.now at }
{
    file[at]
}

/// The number in four bytes.
#[inline(always)]
pub fn number(bytes: &[u8; NUMBER_LEN]) -> u32
    ensures { result ≡ number_in bytes.now }
{
    LittleEndian::read_u32(bytes)
}

/// Appends a number of four bytes, the lowest byte first.
#[tactic(auto, using(crate::proofs::Numbers::appended, gv_model::proofs::NumberBytes::low_bytes))]
pub fn push_u32(number: u32, out: &mut Vec<u8>) -> Result<(), AllocError>
    ensures { OnOk result (out.new.items ≡ out.old.items ++ number_bytes 4 number) }
{
    out.extend_from_slice(&number.to_le_bytes())
}
