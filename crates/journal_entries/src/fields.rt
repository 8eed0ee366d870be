//! Fields at the front of bytes: a value and the bytes behind it.

ghost use Rattle.std.specs.Prelude.{◌≡◌, Ok};
ghost use Rattle.std.specs.Int.{w16, w32, w64};
ghost use Rattle.std.specs.Str.{is_utf8};
ghost use Rattle.journal_entries.specs.Reading.{Gives, byte_at, number_at, bytes_at, signed_at, name_at};

use crate::entry::Bytes;
use crate::fault::ReadError;
use row_types::tier_base::Seq;
use std::alloc::Global;

#[tactic(auto, unfolding(crate::specs::Reading::byte_at))]
pub(crate) fn byte_at(bytes: &[u8]) -> Result<(u8, &[u8]), ReadError>
    ensures { Gives (λ x. (x.0, x.1.now)) result (byte_at bytes.now) }
{
    match bytes {
        [] => Err(ReadError::Bad),
        [first, rest @ ..] => Ok((*first, rest)),
    }
}

#[tactic(auto, unfolding(crate::specs::Reading::number_at))]
pub(crate) fn u16_at(bytes: &[u8]) -> Result<(u16, &[u8]), ReadError>
    ensures { Gives (λ x. (x.0, x.1.now)) result (number_at w16 bytes.now) }
{
    if bytes.len() < 2 {
        return Err(ReadError::Bad);
    }
    let (front, rest) = bytes.split_at(2);
    let number = u16::from_be_bytes([front[0], front[1]]);
    Ok((number, rest))
}

#[tactic(auto, unfolding(crate::specs::Reading::number_at))]
pub(crate) fn u32_at(bytes: &[u8]) -> Result<(u32, &[u8]), ReadError>
    ensures { Gives (λ x. (x.0, x.1.now)) result (number_at w32 bytes.now) }
{
    if bytes.len() < 4 {
        return Err(ReadError::Bad);
    }
    let (front, rest) = bytes.split_at(4);
    let number = u32::from_be_bytes([front[0], front[1], front[2], front[3]]);
    Ok((number, rest))
}

#[tactic(auto, unfolding(crate::specs::Reading::number_at))]
pub(crate) fn u64_at(bytes: &[u8]) -> Result<(u64, &[u8]), ReadError>
    ensures { Gives (λ x. (x.0, x.1.now)) result (number_at w64 bytes.now) }
{
    if bytes.len() < 8 {
        return Err(ReadError::Bad);
    }
    let (front, rest) = bytes.split_at(8);
    let number = u64::from_be_bytes([
        front[0], front[1], front[2], front[3], front[4], front[5], front[6], front[7],
    ]);
    Ok((number, rest))
}

#[tactic(auto, unfolding(crate::specs::Reading::signed_at))]
pub(crate) fn i64_at(bytes: &[u8]) -> Result<(i64, &[u8]), ReadError>
    ensures { Gives (λ x. (x.0, x.1.now)) result (signed_at bytes.now) }
{
    let (number, rest) = u64_at(bytes)?;
    Ok((number.cast_signed(), rest))
}

/// So many bytes.
#[tactic(auto, unfolding(crate::specs::Reading::bytes_at))]
pub(crate) fn bytes_at(len: usize, bytes: &[u8]) -> Result<(&[u8], &[u8]), ReadError>
    ensures { Gives (λ x. (x.0.now, x.1.now)) result (bytes_at len bytes.now) }
{
    if bytes.len() < len {
        return Err(ReadError::Bad);
    }
    Ok(bytes.split_at(len))
}

/// A copy of so many bytes.
#[tactic(auto, unfolding(crate::specs::Reading::bytes_at))]
pub(crate) fn copy_at(alloc: Global, len: usize, bytes: &[u8]) -> Result<(Bytes, &[u8]), ReadError>
    ensures { Gives (λ x. (x.0, x.1.now)) result (bytes_at len bytes.now) }
{
    let (front, rest) = bytes_at(len, bytes)?;
    let copy = Vec::from_slice(alloc, front)?;
    Ok((Seq::from_vec(copy), rest))
}

/// A name: a length byte and its bytes.
#[tactic(auto, unfolding(crate::specs::Reading::name_at))]
pub(crate) fn name_at(alloc: Global, bytes: &[u8]) -> Result<(Bytes, &[u8]), ReadError>
    ensures { Gives (λ x. (x.0, x.1.now)) result (name_at bytes.now) }
{
    let (len, rest) = byte_at(bytes)?;
    copy_at(alloc, len as usize, rest)
}

/// Whether the bytes are UTF-8.
pub(crate) fn is_text(bytes: &[u8]) -> bool
    ensures { result ≡ is_utf8 bytes.now }
{
    match str::from_utf8(bytes) {
        Ok(_) => true,
        Err(_) => false,
    }
}
