// The 40-byte request record, decoded: little-endian numbers.
#![tactic(auto)]

ghost use Rattle.std.specs.Prelude.{◌≡◌, ◌+◌, ◌≤◌, length, take, drop};
ghost use Rattle.model.specs.Calls.{request_of, decode, reply_of};
ghost use Rattle.record.specs.Number.{NumberAt};

use model::{Refusal, Request};

pub const RECORD_BYTES: usize = 40;

// N bytes from a place on. Bytes and a place stay two parameters, as an index has them: a struct would be made for each field.
fn bytes_at<const N: usize>(bytes: &[u8], at: usize) -> [u8; N]
    requires { at + N ≤ length bytes.now }
    ensures { result ≡ take N (drop at bytes.now) }
{
    bytes[at..at + N].try_into().unwrap()
}

// Two sizes, as the library's conversions are: one loop over N bytes made a request check 313 instructions for 296.
fn u32_at(bytes: &[u8], at: usize) -> u64
    requires { at + 4 ≤ length bytes.now }
    ensures { NumberAt bytes.now at 4 result }
{
    u64::from(u32::from_le_bytes(bytes_at(bytes, at)))
}

pub fn u64_at(bytes: &[u8], at: usize) -> u64
    requires { at + 8 ≤ length bytes.now }
    ensures { NumberAt bytes.now at 8 result }
{
    u64::from_le_bytes(bytes_at(bytes, at))
}

// The fields of a whole record.
#[tactic(auto, unfolding(model::specs::Calls::request_of))]
pub fn fields(bytes: &[u8]) -> Request
    requires { length bytes.now ≡ 40 }
    ensures { result ≡ request_of bytes.now }
{
    Request {
        op: u32_at(bytes, 0),
        flags: u32_at(bytes, 4),
        object: u32_at(bytes, 8),
        pad: u32_at(bytes, 12),
        address: u64_at(bytes, 16),
        offset: u64_at(bytes, 24),
        size: u64_at(bytes, 32),
    }
}

// Rows 12, 13 and 14, or the request. Flags are 0, or those that are served.
#[tactic(auto, unfolding(model::specs::Rows::decide, model::specs::Calls::record_rows, model::specs::Calls::decode, model::specs::Rules::form_rows))]
pub fn decode(bytes: &[u8], served: u64) -> Result<Request, Refusal>
    ensures { reply_of result ≡ decode served bytes.now }
{
    if bytes.len() != RECORD_BYTES {
        return Err(Refusal::BadRecordLength);
    }
    let r = fields(bytes);
    rules::form_verdict(r, served)?;
    Ok(r)
}
