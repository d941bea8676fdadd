//! The records of a journal.
ghost use Rattle.std.specs.Prelude.{◌≡◌, ◌≤◌, ◌<◌, ◌+◌, length, drop, Some, None, IfOk, IfSome, true};
ghost use Rattle.net_image.specs.Form.{number};
ghost use Rattle.call_journal.specs.Records.{sized_call, open_record, is_open};
ghost use Rattle.call_journal.specs.Reading.{Reads};

use crate::fault::RecordFault;
use crate::read::read_call;
use net_model::Call;
use std::alloc::Global;

/// Whether an open gate stands at a place.
pub(crate) fn is_open_at(bytes: &[u8], at: usize) -> bool
    ensures { result ≡ is_open (drop at bytes.now) }
{
    at < bytes.len() && bytes[at] == 1
}

// The number in two bytes at a place, and the place behind it.
fn u16_at(bytes: &[u8], at: usize) -> Option<(u16, usize)>
    requires { at ≤ length bytes.now }
    ensures read { IfSome result (λ f. (number 2).read (drop at bytes.now) ≡ Some (f.0, drop f.1 bytes.now)) }
    ensures none { result ≡ None → (number 2).read (drop at bytes.now) ≡ None }
    ensures within { IfSome result (λ f. (at ≤ f.1) × (f.1 ≤ length bytes.now)) }
{
    if bytes.len() - at < 2 {
        return None;
    }
    Some((u16::from_be_bytes([bytes[at], bytes[at + 1]]), at + 2))
}

// The call that begins with its length at a place, and the place behind it.
#[tactic(auto, using(crate::proofs::lemmas::Record::sized_no_number))]
fn sized_call_at(alloc: Global, bytes: &[u8], at: usize) -> Result<(Call, usize), RecordFault>
    requires { at ≤ length bytes.now }
    ensures read { Reads sized_call bytes.now at result }
    ensures within { IfOk result (λ f. f.1 ≤ length bytes.now) }
    ensures further { IfOk result (λ f. at ≤ f.1) }
{
    let (size, from) = match u16_at(bytes, at) {
        Some(found) => found,
        None => return Err(RecordFault::Bad),
    };
    let size = size as usize;
    if bytes.len() - from < size {
        return Err(RecordFault::Bad);
    }
    let behind = from + size;
    match read_call(alloc, &bytes[from..behind]) {
        Ok(call) => Ok((call, behind)),
        Err(fault) => Err(fault),
    }
}

/// The call of the record whose open gate stands at a place, and the place behind the record.
pub(crate) fn record_at(
    alloc: Global,
    bytes: &[u8],
    at: usize,
) -> Result<(Call, usize), RecordFault>
    requires { is_open (drop at bytes.now) ≡ true }
    ensures read { Reads open_record bytes.now at result }
    ensures within { IfOk result (λ f. f.1 ≤ length bytes.now) }
    ensures further { IfOk result (λ f. at < f.1) }
{
    sized_call_at(alloc, bytes, at + 1)
}
