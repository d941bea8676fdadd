//! What a stop leaves of the bytes of one area, by a record of what touched it.
ghost use Rattle.std.specs.Prelude.{◌≡◌, ◌<◌, ◌≤◌, ℕ, length, map, reverse, true, false, IfOk, option_map};
ghost use Rattle.host_memory.specs.Touches.{Touch, before_of, range_of, syncs, undone, synced, spoil, half_of, spoilt, picked, bytes_stopped};

use base_model::OutOfMemory;
use std::alloc::Global;

/// The byte that stands for any byte.
pub const SPOILT: u8 = 7;

/// What is recorded of writes and syncs.
pub trait Touches {
    /// The event as the area of this number sees it.
    ghost touch: { ℕ → Self → Touch };

    /// The bytes of the area before this event, if it wrote there.
    fn before(&self, area: u8) -> Option<&[u8]>
        ensures { option_map (λ bytes. bytes.now) result ≡ before_of (touch area self.now) };

    /// Where it wrote in the area, and how many bytes, if it wrote there.
    fn range(&self, area: u8) -> Option<(u64, u64)>
        ensures { result ≡ range_of (touch area self.now) };

    /// Whether it synced the area.
    fn syncs(&self, area: u8) -> bool
        ensures { result ≡ syncs (touch area self.now) };
}

/// The bytes of an area before these events.
pub fn undone<'a, E: Touches>(events: &'a [E], area: u8, now: &'a [u8]) -> &'a [u8]
    ensures { result.now ≡ undone now.now (map (E.touch area) (reverse events.now)) }
{
    let Some((last, earlier)) = events.split_last() else {
        return now;
    };
    match last.before(area) {
        Some(before) => undone(earlier, area, before),
        None => undone(earlier, area, now),
    }
}

// The bytes of an area at its last sync.
fn synced<'a, E: Touches>(events: &'a [E], area: u8, now: &'a [u8]) -> &'a [u8]
    ensures { result.now ≡ synced now.now (map (E.touch area) (reverse events.now)) }
{
    let Some((last, earlier)) = events.split_last() else {
        return now;
    };
    if last.syncs(area) {
        return now;
    }
    match last.before(area) {
        Some(before) => synced(earlier, area, before),
        None => synced(earlier, area, now),
    }
}

// Spoils the bytes from a place on and before another.
fn spoil(bytes: &mut [u8], from: u128, to: u128)
    ensures { bytes.new ≡ spoil from to bytes.old }
{
    let len = bytes.len() as u128;
    let start = from.min(len) as usize;
    let end = to.min(len) as usize;
    if start < end {
        bytes[start..end].fill(SPOILT);
    }
}

// How far into a range its second half begins, or the whole.
fn half_of(half: bool, len: u64) -> u64
    ensures { result ≡ half_of half len }
{
    if half { len / 2 } else { 0 }
}

// Spoils each range that was written since the last sync, or its second half.
fn spoil_written<E: Touches>(events: &[E], area: u8, half: bool, bytes: &mut [u8])
    ensures { bytes.new ≡ spoilt half bytes.old (map (E.touch area) (reverse events.now)) }
{
    let Some((last, earlier)) = events.split_last() else {
        return;
    };
    if last.syncs(area) {
        return;
    }
    if let Some((at, len)) = last.range(area) {
        let from = at as u128 + half_of(half, len) as u128;
        spoil(bytes, from, at as u128 + len as u128);
    }
    spoil_written(earlier, area, half, bytes);
}

// The bytes that are picked of what a stop behind these events leaves of an area.
fn picked<E: Touches>(
    alloc: Global,
    events: &[E],
    area: u8,
    now: &[u8],
    pick: u8,
) -> Result<Vec<u8>, OutOfMemory>
    requires { pick < 4 }
    ensures { IfOk result (λ bytes. bytes.items ≡ picked pick now.now (map (E.touch area) (reverse events.now))) }
{
    if pick == 0 {
        return Ok(synced(events, area, now).to_vec(alloc)?);
    }
    let mut bytes = now.to_vec(alloc)?;
    if pick > 1 {
        spoil_written(events, area, pick == 3, &mut bytes);
    }
    Ok(bytes)
}

/// The bytes that are picked of what a stop behind so many of the events leaves of an area, which reads as these now.
pub fn stopped<E: Touches>(
    alloc: Global,
    events: &[E],
    area: u8,
    now: &[u8],
    after: u64,
    pick: u8,
) -> Result<Vec<u8>, OutOfMemory>
    requires after { after ≤ length events.now }
    requires pick { pick < 4 }
    ensures { IfOk result (λ bytes. bytes.items ≡ bytes_stopped (E.touch area) after pick now.now events.now) }
{
    let (then, later) = events.split_at(after as usize);
    let read = undone(later, area, now);
    picked(alloc, then, area, read, pick)
}
