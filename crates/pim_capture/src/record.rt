//! The parts of a capture, read one after the other.
//!
//! The buffer is filled with zeros in reserved room, since `resize` of the standard library doesn't
//! promise that the capacity stays.

ghost use Rattle.std.specs.Prelude.{◌≡◌, ◌≢◌, ◌+◌, ◌-◌, ◌<◌, ◌≤◌, ◌⊎◌, ℕ, length, take, drop, min};
ghost use Rattle.std.specs.Prelude.{max, Ok, Err, IfOk};
ghost use Rattle.std.specs.Prelude.{IfErr, OnOk, OnErr, IsErr, MatchResult, vec_len, vec_capacity};
ghost use Rattle.std.specs.Option.{option_map};
ghost use Rattle.pim_device.specs.Device.{ConsumesAtMost};
ghost use Rattle.pim_capture.specs.declared.event.Event.TheVariants.{End};
ghost use Rattle.pim_capture.specs.Frame.{judge_frame};
ghost use Rattle.pim_capture.specs.Capture.{records, millis_of, event_by, most_captured};
ghost use Rattle.pim_capture.specs.Parts.{BeginsWith, FillsExactly};
ghost use Rattle.pim_capture.specs.Next.{event_seen, seen, IsNext, IsRefusal, CountsReads};
ghost use Rattle.pim_capture.specs.Next.{OnMemory, most_taken};
ghost use Rattle.pim_capture.specs.Next.{PayloadLiesIn, IsBy, latest_moment, stated_length};
ghost use Rattle.pim_capture.specs.Next.{LacksRoom, FitsRecord};

use crate::event::Event;
use crate::fault::CaptureFault;
use crate::frame::judge;
use crate::header::{Format, Link, Resolution, read_header};
use pim_addr::{Feed, read_up_to};
use std::alloc::AllocError;

/// The greatest captured length of a record that is accepted, in bytes.
const MOST_CAPTURED: u32 = 262_144;

/// Reads the file header of a capture.
pub fn begin<R: Feed>(reader: &mut R) -> Result<Format, CaptureFault>
    ensures answer { BeginsWith (R.remaining reader.old) (R.remaining reader.new) result }
    ensures reads { CountsReads ⊥ (R.failures reader.old) (R.failures reader.new) result }
    ensures no_memory { OnMemory result ⊥ }
    ensures taken { ConsumesAtMost 24 (R.remaining reader.old) (R.remaining reader.new) }
{
    let mut header = [0; 24];
    let got = read_up_to(reader, &mut header)?;
    let (header, _) = header.split_at(got);
    read_header(header)
}

/// Sets the length of the buffer. It grows only if its capacity is less, and then to exactly this
/// length.
fn fit(buffer: &mut Vec<u8>, length: usize) -> Result<(), AllocError>
    ensures length { OnOk result (vec_len buffer.new ≡ length) }
    ensures capacity { OnOk result (vec_capacity buffer.new
        ≡ max (vec_capacity buffer.old) length) }
    ensures refused { OnErr result (vec_capacity buffer.old < length) }
    ensures same_length { OnErr result (vec_len buffer.new ≡ vec_len buffer.old) }
    ensures same_capacity { OnErr result (vec_capacity buffer.new ≡ vec_capacity buffer.old) }
{
    let more = length.saturating_sub(buffer.len());
    buffer.reserve_exact(more)?;
    buffer.truncate(length);
    while buffer.len() < length {
        buffer.push_reserved(0);
    }
    Ok(())
}

/// Reads exactly the next `length` bytes into the buffer.
fn read_frame<R: Feed>(
    reader: &mut R,
    length: usize,
    buffer: &mut Vec<u8>,
) -> Result<(), CaptureFault>
    ensures answer { FillsExactly length (R.remaining reader.old) (R.remaining reader.new)
        buffer.new.items result }
    ensures reads { CountsReads ⊥ (R.failures reader.old) (R.failures reader.new) result }
    ensures memory { OnMemory result (vec_capacity buffer.old < length) }
    ensures length { (vec_len buffer.new ≡ length)
        ⊎ (IsErr result × (vec_len buffer.new ≡ vec_len buffer.old)) }
    ensures capacity { vec_capacity buffer.new
        ≡ max (vec_capacity buffer.old) (vec_len buffer.new) }
    ensures not_long { result ≢ Err CaptureFault.TooLong }
    ensures taken { ConsumesAtMost length (R.remaining reader.old) (R.remaining reader.new) }
{
    fit(buffer, length)?;
    let got = read_up_to(reader, buffer.as_mut_slice())?;
    if got < length {
        return Err(CaptureFault::Truncated);
    }
    Ok(())
}

/// The time in a record's header, in milliseconds since 1970.
fn millis(format: Format, header: &[u8]) -> u64
    requires { length header.now ≡ 16 }
    ensures millis { result ≡ millis_of format header.now }
    ensures bound { result ≤ latest_moment }
{
    let seconds = format.endianness.read_u32(header);
    let fraction = format.endianness.read_u32_at(header, 4);
    let per_millisecond = match format.resolution {
        Resolution::Microseconds => 1_000,
        Resolution::Nanoseconds => 1_000_000,
    };
    u64::from(seconds) * 1_000 + u64::from(fraction / per_millisecond)
}

/// The event of a record with these bytes.
fn event_of(millis: u64, link: Link, frame: &[u8]) -> Event
    ensures event { event_seen frame.now result
        ≡ event_by millis frame.now (judge_frame link frame.now) }
    ensures payload { PayloadLiesIn frame.now result }
    ensures moment { IsBy millis result }
    ensures record { result ≢ End }
{
    match judge(link, frame) {
        Ok(ip) => Event::Packet { millis, ip },
        Err(why) => Event::Skipped { millis, why },
    }
}

/// Reads the next record into the buffer, where at most `left` more records may be read.
pub fn next_record<R: Feed>(
    reader: &mut R,
    format: Format,
    left: u32,
    buffer: &mut Vec<u8>,
) -> Result<Event, CaptureFault>
    ensures answer { IsRefusal (R.failures reader.old) (R.failures reader.new) result
        ⊎ IsNext (option_map (records left format) (R.remaining reader.old))
        (seen buffer.new.items result)
        (option_map (records (left - 1) format) (R.remaining reader.new)) }
    ensures reads { CountsReads (left ≡ 0) (R.failures reader.old) (R.failures reader.new) result }
    ensures memory { OnMemory result
        (LacksRoom (vec_capacity buffer.old)
        (option_map (stated_length left format) (R.remaining reader.old))) }
    ensures length { FitsRecord result (vec_len buffer.old) (vec_len buffer.new)
        (option_map (stated_length left format) (R.remaining reader.old)) }
    ensures capacity { vec_capacity buffer.new
        ≡ max (vec_capacity buffer.old) (vec_len buffer.new) }
    ensures payload { IfOk result (PayloadLiesIn buffer.new.items) }
    ensures moment { IfOk result (IsBy latest_moment) }
    ensures record { IfOk result (λ event. event ≡ End ⊎ 0 < left) }
    ensures taken { ConsumesAtMost (most_taken 16 result) (R.remaining reader.old)
        (R.remaining reader.new) }
{
    let mut header = [0; 16];
    let got = read_up_to(reader, &mut header)?;
    if got == 0 {
        return Ok(Event::End);
    }
    if left == 0 {
        return Err(CaptureFault::Read);
    }
    if got < 16 {
        return Err(CaptureFault::Truncated);
    }
    let length = format.endianness.read_u32_at(&header, 8);
    if length > MOST_CAPTURED {
        return Err(CaptureFault::TooLong);
    }
    read_frame(reader, length as usize, buffer)?;
    let millis = millis(format, &header);
    Ok(event_of(millis, format.link, buffer.as_slice()))
}
