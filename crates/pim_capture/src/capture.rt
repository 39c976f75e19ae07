//! A capture that is read record by record.

ghost use Rattle.std.specs.Prelude.{◌≡◌, ◌+◌, ◌<◌, IfOk, max, vec_len, vec_capacity, ◌⊎◌};
ghost use Rattle.pim_device.specs.Device.{ConsumesAtMost};
ghost use Rattle.std.specs.Option.{option_map};
ghost use Rattle.pim_capture.specs.declared.capture.CaptureState.TheVariants.{Unbegun};
ghost use Rattle.pim_capture.specs.Capture.{answers};
ghost use Rattle.pim_capture.specs.Next.{coming, seen, reader_of, state_of, IsNext, IsRefusal};
ghost use Rattle.pim_capture.specs.Next.{CountsReads};
ghost use Rattle.pim_capture.specs.Next.{CountsRecord, records_left, most_taken, OnMemory};
ghost use Rattle.pim_capture.specs.Next.{IsRepeated, StaysOver};
ghost use Rattle.pim_capture.specs.Next.{PayloadLiesIn, IsBy, latest_moment, next_length};
ghost use Rattle.pim_capture.specs.Next.{LacksRoom};
ghost use Rattle.pim_capture.specs.Next.{FitsRecord};

use crate::event::Event;
use crate::fault::CaptureFault;
use crate::header::Format;
use crate::record::{begin, next_record};
use pim_addr::Feed;

/// The greatest number of records that are read of a capture.
const MOST_RECORDS: u32 = 4_294_967_295;

/// How far a capture was read.
#[derive(Clone, Copy, Debug)]
pub enum CaptureState {
    /// Nothing was read.
    Unbegun,
    /// The file header, and none or some records, were read.
    Records {
        /// What its header says.
        format: Format,
        /// The number of records that may still be read.
        left: u32,
    },
    /// No record is left.
    Ended,
    /// A call returned a fault.
    Failed,
}

/// A classic pcap capture, read record by record from any reader.
#[derive(Debug, Drop)]
pub struct Capture<R> {
    reader: R,
    state: CaptureState,
}

impl<R: Feed> Capture<R> {
    /// A capture of which nothing was read.
    pub fn new(reader: R) -> Self
        ensures reader { reader_of result ≡ reader }
        ensures state { state_of result ≡ Unbegun }
        ensures coming { coming R.remaining result ≡ option_map answers (R.remaining reader) }
    {
        Capture {
            reader,
            state: CaptureState::Unbegun,
        }
    }

    /// Reads the next record. The buffer then has its length and, after a packet, its bytes.
    ///
    /// The buffer grows only if its capacity is less than that length, and then to exactly that
    /// length. Times are at most 4,294,971,589,967 ms. After the last record every call returns
    /// `End`.
    ///
    /// # Errors
    /// The first fault of the bytes, a failed read, or refused memory. Later calls return `Failed`.
    pub fn next(&mut self, buffer: &mut Vec<u8>) -> Result<Event, CaptureFault>
        // Where the bytes of the reader are known, the results are those of the file, in order.
        ensures answer { IsRefusal (R.failures (reader_of self.old))
            (R.failures (reader_of self.new)) result
            ⊎ IsNext (coming R.remaining self.old) (seen buffer.new.items result)
            (coming R.remaining self.new) }
        ensures reads { CountsReads (records_left (state_of self.old) ≡ 0)
            (R.failures (reader_of self.old)) (R.failures (reader_of self.new)) result }
        ensures record { CountsRecord result (records_left (state_of self.old))
            (records_left (state_of self.new)) }
        // A record that is too long is refused before its bytes are read.
        ensures taken { ConsumesAtMost (most_taken 40 result)
            (R.remaining (reader_of self.old)) (R.remaining (reader_of self.new)) }
        // Memory is refused only if the buffer has less room than the next record needs. If the
        // bytes are known, that record's header is whole.
        ensures memory { OnMemory result
            (LacksRoom (vec_capacity buffer.old) (next_length R.remaining self.old)) }
        ensures length { FitsRecord result (vec_len buffer.old) (vec_len buffer.new)
            (next_length R.remaining self.old) }
        ensures capacity { vec_capacity buffer.new
            ≡ max (vec_capacity buffer.old) (vec_len buffer.new) }
        ensures payload { IfOk result (PayloadLiesIn buffer.new.items) }
        ensures moment { IfOk result (IsBy latest_moment) }
        ensures repeated { IsRepeated (state_of self.old) result }
        ensures over { StaysOver result (state_of self.new) }
    {
        let state = self.state;
        self.state = CaptureState::Failed;
        let (format, left) = match state {
            CaptureState::Unbegun => (begin(&mut self.reader)?, MOST_RECORDS),
            CaptureState::Records { format, left } => (format, left),
            CaptureState::Ended => {
                self.state = CaptureState::Ended;
                return Ok(Event::End);
            }
            CaptureState::Failed => return Err(CaptureFault::Failed),
        };
        let event = next_record(&mut self.reader, format, left, buffer)?;
        self.state = match event {
            Event::End => CaptureState::Ended,
            _ => CaptureState::Records {
                format,
                left: left - 1,
            },
        };
        Ok(event)
    }

    /// Calls `pass_record` of the reader. The capture stays as it is.
    pub fn pass_record(&mut self)
        ensures coming { coming R.remaining self.new ≡ coming R.remaining self.old }
        ensures next_length { next_length R.remaining self.new ≡ next_length R.remaining self.old }
        ensures failures { R.failures (reader_of self.new) ≡ R.failures (reader_of self.old) }
        ensures state { state_of self.new ≡ state_of self.old }
    {
        self.reader.pass_record();
    }
}
