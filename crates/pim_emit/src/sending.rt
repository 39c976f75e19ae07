//! Messages written to a device, each after its length. 64 bits suffice for the count of bytes,
//! since a form has at most 6,400,000 units.

ghost use Rattle.std.specs.Prelude.{◌≡◌, ◌+◌, ◌-◌, ◌≤◌, ◌<◌, ◌^◌, length, take, OnOk};
ghost use Rattle.std.specs.Io.KnownBytes.{Appends};
ghost use Rattle.pim_device.specs.Device.{failures_after};
ghost use Rattle.pim_emit.specs.Written.{framed};

use byteorder::{BigEndian, ByteOrder};
use pim_device::{Drain, Failed};

/// Sends bytes, up to the first failure, and adds the number that went out to `sent`.
fn send<D: Drain>(out: &mut D, bytes: &[u8], sent: &mut u64) -> Result<(), Failed>
    requires { sent.old + length bytes.now < 2 ^ 64 }
    ensures rises { sent.old ≤ sent.new }
    ensures most { sent.new ≤ sent.old + length bytes.now }
    ensures all { OnOk result (sent.new ≡ sent.old + length bytes.now) }
    ensures bytes { Appends (D.contents out.old) (D.contents out.new)
        (take (sent.new - sent.old) bytes.now) }
    ensures count { D.failures out.new ≡ failures_after (D.failures out.old) result }
{
    let mut taken = 0;
    while taken < bytes.len() {
        let (_, rest) = bytes.split_at(taken);
        let more = out.write(rest)?;
        taken += more;
        *sent += more as u64;
    }
    Ok(())
}

/// Sends a message after two bytes of its length, up to the first failure.
pub(crate) fn send_framed<D: Drain>(
    out: &mut D,
    message: &[u8],
    sent: &mut u64,
) -> Result<(), Failed>
    requires short { length message.now < 2 ^ 16 }
    requires room { sent.old + length message.now + 2 < 2 ^ 64 }
    ensures rises { sent.old ≤ sent.new }
    ensures most { sent.new ≤ sent.old + length (framed message.now) }
    ensures all { OnOk result (sent.new ≡ sent.old + length (framed message.now)) }
    ensures bytes { Appends (D.contents out.old) (D.contents out.new)
        (take (sent.new - sent.old) (framed message.now)) }
    ensures count { D.failures out.new ≡ failures_after (D.failures out.old) result }
{
    let mut length = [0; 2];
    BigEndian::write_u16(&mut length, message.len() as u16);
    send(out, &length, sent)?;
    send(out, message, sent)
}
