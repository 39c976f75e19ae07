//! Bytes that are copied into a buffer.

ghost use Rattle.std.specs.Prelude.{◌≡◌, ◌+◌, ◌≤◌, ◌++◌, length, take, drop};

/// Copies bytes to the front of a buffer. The rest is unchanged.
pub fn put_front(buffer: &mut [u8], bytes: &[u8])
    requires { length bytes.now ≤ length buffer.old }
    ensures { buffer.new ≡ bytes.now ++ drop (length bytes.now) buffer.old }
{
    let (front, _) = buffer.split_at_mut(bytes.len());
    front.copy_from_slice(bytes);
}

/// Copies bytes to a place in a buffer. The rest is unchanged.
pub(crate) fn put_at(buffer: &mut [u8], place: usize, bytes: &[u8])
    requires { place + length bytes.now ≤ length buffer.old }
    ensures { buffer.new ≡ take place buffer.old ++ (bytes.now
        ++ drop (length bytes.now) (drop place buffer.old)) }
{
    let (_, rest) = buffer.split_at_mut(place);
    put_front(rest, bytes);
}
