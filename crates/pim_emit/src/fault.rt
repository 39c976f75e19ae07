//! Why canonical messages aren't written.

use pim_addr::{Family, write_text};
use std::fmt;
use thiserror::Error;

/// Why the canonical messages aren't written, or not all of them.
#[derive(Debug, Drop, PartialEq, Eq, Error)]
pub enum WriteFault<F: Family> {
    /// The star of this group, with all its exceptions, is too big for a message of the writer's
    /// budget. It is the least such group, and nothing was written.
    TooBig(F::Addr),
    /// The device failed.
    Output {
        /// The number of bytes that it took in this call.
        sent: u64,
    },
}

impl<F: Family> fmt::Display for WriteFault<F> {
    fn fmt<W: fmt::Write>(&self, f: &mut fmt::Formatter<W>) -> fmt::Result {
        match self {
            WriteFault::TooBig(group) => {
                let mut text = [0; 39];
                let length = write_text::<F>(*group, &mut text);
                f.write_str("too big ")?;
                f.write_str(std::str::from_utf8(&text[..length]).map_err(|_| fmt::Error)?)
            }
            WriteFault::Output { sent } => write!(f, "the device failed behind {sent} bytes"),
        }
    }
}
