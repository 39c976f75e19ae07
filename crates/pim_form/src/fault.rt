//! Why no messages are made.

use pim_addr::{Family, write_text};
use std::fmt;
use thiserror::Error;

/// Why a form isn't packed, or two demands aren't compared.
#[derive(Debug, Drop, PartialEq, Eq, Error)]
pub enum FormFault<F: Family> {
    /// The star of this group, with all its exceptions, exceeds the budget of a message. It is the
    /// least such group.
    TooBig(F::Addr),
    /// An allocation was refused.
    Memory,
    /// The route tables of the two demands differ. `pack` never returns this fault.
    Tables,
}

impl<F: Family> fmt::Display for FormFault<F> {
    fn fmt<W: fmt::Write>(&self, f: &mut fmt::Formatter<W>) -> fmt::Result {
        match self {
            FormFault::TooBig(group) => {
                let mut text = [0; 39];
                let length = write_text::<F>(*group, &mut text);
                f.write_str("too big ")?;
                f.write_str(std::str::from_utf8(&text[..length]).map_err(|_| fmt::Error)?)
            }
            FormFault::Memory => f.write_str("memory"),
            FormFault::Tables => f.write_str("tables"),
        }
    }
}
