//! How a run with a fault ends: what is written, on which device, and the status.

ghost use Rattle.std.specs.Prelude.{◌≡◌, true, false, option_map};
ghost use Rattle.pim_device.specs.Device.{AppendsAll, failures_after};
ghost use Rattle.pim_faults.specs.Ending.{is_shown, is_help, clap_text, own_text};
ghost use Rattle.pim_faults.specs.Ending.{written_text, IsAnswered, IsReported};
ghost use Rattle.pim_faults.specs.Words.{fault_text};
ghost use Rattle.pim_faults.specs.declared.fault.Fault.TheVariants.{Output};

use crate::fault::{Fault, fault_line};
use clap::error::ErrorKind;
use pim_addr::{Drain, Failed, write_all};

/// The status of a run with a fault.
pub const FAULTY: u8 = 2;

/// Whether `clap` shows what the words asked for: help or the version.
fn is_shown(fault: &pim_words::CommandFault<'_>) -> bool
    ensures { result ≡ is_shown fault.now }
{
    match fault {
        pim_words::CommandFault::Clap(refusal) => matches!(
            refusal.kind,
            ErrorKind::DisplayHelp | ErrorKind::DisplayVersion
        ),
        _ => false,
    }
}

/// Whether the fault is a request for help or for the version.
fn is_help(fault: &Fault<'_>) -> bool
    ensures { result ≡ is_help fault.now }
{
    match fault {
        Fault::Words(fault) => is_shown(fault),
        _ => false,
    }
}

/// `clap`'s own text of what it refuses or shows.
fn clap_text<'a>(fault: &'a pim_words::CommandFault<'_>) -> Option<&'a str>
    ensures { option_map (λ text. text.now) result ≡ clap_text fault.now }
{
    match fault {
        pim_words::CommandFault::Clap(refusal) => Some(refusal.text.as_str()),
        _ => None,
    }
}

/// The text of `clap` that the fault holds, if it holds one.
fn own_text<'a>(fault: &'a Fault<'_>) -> Option<&'a str>
    ensures { option_map (λ text. text.now) result ≡ own_text fault.now }
{
    match fault {
        Fault::Words(fault) => clap_text(fault),
        _ => None,
    }
}

/// Writes the text of a fault. Where the device fails, it took a prefix of the text.
fn write_fault_text<D: Drain>(fault: &Fault<'_>, device: &mut D) -> Result<(), Failed>
    ensures bytes { AppendsAll (D.contents device.old) (D.contents device.new) result
        (written_text fault.now) }
    ensures count { D.failures device.new ≡ failures_after (D.failures device.old) result }
{
    match own_text(fault) {
        Some(text) => write_all(device, text.as_bytes()),
        None => fault_line(fault, device),
    }
}

/// Writes a fault and returns the status of the run: 0 for help or the version, otherwise 2.
///
/// A fault of `clap` is written as `clap`'s own text, any other fault as its line. Help and the
/// version go to `output`. If that fails, the line `pimtree: output` goes to `errors`, and the
/// status is 2. Every other fault goes to `errors`; a failure of that device is ignored.
pub fn report_fault<W: Drain, E: Drain>(fault: &Fault<'_>, output: &mut W, errors: &mut E) -> u8
    ensures help_asked { is_help fault.now ≡ true → IsAnswered result (written_text fault.now)
        (W.contents output.old) (W.contents output.new) (W.failures output.old)
        (W.failures output.new) }
    ensures no_error { is_help fault.now ≡ true → result ≡ 0 → errors.new ≡ errors.old }
    ensures unwritten { is_help fault.now ≡ true → result ≡ 2 → IsReported (fault_text Output)
        (E.contents errors.old) (E.contents errors.new) (E.failures errors.old)
        (E.failures errors.new) }
    ensures mistake { is_help fault.now ≡ false → IsReported (written_text fault.now)
        (E.contents errors.old) (E.contents errors.new) (E.failures errors.old)
        (E.failures errors.new) }
    ensures no_output { is_help fault.now ≡ false → output.new ≡ output.old }
    ensures status { is_help fault.now ≡ false → result ≡ 2 }
{
    if !is_help(fault) {
        let _ = write_fault_text(fault, errors);
        return FAULTY;
    }
    match write_fault_text(fault, output) {
        Ok(()) => 0,
        Err(Failed) => {
            let _ = fault_line(&Fault::Output, errors);
            FAULTY
        }
    }
}
