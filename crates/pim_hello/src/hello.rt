//! A Hello message: read, and written.

ghost use Rattle.std.specs.Prelude.{◌≡◌, ◌==◌, ◌<◌, ◌≤◌, ◌^◌, [], None, length, not, IfOk};
ghost use Rattle.std.specs.Option.{unwrap_or};
ghost use Rattle.pim_addr.specs.declared.family.AddressFamily.{AddressFamily};
ghost use Rattle.pim_addr.specs.Faults.{fault_if, judged, Answers};
ghost use Rattle.pim_hello.specs.declared.fault.HelloKind.TheVariants.{OptionLength};
ghost use Rattle.pim_hello.specs.Options.{whole, content_at, behind_option};
ghost use Rattle.pim_hello.specs.Faults.{kinds_at, part_faults, faults};
ghost use Rattle.pim_hello.specs.Value.{delays_of, hello_of};
ghost use Rattle.pim_hello.specs.Delays.{delays_seen};
ghost use Rattle.pim_hello.specs.Seen.{hello_seen};
ghost use Rattle.pim_hello.specs.Kept.{parameters_seen};
ghost use Rattle.pim_hello.specs.Steps.{with_option};
ghost use Rattle.pim_hello.specs.Spelling.{parameters_spelled, ParametersFit, spelling_of, Fits};
ghost use Rattle.pim_hello.specs.Spelling.{ReadsBack};

use crate::addresses::Addresses;
use crate::delay::{LanDelay, T_BIT};
use crate::fault::{HelloFault, HelloKind};
use crate::option::{
    ADDRESS_LIST, DR_PRIORITY, GENERATION_ID, HOLDTIME, LAN_PRUNE_DELAY, first_option,
    read_number16, read_number32,
};
use crate::parameters::Parameters;
use crate::writing::{
    put_addresses, put_delays, put_number16, put_number32, size_addresses, size_delays,
    size_number16, size_number32,
};
use byteorder::{BigEndian, ByteOrder};
use pim_addr::Family;

/// A Hello message over the family `F` (RFC 7761, 4.9.2). Each option may be absent.
#[derive_where(Clone, Copy, Debug)]
pub struct Hello<'a, F> {
    /// How long the sender is kept as a neighbour, in seconds: 0 is a goodbye, 65,535 is forever.
    pub holdtime: Option<u16>,
    /// The LAN Prune Delay: the sender's delays.
    pub lan: Option<LanDelay>,
    /// The DR Priority: the highest wins the election of a designated router.
    pub priority: Option<u32>,
    /// The Generation ID, which the sender chooses anew whenever it starts.
    pub generation: Option<u32>,
    /// The sender's secondary addresses. A message with none has no Address List.
    pub addresses: Addresses<'a, F>,
}

/// Default_Hello_Holdtime, in seconds (RFC 7761, 4.11).
const DEFAULT_HOLDTIME: u16 = 105;

/// Reads the value of a LAN Prune Delay option.
fn read_delays(value: &[u8]) -> Result<LanDelay, HelloKind>
    ensures { Answers delays_seen result
        (judged (fault_if (not (length value.now == 4)) OptionLength) (delays_of value.now)) }
{
    if value.len() != 4 {
        return Err(HelloKind::OptionLength);
    }
    let delay = BigEndian::read_u16(value);
    let (_, interval) = value.split_at(2);
    Ok(LanDelay {
        t: delay >= T_BIT,
        propagation: delay % T_BIT,
        override_ms: BigEndian::read_u16(interval),
    })
}

impl<'a, F: Family> Hello<'a, F> {
    /// A message without options.
    pub fn empty() -> Hello<'a, F>
        ensures { hello_seen F.family result ≡ record {
          parameters = record { holdtime = None; lan = None; priority = None; generation = None };
          addresses = [];
        } }
    {
        Hello {
            holdtime: None,
            lan: None,
            priority: None,
            generation: None,
            addresses: Addresses::none(),
        }
    }

    /// The message with this option in place of an earlier one of its type. An option of an unknown
    /// type is skipped.
    #[tactic(auto, unfolding(crate::specs::Steps::with_option))]
    fn with_option(mut self, type_code: u16, value: &'a [u8]) -> Result<Hello<'a, F>, HelloKind>
        requires { length value.now < 2 ^ 16 }
        ensures { Answers (hello_seen F.family) result
            (judged (kinds_at (whole type_code value.now))
            (with_option F.family (whole type_code value.now) (hello_seen F.family self.entry))) }
    {
        match type_code {
            HOLDTIME => self.holdtime = Some(read_number16(value)?),
            LAN_PRUNE_DELAY => self.lan = Some(read_delays(value)?),
            DR_PRIORITY => self.priority = Some(read_number32(value)?),
            GENERATION_ID => self.generation = Some(read_number32(value)?),
            ADDRESS_LIST => self.addresses = Addresses::in_row(value).ok_or(HelloKind::Address)?,
            _ => {}
        }
        Ok(self)
    }

    /// Adds the option at the front, which is at the offset `at` in the body, and returns the bytes
    /// after it.
    fn take_option(&mut self, at: usize, bytes: &'a [u8]) -> Result<&'a [u8], HelloFault>
        ensures answer { Answers (λ _. hello_seen F.family self.new) result
            (judged (part_faults (record { at = at; content = content_at bytes.now }))
            (with_option F.family (content_at bytes.now) (hello_seen F.family self.old))) }
        ensures behind { IfOk result (λ behind. behind.now ≡ behind_option bytes.now) }
    {
        let short = HelloFault {
            at,
            kind: HelloKind::Short,
        };
        let option = first_option(bytes).ok_or(short)?;
        *self = self
            .with_option(option.type_code, option.value)
            .map_err(|kind| HelloFault { at, kind })?;
        Ok(option.behind)
    }

    /// Reads the body of a Hello. Options of unknown types are skipped, and the last of a repeated
    /// option counts.
    ///
    /// # Errors
    /// The fault of least offset; of several kinds at one option, the first in the order of
    /// `HelloKind`.
    pub fn read(body: &'a [u8]) -> Result<Hello<'a, F>, HelloFault>
        ensures { Answers (hello_seen F.family) result
            (judged (faults body.now) (hello_of F.family body.now)) }
    {
        let mut hello = Hello::empty();
        let mut rest = body;
        while !rest.is_empty() {
            let at = body.len() - rest.len();
            rest = hello.take_option(at, rest)?;
        }
        Ok(hello)
    }

    /// How long the sender is kept as a neighbour, in seconds: 105 if the message has no Holdtime.
    pub fn holdtime_seconds(&self) -> u16
        ensures { result ≡ unwrap_or self.now.holdtime 105 }
    {
        self.holdtime.unwrap_or(DEFAULT_HOLDTIME)
    }

    /// The options without the Address List, which are kept of the sender.
    pub fn parameters(&self) -> Parameters
        ensures { parameters_seen result ≡ (hello_seen F.family self.now).parameters }
    {
        Parameters {
            holdtime: self.holdtime,
            lan: self.lan,
            priority: self.priority,
            generation: self.generation,
        }
    }

    /// The length in bytes of the message's body.
    pub fn length(&self) -> usize
        ensures { result ≡ length (spelling_of F.family (hello_seen F.family self.now)) }
    {
        self.parameters_length() + size_addresses(self.addresses)
    }

    /// The length in bytes of the options without the Address List.
    fn parameters_length(&self) -> usize
        ensures length { result
            ≡ length (parameters_spelled (hello_seen F.family self.now).parameters) }
        ensures small { result ≤ 32 }
    {
        size_number16(self.holdtime)
            + size_delays(self.lan)
            + size_number32(self.priority)
            + size_number32(self.generation)
    }

    /// Writes the options without the Address List.
    fn put_parameters(&self, out: &mut [u8])
        requires { length out.old
            ≡ length (parameters_spelled (hello_seen F.family self.now).parameters) }
        ensures spelled { out.new ≡ parameters_spelled (hello_seen F.family self.now).parameters }
        ensures fits { ParametersFit (hello_seen F.family self.now).parameters }
    {
        let (holdtime, out) = out.split_at_mut(size_number16(self.holdtime));
        let (lan, out) = out.split_at_mut(size_delays(self.lan));
        let (priority, generation) = out.split_at_mut(size_number32(self.priority));
        put_number16(HOLDTIME, self.holdtime, holdtime);
        put_delays(self.lan, lan);
        put_number32(DR_PRIORITY, self.priority, priority);
        put_number32(GENERATION_ID, self.generation, generation);
    }

    /// Writes the message's body into a slice of `length` bytes: the options that are present, in
    /// ascending order of their types.
    pub fn put(&self, body: &mut [u8])
        requires { length body.old ≡ length (spelling_of F.family (hello_seen F.family self.now)) }
        ensures spelled { body.new ≡ spelling_of F.family (hello_seen F.family self.now) }
        ensures fits { Fits F.family (hello_seen F.family self.now) }
    {
        let (parameters, addresses) = body.split_at_mut(self.parameters_length());
        self.put_parameters(parameters);
        put_addresses(self.addresses, addresses);
    }
}

/// What is written is read without a fault and as the same message.
pub fn reads_back()
    ensures { (family : AddressFamily) → ReadsBack family }
{}
