//! What is known of upstream neighbours and RPs, message by message.

ghost use Rattle.std.specs.Prelude.{◌≡◌, ◌<◌, ◌≤◌, max, length, IfOk, IfSome, is_some, true, List};
ghost use Rattle.std.specs.Prelude.{ℕ};
ghost use Rattle.std.specs.Prelude.{vec_len, vec_capacity, None, option_map};
ghost use Rattle.pim_jp.specs.Seen.{entry_seen};
ghost use Rattle.pim_summary.specs.Lists.{Ascends, keeps, listed, spare_of};
ghost use Rattle.pim_summary.specs.Routers.{more, no_joins, one_joined, rp_address, rps_seen};
ghost use Rattle.pim_summary.specs.Routers.{with_rp, with_entry, with_entries, with_sets};
ghost use Rattle.pim_summary.specs.Routers.{joined_in, pruned_in, new_upstream, after_message};
ghost use Rattle.pim_summary.specs.Routers.{upstream_address, more_joined, most_joined, rp_of};

use crate::facts::{RpFacts, UpstreamFacts};
use crate::listed::{Counted, Kept, Listed, add_one, settle};
use crate::routers::{more, one_more, one_more_if};
use pim_addr::Family;
use pim_jp::{Entries, Entry, JpView, Sets};
use pim_lines::{AnyAddress, any_address};
use std::alloc::{AllocError, Global};

/// The greatest number of upstream neighbours.
pub(crate) const MOST_UPSTREAMS: usize = 64;

impl Listed for RpFacts {
    ghost use Rattle.pim_summary.specs.Routers.{rp_address};

    ghost key = { rp_address };

    fn key(&self) -> AnyAddress {
        self.address
    }
}

impl Counted for RpFacts {
    ghost use Rattle.std.specs.Prelude.{refl};
    ghost use Rattle.pim_summary.specs.Routers.{no_joins, one_joined};

    ghost zero = { no_joins };

    ghost one_more = { one_joined };

    fn zero(address: AnyAddress) -> RpFacts {
        RpFacts { address, joins: 0 }
    }

    fn one_more(self) -> RpFacts {
        RpFacts {
            address: self.address,
            joins: one_more(self.joins),
        }
    }

    ghost key_of_zero = { λ address. refl };

    ghost key_of_one_more = { λ item. refl };
}

impl Listed for UpstreamFacts {
    ghost use Rattle.pim_summary.specs.Routers.{upstream_address};

    ghost key = { upstream_address };

    fn key(&self) -> AnyAddress {
        self.address
    }
}

impl Kept for UpstreamFacts {
    ghost use Rattle.std.specs.Prelude.{refl};
    ghost use Rattle.pim_summary.specs.Routers.{new_upstream};

    ghost none = { new_upstream };

    fn none(alloc: Global, address: AnyAddress) -> Result<UpstreamFacts, AllocError> {
        Ok(UpstreamFacts {
            address,
            messages: 0,
            senders: 0,
            joins: 0,
            prunes: 0,
            most_groups: 0,
            link: None,
            rps: Vec::with_capacity(alloc, 64)?,
        })
    }

    ghost key_of_none = { λ address. refl };
}

/// Counts one join more for this RP.
fn count_rp(rps: &mut Vec<RpFacts>, has_more: &mut bool, address: AnyAddress)
    requires order { Ascends rp_address rps.old.items }
    requires room { 64 ≤ vec_capacity rps.old }
    ensures rps { rps_seen rps.new.items has_more.new
        ≡ with_rp address (rps_seen rps.old.items has_more.old) }
    ensures order { Ascends rp_address rps.new.items }
    ensures room { 64 ≤ vec_capacity rps.new }
{
    let added = add_one::<RpFacts>(rps, address);
    *has_more |= !added.is_kept;
}

/// Counts a joined entry.
fn count_entry<F: Family>(rps: &mut Vec<RpFacts>, has_more: &mut bool, entry: Entry<F::Addr>)
    requires order { Ascends rp_address rps.old.items }
    requires room { 64 ≤ vec_capacity rps.old }
    ensures rps { rps_seen rps.new.items has_more.new
        ≡ with_entry F.family (entry_seen F.bytes_of entry) (rps_seen rps.old.items has_more.old) }
    ensures order { Ascends rp_address rps.new.items }
    ensures room { 64 ≤ vec_capacity rps.new }
{
    match entry {
        Entry::Star(rp) => count_rp(rps, has_more, any_address::<F>(rp)),
        Entry::Source(_) => {}
        Entry::Rpt(_) => {}
    }
}

/// Counts the joined entries of a group set.
fn count_entries<F: Family>(rps: &mut Vec<RpFacts>, has_more: &mut bool, entries: Entries<'_, F>)
    requires order { Ascends rp_address rps.old.items }
    requires room { 64 ≤ vec_capacity rps.old }
    ensures rps { rps_seen rps.new.items has_more.new
        ≡ with_entries F.family entries.entry (rps_seen rps.old.items has_more.old) }
    ensures order { Ascends rp_address rps.new.items }
    ensures room { 64 ≤ vec_capacity rps.new }
{
    for entry in entries {
        count_entry::<F>(rps, has_more, entry);
    }
}

/// Counts the joined entries of the group sets of a message, for the RPs that they name.
pub(crate) fn count_sets<F: Family>(rps: &mut Vec<RpFacts>, has_more: &mut bool, sets: Sets<'_, F>)
    requires order { Ascends rp_address rps.old.items }
    requires room { 64 ≤ vec_capacity rps.old }
    ensures rps { rps_seen rps.new.items has_more.new
        ≡ with_sets F.family sets.entry (rps_seen rps.old.items has_more.old) }
    ensures order { Ascends rp_address rps.new.items }
    ensures room { 64 ≤ vec_capacity rps.new }
{
    for set in sets {
        count_entries::<F>(rps, has_more, set.joined());
    }
}

/// Adds the number of joined entries of these group sets.
fn add_joined<F: Family>(joins: u64, sets: Sets<'_, F>) -> u64
    ensures { result ≡ more joins (joined_in sets.entry) }
{
    let mut joins = joins;
    for set in sets {
        joins = more(joins, u64::from(set.joined_count()));
    }
    joins
}

/// Adds the number of pruned entries of these group sets.
fn add_pruned<F: Family>(prunes: u64, sets: Sets<'_, F>) -> u64
    ensures { result ≡ more prunes (pruned_in sets.entry) }
{
    let mut prunes = prunes;
    for set in sets {
        prunes = more(prunes, u64::from(set.pruned_count()));
    }
    prunes
}

/// Counts a message to an upstream neighbour, which may be the first one of its sender.
fn count_message<F: Family>(upstream: &mut UpstreamFacts, is_first: bool, message: &JpView<'_, F>)
    ensures { upstream.new ≡ after_message is_first F.family message.now upstream.old }
{
    upstream.messages = one_more(upstream.messages);
    upstream.senders = one_more_if(is_first, upstream.senders);
    upstream.joins = add_joined::<F>(upstream.joins, message.sets());
    upstream.prunes = add_pruned::<F>(upstream.prunes, message.sets());
    upstream.most_groups = upstream.most_groups.max(message.set_count());
    let mut has_more = false;
    count_sets::<F>(&mut upstream.rps, &mut has_more, message.sets());
}

/// Counts a message to this upstream neighbour. The spare item is the new one, where the list takes
/// it. Returns whether the upstream neighbour is listed.
pub(crate) fn count_upstream<F: Family>(
    upstreams: &mut Vec<UpstreamFacts>,
    to: AnyAddress,
    spare: Option<UpstreamFacts>,
    is_first: bool,
    message: &JpView<'_, F>,
) -> bool
    requires order { Ascends upstream_address upstreams.old.items }
    requires spare { spare ≡ spare_of upstream_address to 64 (new_upstream to)
        upstreams.old.items }
    requires room { is_some spare ≡ true → vec_len upstreams.old < vec_capacity upstreams.old }
    ensures upstreams { upstreams.new.items ≡ listed upstream_address to 64 (new_upstream to)
        (after_message is_first F.family message.now) upstreams.old.items }
    ensures order { Ascends upstream_address upstreams.new.items }
    ensures kept { result ≡ keeps upstream_address to 64 upstreams.old.items }
{
    let Some(place) = settle(upstreams, MOST_UPSTREAMS, to, spare) else {
        return false;
    };
    count_message::<F>(&mut upstreams[place], is_first, message);
    true
}

/// The RP of the two that more joins name; the first of two with as many.
fn more_joined(best: Option<RpFacts>, rp: RpFacts) -> Option<RpFacts>
    ensures { result ≡ more_joined best rp }
{
    match best {
        Some(best) => Some(if best.joins < rp.joins { rp } else { best }),
        None => Some(rp),
    }
}

/// The first of these RPs that most joins name.
fn most_joined(rps: &[RpFacts]) -> Option<RpFacts>
    ensures { result ≡ most_joined None rps.now }
{
    let mut best = None;
    for rp in rps {
        best = more_joined(best, *rp);
    }
    best
}

impl UpstreamFacts {
    /// The RP that most Joins(\*,G) to it name: of several, the one with the lowest address. `None`
    /// if none names one.
    pub fn rp(&self) -> Option<AnyAddress>
        ensures { result ≡ rp_of self.now }
    {
        match most_joined(&self.rps) {
            Some(rp) => Some(rp.address),
            None => None,
        }
    }
}
