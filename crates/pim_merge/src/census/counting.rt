//! Counts the names in a message.

ghost use Rattle.std.specs.Prelude.{◌≡◌, ◌<◌, ◌^◌, ℕ, List, length, Some};
ghost use Rattle.pim_frame.specs.Seen.{content_of};
ghost use Rattle.pim_jp.specs.Seen.{entry_seen};
ghost use Rattle.pim_jp.specs.Spelling.{is_star};
ghost use Rattle.pim_merge.specs.Census.{joins_star, groups_after, groups_with, with_message};
ghost use Rattle.pim_merge.specs.Census.{body_message, content_message, message_of_others};
ghost use Rattle.pim_merge.specs.Census.{with_own, with_other};

use crate::census::Census;
use crate::slots::{add, field_of};
use pim_addr::Family;
use pim_frame::{Body, open};
use pim_jp::{Entry, JpView, SetView, Sets};

/// Whether an entry is (\*,G).
fn is_star<A: Copy>(entry: Entry<A>) -> bool
    ensures { (bytes_of : A → List ℕ) → result ≡ is_star (entry_seen bytes_of entry) }
{
    match entry {
        Entry::Star(_) => true,
        _ => false,
    }
}

/// Whether a group set joins (\*,G).
fn joins_star<F: Family>(set: &SetView<'_, F>) -> bool
    ensures { result ≡ joins_star set.now }
{
    for entry in set.joined() {
        if is_star(entry) {
            return true;
        }
    }
    false
}

/// Adds the group of a group set of a message, if the set joins (\*,G).
fn add_joined<F: Family>(groups: &mut [Option<[u8; 16]>], set: &SetView<'_, F>)
    ensures { groups.new ≡ groups_after groups.old set.now }
{
    if joins_star(set) {
        let _is_added = add(groups, field_of::<F>(set.group()));
    }
}

/// Adds those of the group sets of a message, in their order.
fn add_all_joined<F: Family>(groups: &mut [Option<[u8; 16]>], sets: Sets<'_, F>)
    ensures { groups.new ≡ groups_with sets.entry groups.old }
{
    for set in sets {
        add_joined::<F>(groups, &set);
    }
}

/// Counts a message for the own address.
fn count_own<F: Family>(census: &mut Census, message: &JpView<'_, F>)
    ensures { census.new ≡ with_own census.old message.now }
{
    census.is_named = true;
    add_all_joined::<F>(&mut census.groups, message.sets());
}

/// Counts a message for another upstream neighbour.
fn count_other(census: &mut Census, upstream: [u8; 16])
    ensures { census.new ≡ with_other census.old upstream }
{
    let has_slot = add(&mut census.upstreams, upstream);
    census.has_more |= !has_slot;
}

/// Counts a message.
fn count_message<F: Family>(census: &mut Census, message: &JpView<'_, F>)
    ensures { census.new ≡ with_message census.old (Some message.now) }
{
    let upstream = field_of::<F>(message.upstream());
    if census.own == upstream {
        count_own::<F>(census, message);
    } else {
        count_other(census, upstream);
    }
}

/// Counts a Join/Prune body, if it has no fault.
fn count_body<F: Family>(census: &mut Census, body: &[u8])
    ensures { census.new ≡ with_message census.old (body_message F.family body.now) }
{
    if let Ok(message) = JpView::<F>::read(body) {
        count_message(census, &message);
    }
}

/// Counts the content of a message, if it is a Join/Prune without a fault.
fn count_content<F: Family>(census: &mut Census, content: Body<'_>)
    ensures { census.new ≡ with_message census.old
        (content_message F.family (content_of content.entry)) }
{
    match content {
        Body::JoinPrune(body) => count_body::<F>(census, body),
        _ => {}
    }
}

/// Counts the PIM message of a packet, if it is a Join/Prune, neither header nor body has a fault,
/// and another router sent it.
pub(crate) fn count_of<F: Family>(
    census: &mut Census,
    source: F::Addr,
    destination: F::Addr,
    payload: &[u8],
)
    requires { length payload.now < 2 ^ 32 }
    ensures { census.new ≡ with_message census.old (message_of_others census.old.own F.family
        (F.bytes_of source) (F.bytes_of destination) payload.now) }
{
    if census.own == field_of::<F>(source) {
        return;
    }
    if let Ok(content) = open::<F>(source, destination, payload) {
        count_content::<F>(census, content);
    }
}
