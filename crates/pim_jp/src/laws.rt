//! The laws of the definitions. A body has no fault exactly if it spells a message, it spells at
//! most one, and the first fault is the least. These functions do nothing.

ghost use Rattle.std.specs.Prelude.{◌≡◌, ◌↔◌, ℕ, suc, ◌+◌, ◌<◌, ◌^◌, List, [], ◌∷◌, ◌++◌, length};
ghost use Rattle.std.specs.List.{AllByRecursion};
ghost use Rattle.pim_addr.specs.declared.family.AddressFamily.{AddressFamily};
ghost use Rattle.pim_addr.specs.Address.{AreBytes, address_length};
ghost use Rattle.pim_jp.specs.declared.fault.JpFault.{JpFault};
ghost use Rattle.pim_jp.specs.Message.{GroupSet, Message, message_of};
ghost use Rattle.pim_jp.specs.Spelling.{Spells};
ghost use Rattle.pim_jp.specs.Faults.{faults_of, faults};
ghost use Rattle.pim_jp.specs.Parts.{set_parts};
ghost use Rattle.pim_jp.specs.Canonical.{IsMessageSet, IsMessage, canonical_head, canonical_set};
ghost use Rattle.pim_jp.specs.Canonical.{canonical};
ghost use Rattle.pim_jp.specs.Canonical.{canonical_head_length, canonical_set_length};
ghost use Rattle.pim_jp.specs.Canonical.{canonical_sets_length};
ghost use Rattle.pim_jp.specs.Plain.{SpellsPlainly};
ghost use Rattle.pim_jp.specs.Laws.{ReportedBefore, ReadsHead, ReadsSet};

use pim_addr::first_of_parts_is_least;

/// Of all faults of a body, the first has the least offset, and the least number at that offset.
pub fn first_fault_is_least()
    ensures { (family : AddressFamily) (body : List ℕ) (first : JpFault) (others : List JpFault) →
        faults family body ≡ first ∷ others → AllByRecursion (ReportedBefore first) others }
{
    first_of_parts_is_least();
}

/// A body without a fault is a spelling of the message that is read from it.
pub fn legal_is_spelled()
    ensures { (family : AddressFamily) (body : List ℕ) →
        AreBytes body → faults family body ≡ [] → Spells family (message_of family body) body }
{}

/// A spelling of a message has no fault.
pub fn spelled_is_legal()
    ensures { (family : AddressFamily) (message : Message) (body : List ℕ) →
        Spells family message body → faults family body ≡ [] }
{}

/// A body is a spelling of at most one message.
pub fn spelled_by_one_value()
    ensures { (family : AddressFamily) (one other : Message) (body : List ℕ) →
        Spells family one body → Spells family other body → one ≡ other }
{}

/// A message that has a spelling of bytes is within the ranges of the format.
pub fn spelled_is_message()
    ensures { (family : AddressFamily) (message : Message) (body : List ℕ) →
        AreBytes body → Spells family message body → IsMessage family message }
{}

/// The canonical spelling of a message within these ranges is a spelling of it.
pub fn canonical_is_spelled()
    ensures { (family : AddressFamily) (message : Message) →
        IsMessage family message → Spells family message (canonical family message) }
{}

/// The canonical spelling of a message has no fault and is read as that message.
pub fn canonical_is_read()
    ensures no_fault { (family : AddressFamily) (message : Message) →
        IsMessage family message → faults family (canonical family message) ≡ [] }
    ensures message { (family : AddressFamily) (message : Message) →
        IsMessage family message → message_of family (canonical family message) ≡ message }
{}

/// The canonical spelling is the only one whose ignored bits are as they are written.
pub fn one_canonical_spelling()
    ensures { (family : AddressFamily) (message : Message) (body : List ℕ) →
        IsMessage family message → SpellsPlainly family message body
        ↔ (body ≡ canonical family message) }
{}

/// The canonical head has no fault and is read as its values, with any bytes after it.
pub fn canonical_head_is_read()
    ensures { (family : AddressFamily) (upstream behind : List ℕ) (sets holdtime : ℕ) →
        length upstream ≡ address_length family → sets < 2 ^ 8 → holdtime < 2 ^ 16 →
        ReadsHead family upstream sets holdtime behind (canonical_head family upstream sets holdtime
        ++ behind) }
{}

/// The canonical spelling of a group set is read as that set, with any bytes after it. The next law
/// says that it has no fault.
pub fn canonical_set_is_read()
    ensures { (family : AddressFamily) (set : GroupSet) (behind : List ℕ) →
        IsMessageSet family set → ReadsSet family set behind (canonical_set family set ++ behind) }
{}

/// Group sets of which the first has the canonical spelling have no fault if those after it have
/// none.
pub fn canonical_set_has_no_fault()
    ensures { (family : AddressFamily) (set : GroupSet) (count at : ℕ) (behind : List ℕ)
        → IsMessageSet family set →
        ((at : ℕ) → faults_of family (set_parts family count at behind) ≡ []) →
        faults_of family (set_parts family (suc count) at (canonical_set family set ++ behind))
        ≡ [] }
{}

/// The canonical head has the length that `head_length` returns.
pub fn canonical_head_has_its_length()
    ensures { (family : AddressFamily) (upstream : List ℕ) (sets holdtime : ℕ) →
        length upstream ≡ address_length family →
        length (canonical_head family upstream sets holdtime) ≡ canonical_head_length family }
{}

/// The canonical spelling of a group set has the length that `set_length` returns for its counts.
pub fn canonical_set_has_its_length()
    ensures { (family : AddressFamily) (set : GroupSet) → IsMessageSet family set →
        length (canonical_set family set)
        ≡ canonical_set_length family (length set.joined) (length set.pruned) }
{}

/// The canonical spelling of a message has the length of its head and its group sets.
pub fn canonical_has_its_length()
    ensures { (family : AddressFamily) (message : Message) → IsMessage family message →
        length (canonical family message) ≡ canonical_head_length family
        + canonical_sets_length family message.sets }
{}
