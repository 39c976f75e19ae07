//! What a session keeps under names: forms of demand that were asked of a neighbour, with the RPs
//! of their stars. It outlives the router.

ghost use Rattle.std.specs.Prelude.{◌≡◌, ◌++◌, ◌∷◌, [], ℕ, List, map, option_map, is_some, Some};
ghost use Rattle.std.specs.Prelude.{IfOk, OnErr};
ghost use Rattle.pim_addr.specs.declared.family.AddressFamily.TheVariants as family;
ghost use Rattle.std.specs.List.{position};
ghost use Rattle.std.specs.Str.{bytes_eq};
ghost use Rattle.pim_answers.specs.Kept.{kept_as, with_kept, lacks_place, star_of, stars_of};
ghost use Rattle.pim_answers.specs.Kept.{are_same};
ghost use Rattle.pim_answers.specs.Kept.{have_their_rps};
ghost use Rattle.pim_answers.specs.StoreSeen.{star_seen, any_seen, store_seen, IsFound};

use pim_addr::{Family, Routes, V4, V6};
use pim_form::{GroupView, NormalForm};
use std::alloc::{AllocError, Global};

/// The most names.
const NAME_LIMIT: usize = 64;

/// The most bytes of a name.
const LONGEST_NAME: usize = 64;

/// The group of a star, and its RP.
#[derive(Clone, Copy, Debug)]
pub struct StarRp<A> {
    /// The group.
    group: A,
    /// The RP of the group, if the table has one.
    rp: Option<A>,
}

/// A form that was asked of a neighbour, and the RP of each of its stars.
#[derive(Drop)]
pub struct KeptForm<F: Family> {
    /// The form.
    pub form: NormalForm<F>,
    /// The stars of the form, with their RPs.
    pub stars: Vec<StarRp<F::Addr>>,
}

/// A kept form of either family.
#[derive(Drop)]
pub enum AnyForm {
    /// One of IPv4.
    Ipv4(KeptForm<V4>),
    /// One of IPv6.
    Ipv6(KeptForm<V6>),
}

/// What is kept under a name, as a router of this family finds it.
#[derive(Drop)]
pub enum FoundForm<'s, F: Family> {
    /// Nothing is kept under the name.
    Unknown,
    /// A form of the other family.
    Other,
    /// A form of this family.
    Form(&'s KeptForm<F>),
}

/// What an IPv4 router finds of a form.
fn in_ipv4(form: &AnyForm) -> FoundForm<'_, V4>
    ensures { (name : List ℕ)
        → IsFound family.Ipv4 (λ (a : List ℕ). a) name result (Some (any_seen name form.now)) }
{
    match form {
        AnyForm::Ipv4(form) => FoundForm::Form(form),
        AnyForm::Ipv6(_) => FoundForm::Other,
    }
}

/// What an IPv6 router finds of a form.
fn in_ipv6(form: &AnyForm) -> FoundForm<'_, V6>
    ensures { (name : List ℕ)
        → IsFound family.Ipv6 (λ (a : List ℕ). a) name result (Some (any_seen name form.now)) }
{
    match form {
        AnyForm::Ipv4(_) => FoundForm::Other,
        AnyForm::Ipv6(form) => FoundForm::Form(form),
    }
}

/// A name and what is kept under it.
#[derive(Drop)]
struct KeptEntry {
    name: Vec<u8>,
    form: AnyForm,
}

/// What is kept, by name.
#[derive(Drop)]
pub struct KeptForms {
    entries: Vec<KeptEntry>,
}

/// Adds the star of a group with its RP, if the group has one.
fn push_star<F: Family>(
    stars: &mut Vec<StarRp<F::Addr>>,
    this: &GroupView<'_, F>,
    routes: &Routes<F>,
) -> Result<(), AllocError>
    ensures { IfOk result (λ _. map (star_seen F.bytes_of) stars.new.items
        ≡ map (star_seen F.bytes_of) stars.old.items
        ++ star_of F.family routes.now this.now.group this.now.star []) }
{
    if !this.star() {
        return Ok(());
    }
    let group = this.group();
    let rp = routes.rp_of(group);
    stars.push(StarRp { group, rp })?;
    Ok(())
}

/// The stars of a form, with their RPs under this table.
pub fn stars_of<F: Family>(
    alloc: Global,
    form: &NormalForm<F>,
    routes: &Routes<F>,
) -> Result<Vec<StarRp<F::Addr>>, AllocError>
    ensures { IfOk result (λ stars. map (star_seen F.bytes_of) stars.items
        ≡ stars_of F.family routes.now form.now) }
{
    let mut stars = Vec::new(alloc);
    for this in form.groups() {
        push_star::<F>(&mut stars, &this, routes)?;
    }
    Ok(stars)
}

/// Whether two addresses are the same, or neither is there.
fn are_same<F: Family>(one: Option<F::Addr>, other: Option<F::Addr>) -> bool
    ensures { result ≡ are_same (option_map F.bytes_of one) (option_map F.bytes_of other) }
{
    match (one, other) {
        (Some(one), Some(other)) => one == other,
        (None, None) => true,
        _ => false,
    }
}

/// Whether each star has the same RP under this table.
pub fn have_their_rps<F: Family>(stars: &[StarRp<F::Addr>], routes: &Routes<F>) -> bool
    ensures { result ≡ have_their_rps F.family routes.now (map (star_seen F.bytes_of) stars.now) }
{
    for star in stars {
        if !are_same::<F>(routes.rp_of(star.group), star.rp) {
            return false;
        }
    }
    true
}

impl KeptForms {
    /// Nothing is kept.
    pub fn new(alloc: Global) -> Self
        ensures { store_seen result ≡ [] }
    {
        KeptForms {
            entries: Vec::new(alloc),
        }
    }

    /// The place of a name.
    fn place_of(&self, name: &[u8]) -> Option<usize>
        ensures { result
            ≡ position (λ entry. bytes_eq entry.name.items name.now) self.now.entries.items }
    {
        self.entries
            .iter()
            .position(|entry| entry.name.as_slice() == name)
    }

    /// Whether something is kept under a name.
    fn knows(&self, name: &[u8]) -> bool
        ensures { result
            ≡ is_some
            (position (λ entry. bytes_eq entry.name.items name.now) self.now.entries.items) }
    {
        match self.place_of(name) {
            Some(_) => true,
            None => false,
        }
    }

    /// What is kept under a name, as an IPv4 router finds it.
    pub fn find_ipv4(&self, name: &[u8]) -> FoundForm<'_, V4>
        ensures { IsFound family.Ipv4 (λ (a : List ℕ). a) name.now result
            (kept_as name.now (store_seen self.now)) }
    {
        match self.get(name) {
            Some(form) => in_ipv4(form),
            None => FoundForm::Unknown,
        }
    }

    /// What is kept under a name, as an IPv6 router finds it.
    pub fn find_ipv6(&self, name: &[u8]) -> FoundForm<'_, V6>
        ensures { IsFound family.Ipv6 (λ (a : List ℕ). a) name.now result
            (kept_as name.now (store_seen self.now)) }
    {
        match self.get(name) {
            Some(form) => in_ipv6(form),
            None => FoundForm::Unknown,
        }
    }

    /// What is kept under a name.
    fn get(&self, name: &[u8]) -> Option<&AnyForm>
        ensures { option_map (λ form. any_seen name.now form.now) result
            ≡ kept_as name.now (store_seen self.now) }
    {
        let place = self.place_of(name)?;
        let entry = &self.entries[place];
        Some(&entry.form)
    }

    /// Whether nothing can be kept under this name: it has more than 64 bytes, or it would be a
    /// 65th.
    pub fn lacks_place(&self, name: &[u8]) -> bool
        ensures { result ≡ lacks_place name.now (store_seen self.now) }
    {
        let known = self.knows(name);
        name.len() > LONGEST_NAME || (self.entries.len() >= NAME_LIMIT && !known)
    }

    /// Adds a name that is not known.
    fn add(&mut self, alloc: Global, name: &[u8], form: AnyForm) -> Result<(), AllocError>
        ensures ok { IfOk result (λ _. store_seen self.new ≡ store_seen self.old
            ++ any_seen name.now form ∷ []) }
        ensures err { OnErr result (store_seen self.new ≡ store_seen self.old) }
    {
        let mut copy = Vec::new(alloc);
        copy.extend_from_slice(name)?;
        self.entries.push(KeptEntry { name: copy, form })?;
        Ok(())
    }

    /// Keeps a form under a name, over what the name held.
    pub fn keep(&mut self, alloc: Global, name: &[u8], form: AnyForm) -> Result<(), AllocError>
        ensures ok { IfOk result (λ _. store_seen self.new
            ≡ with_kept (any_seen name.now form) (store_seen self.old)) }
        ensures err { OnErr result (store_seen self.new ≡ store_seen self.old) }
    {
        let Some(place) = self.place_of(name) else {
            return self.add(alloc, name, form);
        };
        let entry = &mut self.entries[place];
        entry.form = form;
        Ok(())
    }
}
