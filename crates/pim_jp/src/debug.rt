//! What `{:?}` prints of a view: its numbers and addresses, but not its bytes.

use crate::entries::Entries;
use crate::sets::{SetView, Sets};
use crate::view::JpView;
use pim_addr::Family;
use std::fmt::{Debug, Formatter, Result, Write};

impl<'a, F: Family> Debug for JpView<'a, F> {
    fn fmt<W: Write>(&self, f: &mut Formatter<W>) -> Result {
        let (upstream, holdtime, sets) = (self.upstream(), self.holdtime(), self.set_count());
        write!(
            f,
            "JpView {{ upstream: {upstream:?}, holdtime: {holdtime}, set_count: {sets} }}"
        )
    }
}

impl<'a, F: Family> Debug for SetView<'a, F> {
    fn fmt<W: Write>(&self, f: &mut Formatter<W>) -> Result {
        let (group, joined, pruned) = (self.group(), self.joined_count(), self.pruned_count());
        write!(
            f,
            "SetView {{ group: {group:?}, joined_count: {joined}, pruned_count: {pruned} }}"
        )
    }
}

impl<'a, F: Family> Debug for Sets<'a, F> {
    fn fmt<W: Write>(&self, f: &mut Formatter<W>) -> Result {
        let left = self.count_left();
        write!(f, "Sets {{ count_left: {left} }}")
    }
}

impl<'a, F: Family> Debug for Entries<'a, F> {
    fn fmt<W: Write>(&self, f: &mut Formatter<W>) -> Result {
        let left = self.count_left();
        write!(f, "Entries {{ count_left: {left} }}")
    }
}
