//! The machines that are held: records in key order under numbers of a slab, and a schedule of
//! their timers in the order in which they fire.

pub(crate) mod after;
pub(crate) mod alarms;
pub(crate) mod bound;
pub(crate) mod deadline;
pub(crate) mod edits;
pub(crate) mod group;
pub(crate) mod near;
pub(crate) mod schedule;
pub(crate) mod store;
pub(crate) mod walk;
