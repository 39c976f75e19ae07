//! Files of local receivers: each line states a join, `star GROUP` or `source SOURCE GROUP`.
//!
//! Where the bytes of the feed are known:
//! - Ok: the file has at most 1,048,576 bytes, and the joins of all its lines were added, and
//!   nothing else. A join that is there already isn't added again.
//! - `Line(n)`: line n, from 1, has another form, or its join is refused. Only the joins of the
//!   lines before it were added.
//! - `TooLong`: the file has more bytes. The joins are unchanged.
//! - `Memory`: the joins of some first lines were added, possibly of none.
//!
//! For any feed: `TooLong` and `Read` leave the joins unchanged, at most 1,048,577 bytes are taken,
//! and the feed has failed once more exactly at `Read`.

pub(crate) mod fault;
mod join;
mod reading;

pub use fault::LocalFileFault;
pub use reading::read_local;
