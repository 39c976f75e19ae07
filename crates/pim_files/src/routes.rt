//! Files of routes: each line states a row of a route table, `rp ADDRESS/LENGTH ADDRESS` or
//! `via ADDRESS/LENGTH ADDRESS`.
//!
//! Where the bytes of the feed are known:
//! - Ok: the file has at most 1,048,576 bytes, and the rows of all its lines were added in order,
//!   and nothing else.
//! - `Line(n)`: line n, from 1, has another form, or the table refuses its row. Only the rows of
//!   the lines before it were added.
//! - `TooLong`: the file has more bytes. The table is unchanged.
//! - `Memory`: the rows of some first lines were added, possibly of none.
//!
//! For any feed: `TooLong` and `Read` leave the table unchanged, at most 1,048,577 bytes are taken,
//! and the feed has failed once more exactly at `Read`.

pub(crate) mod fault;
mod reading;
mod row;

pub use fault::RoutesFault;
pub use reading::read_routes;
