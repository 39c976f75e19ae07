//! A message in bytes, made of its text.
//!
//! - A receiver of the bytes that are returned finds no fault, and reads the message that the text
//!   states (`IsBuilt`).
//! - Each fault is returned where its cause is there, and the first cause counts: the text is too
//!   long, a line is wrong, an address is of the other family, the message is too long, a receiver
//!   refuses it. Lines and families are judged without memory. So `Memory` may replace only the
//!   last two: then the text states a message of the family.

mod building;
mod fault;
mod feed;

pub use building::build_message;
pub use fault::BuildFault;
pub use feed::read_text;
