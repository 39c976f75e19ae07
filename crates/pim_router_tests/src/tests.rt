//! What is wanted, the messages that ask for it, and those of its changes. Routers that hear
//! packets while time passes, and the fresh ones that mirror them. Events as JSON.

mod change;
mod emit;
mod events;
mod form;
mod mirror;
mod router;
mod state;
