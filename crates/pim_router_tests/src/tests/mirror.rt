//! Fresh routers that hear canonical messages alone: deliveries that no command makes.

mod asked;
mod hearing;
mod mirrored;
