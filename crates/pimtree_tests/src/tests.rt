//! What a case can't say of the program: loops over spoilt input and failing devices, refused
//! memory, faults on devices that fail, the width of help, the further files of a plan, and the
//! order in which a run opens and writes.

mod ending;
mod failing;
mod faults;
mod further;
mod help;
mod messages;
mod refused;
mod running;
