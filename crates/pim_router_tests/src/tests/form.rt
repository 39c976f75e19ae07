//! Calls on forms that no command of a session makes, and growths that are refused. What a session
//! can show is in the scenarios of `pimtree_cases`.

mod forms;
mod kept;
mod packing;
mod settling;
mod toward;
mod writers;
