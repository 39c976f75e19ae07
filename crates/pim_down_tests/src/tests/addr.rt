//! Worked examples of the subjects of `pim_addr`, of messages' headers, and of files of
//! routes and of local receivers.

mod below;
mod local_file;
mod routes;
mod routes_file;
