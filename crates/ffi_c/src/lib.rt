// The static library: the calls of include/chroma.h under their names in C. Each is ffi's call with the same clauses; a crate is a library or a
// static library and not both, and ffi is also what test_patch and test_ffi call.
#![tactic(auto)]

mod blends;
mod charts;
mod filling;
mod patches;
mod pictures;
mod pixels;
mod planes;
mod reading;
mod refilling;
mod version;
