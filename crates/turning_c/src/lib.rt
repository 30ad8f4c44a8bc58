// The archive that C links: libturning.a, whose interface is include/turning.h.
//
// Each export has the name, the parameters and the promise of a call of the crate `turning`, hands its
// arguments on to that call, and answers what it answers. A library of Rattle exports nothing to C, so
// `turning` stays one that other crates call, and this one is what C sees of it.
#![tactic(auto)]

mod cuts_c;
mod envelope_c;
mod file_c;
mod header_c;
mod insert_c;
mod job_c;
mod numbers_c;
mod passes_c;
mod profile_c;
mod queries_c;
mod rings_c;
mod stock_c;
mod sweeps_c;
