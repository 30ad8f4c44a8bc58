// The C boundary: libturning.a, whose interface is include/turning.h.
//
// Every call returns 0 where it is accepted, else the refusal number of document 01, and a refusal
// writes nothing but *position, where its number has one. The calls are thin: each makes the spec, and
// of it with an edition and a generation the stock, calls the library, and turns its answer into a
// number and out-parameters. Their promises cite the library's own rules.
// `turning_job_finish` alone tells a refusal that is not its own: that of the job, with its line.
// `turning_read_part` alone writes where it is refused: what it read before the refused line.
// Each promise allows one outcome (`proofs/Once`).
#![tactic(auto)]

mod cuts_c;
mod envelope_c;
mod file_c;
mod header_c;
mod insert_c;
mod job_c;
mod numbers_c;
mod out;
mod passes_c;
mod profile_c;
mod queries_c;
mod rings_c;
mod stock_c;
mod sweeps_c;

pub use cuts_c::{
    turning_apply, turning_changes_to, turning_drill, turning_thread_cut, turning_thread_cut_inner,
};
pub use envelope_c::{
    turning_envelope_order, turning_radius_at, turning_radius_range, turning_within,
};
pub use file_c::{turning_read_end, turning_read_part, turning_stock_line, turning_stock_lines};
pub use header_c::turning_header;
pub use insert_c::{turning_eroded, turning_excess, turning_penetration};
pub use job_c::{turning_job_finish, turning_job_output, turning_job_take};
pub use numbers_c::{turning_length, turning_root};
pub use passes_c::{turning_check_passes, turning_propose_passes};
pub use profile_c::turning_segments;
pub use queries_c::{turning_envelope_at, turning_range, turning_volume};
pub use rings_c::{turning_apply_move, turning_from_parts, turning_remove_ring};
pub use stock_c::{turning_bin, turning_new, turning_renew, turning_validate};
pub use sweeps_c::{turning_preview, turning_preview_polygon};
