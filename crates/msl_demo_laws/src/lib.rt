//! What the demonstration writes, and the laws that hold of it. `specs/Demo.antt` has its records, the text of its script
//! and its line, and `DemoGives`: the line of records that the script may make.
//!
//! - `laws::text_is_the_script`: the text reads as one script and is never refused. `laws::script_needs_four`: the script
//!   needs 4 processes.
//! - `laws::runs_give_results`: whatever order the farm's results come in, no run has a fault, and its records are those
//!   of `specs/Results.antt`, in some order; each has three numbers from 0 to 999,999.
//! - `laws::line_is_one`: for each number of records there is exactly one line, in closed form. `laws::lines` has some.
//! - `laws::runs_over_bytes`: the same of runs over the text of the records; what they write reads back.
//!
//! No code stands here: the definitions compute.
#![tactic(auto)]

pub mod laws;
