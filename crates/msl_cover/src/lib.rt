//! Laws of covers: how the work on a tree is divided by splitting paths into their children.
//!
//! - Counting is enough: where the root and the children are split or left as often as they come up, no path is split
//!   twice (`counts_are_balanced`), and each path comes up at most once (`each_comes_up_at_most_once`).
//! - In a cover, each path that comes up is split once or shut once, and never both; what doesn't come up is neither
//!   (`each_comes_up_once`). What comes up is the root or a child of a split (`what_comes_up`).
//! - So the children of each split are split or shut, and so is the root: the value of the root comes from the paths
//!   that were shut (`no_child_is_lost`).
//! - At the start the root alone is left. A path that is left may be split: its children are left in its place
//!   (`the_root_is_left_first`, `a_split_leaves_the_children`). The order of what is left says nothing
//!   (`leaves_are_counted`).
//!
//! The definitions stand in `Covers` of `msl_base`. No code runs.
#![tactic(auto)]

pub mod laws;
