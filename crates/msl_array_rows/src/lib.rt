//! Tests of what members exchange and of arrays, as tables over the public calls.
//!
//! - `boxes`: boxes are empty, put and taken; an exchange turns every box, by a fabric and by `all_to_all`.
//! - `collectives`: what groups of 1, 2, 3 and 7 members give out, deal out and collect, from and at every member.
//! - `blocks`: 1, 2, 7 and 130 blocks that change places, by groups of 1, 2, 3 and 64 members.
//! - `rows`: what each call on arrays comes to, by results that are given; of two faults the one at the least place.
//! - `lists`: the same of lists of 0 to 300,000 numbers, by a plain loop over the list.
//! - `moves`: moves of elements and of blocks, by results that are given, and of lists of 5 to 20,000 numbers by a plain
//!   loop; what isn't one to one, and blocks that differ in size.
//!
//! Each case of the last three is tried at groups of 1, 2, 3 and 64 members, by one thread and by at most 1, 2 and 4, with
//! second arrays that were made at other groups, and in 1, 2, 3, 7 and 1,024 blocks, long lists in 7, moves of blocks in
//! those that are given (`arrays`).
#![tactic(auto)]

#[cfg(test)]
mod arrays;
#[cfg(test)]
mod blocks;
#[cfg(test)]
mod boxes;
#[cfg(test)]
mod collectives;
#[cfg(test)]
mod lists;
#[cfg(test)]
mod moves;
#[cfg(test)]
mod rows;
