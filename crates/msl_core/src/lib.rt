//! The pure world of nested groups: groups of nodes divide trees of paths among them, and a group is over only when it is
//! quiet.
//!
//! A node holds paths, splits, shuts and posts them, and lends them to new groups. A group ends where its token comes home
//! and finds that no path is left; a lent path goes back when its group is over.
//!
//! - `World::apply` lets an event happen exactly where its condition holds and memory is there, and the world is then the
//!   event's effect; it refuses it exactly where the condition fails, and else the world stays as it was (`applied`, by
//!   `CanHappen` and `happened` of `Worlds`).
//! - In every world a group that is over is quiet: no node holds a path or has lent one, no mail has one, and every group
//!   below is over (`quiet`, by `QuietAll`). It stays over (`over`).
//! - The facts that say so are on every world (`sound`, by `Sound` of `Worlds` and `Kept` of `Groups`): the mails with a
//!   path are as many as the paths sent less those got; until a group is over, one of four cases of its token holds;
//!   splits and leaves are balanced; each node's lists are balanced; a group that was lent to and is lent to no more is
//!   over.
//! - `Groups` speaks of one group by itself, whatever keeps its lists: `Enabled` and `after` are the condition and the
//!   effect of a move.
//! - `laws`: each move keeps the facts of its group, and each event those of its world; a group's splits and leaves are
//!   balanced, and once it is over its splits and shut paths cover; so it is after every list of events.
//!
//! An event costs no more than the ends of the lists that it changes and the memory that they take. That a group is ever
//! over isn't said, nor which paths a node lends or posts.
#![tactic(auto)]

mod event;
mod group;
pub mod laws;
mod node;
mod place;
mod split;
mod world;

pub use event::{Applied, Event, Move};
pub use world::World;
