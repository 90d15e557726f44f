//! Groups that are split and merged.

use msl_group::Group;
use std::process::Abort;

fn is_group(rt: &impl Abort, group: Group, first: u32, count: u32) {
    assert_eq!(rt; (group.first(), group.count()), (first, count));
    group.spend();
}

fn merges(rt: &impl Abort, group: Group, next: Group, first: u32, count: u32) {
    match group.merge(next) {
        Ok(whole) => is_group(rt, whole, first, count),
        Err((group, next)) => {
            group.spend();
            next.spend();
            assert!(rt; false, "for {count} from {first}");
        }
    }
}

fn comes_back(rt: &impl Abort, group: Group, next: Group) {
    let group_is = (group.first(), group.count());
    let next_is = (next.first(), next.count());
    match group.merge(next) {
        Ok(whole) => {
            whole.spend();
            assert!(rt; false, "merged {group_is:?} and {next_is:?}");
        }
        Err((group, next)) => {
            is_group(rt, group, group_is.0, group_is.1);
            is_group(rt, next, next_is.0, next_is.1);
        }
    }
}

#[test]
fn a_group_is_split_and_merged(rt: HostRuntime) {
    is_group(&rt, Group::whole(7), 0, 7);
    let (front, rest) = Group::whole(7).split_at(3);
    merges(&rt, front, rest, 0, 7);
}

#[test]
fn groups_that_do_not_follow_come_back(rt: HostRuntime) {
    let (front, rest) = Group::whole(7).split_at(3);
    comes_back(&rt, rest, front);
    let (front, rest) = Group::whole(7).split_at(3);
    let (middle, last) = rest.split_at(1);
    comes_back(&rt, front, last);
    middle.spend();
    comes_back(&rt, Group::whole(2), Group::whole(2));
}

#[test]
fn a_group_of_64_at_every_place(rt: HostRuntime) {
    for k in 1..64 {
        let (front, rest) = Group::whole(64).split_at(k);
        assert_eq!(rt; (front.first(), front.count()), (0, k));
        assert_eq!(rt; (rest.first(), rest.count()), (k, 64 - k));
        merges(&rt, front, rest, 0, 64);
    }
}
