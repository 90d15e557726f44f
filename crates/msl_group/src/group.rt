ghost use Rattle.std.specs.Prelude.{◌≡◌, ◌<◌, ◌≤◌, ◌+◌, ◌++◌, IfOk};
ghost use Rattle.msl_base.specs.declared.limits.TheConstants.{MOST_MEMBERS};
ghost use Rattle.msl_group.specs.Spans.{members, span, split, merged};

use std::marker::Model;

/// A run of member numbers, which has to be spent. Seen as its first number and how many it has; it has 1 at least,
/// and all are below 64.
pub struct Group {
    first: u32,
    count: u32,
}

impl Model for Group {
    ghost use Rattle.std.specs.Prelude.{◌≤◌, ◌+◌};
    ghost use Rattle.msl_base.specs.declared.limits.TheConstants.{MOST_MEMBERS};
    ghost use Rattle.msl_group.specs.Spans.{Span, span};

    ghost Value = { Span };

    ghost view = { λ g. span g.first g.count };

    ghost invariant = { λ g. (1 ≤ g.count) × (g.first + g.count ≤ MOST_MEMBERS) };
}

impl Group {
    /// The members 0 to `p` - 1. It takes no memory.
    pub fn whole(p: u32) -> Group
        requires some { 1 ≤ p }
        requires few { p ≤ MOST_MEMBERS }
        ensures { result ≡ span 0 p }
    {
        Group { first: 0, count: p }
    }

    /// The first member.
    pub fn first(&self) -> u32
        ensures first { result ≡ self.now.first }
        ensures few { result + self.now.count ≤ MOST_MEMBERS }
    {
        self.first
    }

    /// The number of members.
    pub fn count(&self) -> u32
        ensures count { result ≡ self.now.count }
        ensures some { 1 ≤ result }
        ensures few { self.now.first + result ≤ MOST_MEMBERS }
    {
        self.count
    }

    /// The first `k` members, and the rest. It takes no memory.
    pub fn split_at(self, k: u32) -> (Group, Group)
        requires some { 0 < k }
        requires fewer { k < self.count }
        ensures parts { result ≡ split self k }
        ensures all { members result.0 ++ members result.1 ≡ members self }
    {
        let Group { first, count } = self;
        let front = Group { first, count: k };
        let rest = Group {
            first: first + k,
            count: count - k,
        };
        (front, rest)
    }

    /// The members of both groups; or both as they were, exactly where the next doesn't begin where this one ends. It
    /// takes no memory.
    pub fn merge(self, next: Group) -> Result<Group, (Group, Group)>
        ensures answer { result ≡ merged self next }
        ensures all { IfOk result (λ whole. members whole ≡ members self ++ members next) }
    {
        if next.first != self.first + self.count {
            return Err((self, next));
        }
        let Group { first, count } = self;
        let Group {
            first: _,
            count: more,
        } = next;
        Ok(Group {
            first,
            count: count + more,
        })
    }

    /// Ends the group. It takes no memory.
    pub fn spend(self) {
        let Group { first: _, count: _ } = self;
    }
}
