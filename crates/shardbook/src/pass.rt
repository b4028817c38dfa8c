// The right to add entries, which counts the New answers that were given to it.

ghost use Rattle.std.specs.Prelude.{◌≡◌, ◌+◌, ◌<◌, ◌≤◌, true};
ghost use Rattle.shardbook.specs.Passes.{Counts, HasCounted};

use crate::parameters::BookIdentity;
use std::marker::Model;
use std::sync::ledger::{Share, Total};

/// How many parts all passes of a book have together: twice as many as the entries that it takes.
pub const ALL: u64 = 1 << 62;

// How many parts a pass gives away, if it has twice as many that count nothing.
const GIVEN: u64 = 1 << 40;

/// The right to meet entries: an insert permit. It counts the New answers that were given to it. All passes of a
/// book have `ALL` parts together; a New answer takes up two of them. A clause sees the parts, the
/// count, and whether there is room for one more.
#[derive(Drop)]
pub struct Pass<B: BookIdentity> {
    pub(crate) share: Share<B>,
    pub(crate) count: u64,
    left: u64,
}

impl<B: BookIdentity> Model for Pass<B> {
    ghost use Rattle.std.specs.Prelude.{nat_le};
    ghost use Rattle.shardbook.specs.Inner.Ledgers.{IsPass};
    ghost use Rattle.shardbook.specs.Passes.{Counts};

    ghost Value = { Counts };

    ghost view = { λ p. record { parts = p.share.parts; count = p.count; room = nat_le 2 p.left } };

    ghost invariant = { λ p. IsPass p.share.parts p.share.amount p.count p.left };
}

impl<B: BookIdentity> Pass<B> {
    // The pass with all parts, of a share that has them, and as large an amount.
    pub(crate) fn first(share: Share<B>) -> Pass<B>
        requires parts { share.parts ≡ ALL }
        requires amount { share.amount ≡ ALL }
        ensures parts { result.parts ≡ ALL }
        ensures count { result.count ≡ 0 }
    {
        Pass {
            share,
            count: 0,
            left: ALL,
        }
    }

    /// How many New answers were counted.
    pub fn count(&self) -> u64
        ensures { result ≡ self.now.count }
    {
        self.count
    }

    // Whether there is room for one more New answer.
    pub(crate) fn has_room(&self) -> bool
        ensures { result ≡ self.now.room }
    {
        self.left >= 2
    }

    // Counts a New answer, here and in the share of the shard that gave it.
    pub(crate) fn spend(&mut self, shard: &mut Share<B>)
        requires room { self.old.room ≡ true }
        requires shard { 0 < shard.old.parts }
        ensures counted { HasCounted self.old self.new }
        ensures amount { shard.new.amount ≡ shard.old.amount + 1 }
        ensures parts { shard.new.parts ≡ shard.old.parts }
    {
        self.share.transfer(shard, 1);
        self.left -= 2;
        self.count += 1;
    }

    /// A pass for one more thread, which has counted nothing. Its parts are taken from this one.
    pub fn split(&mut self) -> Pass<B>
        ensures parts { self.new.parts + result.parts ≡ self.old.parts }
        ensures count { self.new.count ≡ self.old.count }
        ensures nothing { result.count ≡ 0 }
    {
        let given = (self.left / 2).min(GIVEN);
        self.left -= given;
        Pass {
            share: self.share.split_off(given, given),
            count: 0,
            left: given,
        }
    }

    // The parts and the counts of both.
    pub(crate) fn join(self, other: Pass<B>, total: &Total<B>) -> Pass<B>
        requires { total.now.amount ≤ ALL }
        ensures parts { result.parts ≡ self.parts + other.parts }
        ensures count { result.count ≡ self.count + other.count }
    {
        let Pass {
            mut share,
            count,
            left,
        } = self;
        let Pass {
            share: more,
            count: more_count,
            left: more_left,
        } = other;
        share.merge(more);
        total.audit(&mut share);
        Pass {
            share,
            count: count + more_count,
            left: left + more_left,
        }
    }
}
