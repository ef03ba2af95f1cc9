//! A slow reference cache, written straight from the definitions: it keeps lists of all that
//! happened and searches them at each access. Sets as rows and sets as maps have to agree with it.

use super::{Shape, push};
use cache_core::{Access, Class, Counts, MissKind, Outcome, PerClass, Policy, Repl};
use expected_counts::NO_COUNTS;
use std::alloc::Global;
use std::process::Abort;

/// An access that used a cache, since the last flush.
#[derive(Clone, Copy)]
struct Use {
    block: u64,
    write: bool,
    load: bool,
}

/// The uses of a cache of so many sets and ways.
#[derive(Drop)]
struct Uses {
    list: Vec<Use>,
    sets: u64,
    ways: usize,
    repl: Repl,
    walloc: bool,
}

impl Uses {
    fn set_of(&self, block: u64) -> u64 {
        if self.sets == 0 { 0 } else { block % self.sets }
    }

    /// Whether the use renewed its block in this set: each use, or under FIFO each load.
    fn renews(&self, used: Use, set: u64) -> bool {
        self.set_of(used.block) == set && (self.repl == Repl::Lru || used.load)
    }

    /// The residents of the block's set by last use (FIFO: by last load), the latest first.
    fn residents(&self, rt: &impl Abort, alloc: Global, block: u64) -> Vec<u64> {
        let set = self.set_of(block);
        let mut blocks = Vec::new(alloc);
        for used in self.list.iter().rev() {
            if blocks.len() == self.ways {
                break;
            }
            if self.renews(*used, set) && !blocks.contains(&used.block) {
                push(rt, &mut blocks, used.block);
            }
        }
        blocks
    }

    fn is_resident(&self, rt: &impl Abort, alloc: Global, block: u64) -> bool {
        self.residents(rt, alloc, block).contains(&block)
    }

    /// Adds the access to the list, unless it is a write that misses and loads nothing. Answers
    /// whether it hit.
    fn touch(&mut self, rt: &impl Abort, alloc: Global, block: u64, write: bool) -> bool {
        let hit = self.is_resident(rt, alloc, block);
        if !write || self.walloc || hit {
            let load = !hit;
            push(rt, &mut self.list, Use { block, write, load });
        }
        hit
    }

    /// Whether a write used the block when it was last loaded, or after that.
    fn is_written(&self, block: u64) -> bool {
        for used in self.list.iter().rev() {
            if used.block == block && (used.write || used.load) {
                return used.write;
            }
        }
        false
    }
}

/// All requests to a cache, and its outcomes.
#[derive(Drop)]
pub(super) struct Slow {
    alloc: Global,
    block_size: u64,
    wback: bool,
    own: Uses,
    /// The shadow is one LRU set of all blocks.
    shadow: Uses,
    known: Vec<u64>,
    answers: Vec<(Class, Outcome)>,
    flushes: u64,
    flushed_back: u64,
}

impl Slow {
    /// An empty cache of this size, block size and number of ways.
    pub(super) fn new(alloc: Global, shape: Shape, policy: Policy) -> Slow {
        let (size, block_size, ways) = shape;
        let blocks = size.checked_div(block_size).unwrap_or(0);
        let own = Uses {
            list: Vec::new(alloc),
            sets: blocks.checked_div(ways).unwrap_or(0),
            ways: ways as usize,
            repl: policy.repl,
            walloc: policy.walloc,
        };
        let shadow = Uses {
            list: Vec::new(alloc),
            sets: 1,
            ways: blocks as usize,
            repl: Repl::Lru,
            walloc: policy.walloc,
        };
        Slow {
            alloc,
            block_size,
            wback: policy.wback,
            own,
            shadow,
            known: Vec::new(alloc),
            answers: Vec::new(alloc),
            flushes: 0,
            flushed_back: 0,
        }
    }

    /// The first byte of a resident block, if it is dirty.
    fn dirty_first(&self, block: u64) -> Option<u64> {
        if self.wback && self.own.is_written(block) {
            Some(block.wrapping_mul(self.block_size))
        } else {
            None
        }
    }

    /// The first byte of the block that is in `before` and not in `after`, if there is one and it
    /// is dirty.
    fn dirty_victim(&self, before: &[u64], after: &[u64]) -> Option<u64> {
        for block in before {
            if !after.contains(block) {
                return self.dirty_first(*block);
            }
        }
        None
    }

    /// Adds the access to the list of the cache. Answers whether it hit, and the dirty block that
    /// it evicts.
    fn touch(&mut self, rt: &impl Abort, block: u64, write: bool) -> (bool, Option<u64>) {
        let before = self.own.residents(rt, self.alloc, block);
        let hit = self.own.touch(rt, self.alloc, block, write);
        let after = self.own.residents(rt, self.alloc, block);
        (hit, self.dirty_victim(&before, &after))
    }

    /// Why an access that missed did so.
    fn kind(&self, block: u64, in_shadow: bool) -> MissKind {
        if !self.known.contains(&block) {
            MissKind::Compulsory
        } else if in_shadow {
            MissKind::Conflict
        } else {
            MissKind::Capacity
        }
    }

    pub(super) fn access(&mut self, rt: &impl Abort, access: Access) -> Outcome {
        let block = access.addr.checked_div(self.block_size).unwrap_or(0);
        let write = access.class == Class::Write;
        let (hit, back) = self.touch(rt, block, write);
        let in_shadow = self.shadow.touch(rt, self.alloc, block, write);
        let kind = if hit {
            None
        } else {
            Some(self.kind(block, in_shadow))
        };
        let uses = !write || self.own.walloc || hit;
        let outcome = Outcome {
            hit,
            kind,
            back,
            fetch: uses && !hit,
            through: write && (!self.wback || !uses),
        };
        push(rt, &mut self.known, block);
        push(rt, &mut self.answers, (access.class, outcome));
        outcome
    }

    /// The first byte of the block, if the block is resident and dirty.
    fn resident_first(&self, rt: &impl Abort, block: u64) -> Option<u64> {
        if self.own.is_resident(rt, self.alloc, block) {
            self.dirty_first(block)
        } else {
            None
        }
    }

    /// Empties the cache. The answer is the first bytes of the dirty blocks, in rising order.
    pub(super) fn flush(&mut self, rt: &impl Abort) -> Vec<u64> {
        let mut firsts = Vec::new(self.alloc);
        for used in &self.own.list {
            if let Some(first) = self.resident_first(rt, used.block) {
                if !firsts.contains(&first) {
                    push(rt, &mut firsts, first);
                }
            }
        }
        assert!(rt; firsts.sort().is_ok());
        self.flushes = self.flushes.wrapping_add(1);
        self.flushed_back = self.flushed_back.wrapping_add(firsts.len() as u64);
        self.own.list.clear();
        self.shadow.list.clear();
        firsts
    }

    pub(super) fn counts(&self) -> Counts {
        let mut counts = Counts {
            written_back: self.flushed_back,
            flushes: self.flushes,
            ..NO_COUNTS
        };
        for (class, outcome) in &self.answers {
            counts = counted(counts, *class, *outcome);
        }
        counts
    }
}

/// One more of this class, if it counts.
fn one_more(counts: PerClass, class: Class, is_one: bool) -> PerClass {
    let one = is_one as u64;
    let PerClass {
        instr,
        read,
        write,
        misc,
    } = counts;
    match class {
        Class::Instr => PerClass {
            instr: instr.wrapping_add(one),
            ..counts
        },
        Class::Read => PerClass {
            read: read.wrapping_add(one),
            ..counts
        },
        Class::Write => PerClass {
            write: write.wrapping_add(one),
            ..counts
        },
        Class::Misc => PerClass {
            misc: misc.wrapping_add(one),
            ..counts
        },
    }
}

/// The counts with one more access, which had this outcome.
fn counted(counts: Counts, class: Class, outcome: Outcome) -> Counts {
    let Outcome {
        hit,
        kind,
        back,
        fetch,
        through,
    } = outcome;
    let is_back = back.is_some();
    Counts {
        fetches: one_more(counts.fetches, class, true),
        misses: one_more(counts.misses, class, !hit),
        compulsory: one_more(counts.compulsory, class, kind == Some(MissKind::Compulsory)),
        capacity: one_more(counts.capacity, class, kind == Some(MissKind::Capacity)),
        conflict: one_more(counts.conflict, class, kind == Some(MissKind::Conflict)),
        loaded: counts.loaded.wrapping_add(fetch as u64),
        written_back: counts.written_back.wrapping_add(is_back as u64),
        sent_on: counts.sent_on.wrapping_add(through as u64),
        flushes: counts.flushes,
    }
}
