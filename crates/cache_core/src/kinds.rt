//! Tells the kinds of miss apart.

ghost use Rattle.std.specs.Prelude.{◌≡◌, ◌<◌, ◌==◌, ◌||◌, ◌&&◌, not, ℕ, [], nat_eq, false};
ghost use Rattle.std.specs.Prelude.{if◌then◌else◌, is_some, IfOk, OnOk};
ghost use Rattle.std.specs.Map.{lookup};
ghost use Rattle.std.specs.HashSet.{contains};
ghost use Rattle.std.specs.Option.{option_map_or};
ghost use Rattle.cache_core.specs.Recent.{IsFirst};
ghost use Rattle.lru.specs.LruCache.{lru_cache, promoted, put_entries};

use crate::access::MissKind;
use lru::LruCache;
use std::alloc::{AllocError, Global};
use std::collections::HashSet;
use std::num::NonZeroUsize;

/// The fully associative shadow, and all blocks that were ever accessed.
#[derive(Drop)]
pub(crate) struct MissClassifier {
    shadow: LruCache<u64, ()>,
    referenced: HashSet<u64>,
    /// The block that was used last, if it is the first one in the shadow.
    last: Option<u64>,
    ghost recent: { IsFirst last shadow.entries },
}

/// What is known of a block before an access.
#[derive(Clone, Copy, Debug, PartialEq, Eq)]
pub struct Prior {
    /// Whether it was ever accessed.
    pub referenced: bool,
    /// Whether the shadow has it.
    pub in_shadow: bool,
}

impl Prior {
    ghost use Rattle.std.specs.Prelude.{◌≡◌};
    ghost use Rattle.cache_core.specs.Kinds.{kind_by};

    /// Why an access to the block misses, if it does.
    pub fn kind(self) -> MissKind
        ensures { result ≡ kind_by self.referenced self.in_shadow }
    {
        if !self.referenced {
            MissKind::Compulsory
        } else if self.in_shadow {
            MissKind::Conflict
        } else {
            MissKind::Capacity
        }
    }
}

/// Whether this is the block that was used last.
fn is_last(last: Option<u64>, block: u64) -> bool
    ensures { result ≡ option_map_or (λ b. b == block) last false }
{
    match last {
        Some(other) => other == block,
        None => false,
    }
}

/// Notes that a block is accessed, and answers whether it was accessed before. A block that hits
/// was, and needs no look-up.
fn note_block(referenced: &mut HashSet<u64>, block: u64, hit: bool) -> Result<bool, AllocError>
    ensures referenced { IfOk result (λ was. was ≡ (hit || contains nat_eq referenced.old block)) }
    ensures adds { OnOk result ((q : ℕ) → contains nat_eq referenced.new q
        ≡ (not hit && block == q || contains nat_eq referenced.old q)) }
{
    if hit {
        return Ok(true);
    }
    let Ok(added) = referenced.insert(block) else {
        return Err(AllocError);
    };
    Ok(!added)
}

impl MissClassifier {
    /// An empty shadow of this many blocks, and no block accessed yet.
    pub fn new(alloc: Global, blocks: u64) -> Result<MissClassifier, AllocError>
        requires { 0 < blocks }
        ensures shadow { IfOk result (λ classifier. classifier.shadow ≡ lru_cache [] blocks) }
        ensures referenced { IfOk result (λ classifier. classifier.referenced.keys ≡ []) }
    {
        let capacity = NonZeroUsize::new(blocks as usize).unwrap();
        let shadow = LruCache::sparse(alloc, capacity)?;
        Ok(MissClassifier {
            shadow,
            referenced: HashSet::new(alloc),
            last: None,
        })
    }

    /// Notes an access. `load` says whether it loads its block if it misses, `hit` whether it hit
    /// the cache. If the shadow does not have the block, it loads it only if `load`. A block that
    /// is used twice in a row needs no look-up in the shadow.
    pub fn classify(&mut self, block: u64, load: bool, hit: bool) -> Result<Prior, AllocError>
        ensures referenced { IfOk result (λ prior. prior.referenced
            ≡ (hit || contains nat_eq self.old.referenced block)) }
        ensures in_shadow { IfOk result (λ prior.
            prior.in_shadow ≡ is_some (lookup (nat_eq block) self.old.shadow.entries)) }
        ensures adds { OnOk result ((q : ℕ) → contains nat_eq self.new.referenced q
            ≡ (not hit && block == q || contains nat_eq self.old.referenced q)) }
        ensures promotes { IfOk result (λ prior. self.new.shadow.entries
            ≡ (if not prior.in_shadow && load
            then put_entries nat_eq (lru_cache (promoted (nat_eq block) self.old.shadow.entries)
            self.old.shadow.cap) block tt
            else promoted (nat_eq block) self.old.shadow.entries)) }
        ensures capacity { self.new.shadow.cap ≡ self.old.shadow.cap }
    {
        let referenced = note_block(&mut self.referenced, block, hit)?;
        if is_last(self.last, block) {
            return Ok(Prior {
                referenced,
                in_shadow: true,
            });
        }
        self.last = None;
        let in_shadow = self.shadow.promote(&block);
        if in_shadow {
            self.last = Some(block);
            return Ok(Prior {
                referenced,
                in_shadow: true,
            });
        }
        if !load {
            return Ok(Prior {
                referenced,
                in_shadow: false,
            });
        }
        let Ok(_old) = self.shadow.put(block, ()) else {
            return Err(AllocError);
        };
        self.last = Some(block);
        Ok(Prior {
            referenced,
            in_shadow: false,
        })
    }

    /// Empties the shadow. The blocks that were ever accessed stay known.
    pub fn forget_shadow(&mut self)
        ensures shadow { self.new.shadow ≡ lru_cache [] self.old.shadow.cap }
        ensures referenced { self.new.referenced ≡ self.old.referenced }
    {
        self.last = None;
        self.shadow.clear();
    }
}
