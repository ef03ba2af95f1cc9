//! What a cache counts.

ghost use Rattle.std.specs.Prelude.{◌≡◌, ◌^◌, ℕ, Option, is_some};
ghost use Rattle.cache_core.specs.Counting.{AreWithin, with_access};
ghost use Rattle.grid_core.specs.Hits.{hit_made};
ghost use Rattle.stamped_cache.specs.Counted.{load_made};

use cache_core::{Access, Counts, MAX_EVENTS, MissKind, PerClass, Prior};

/// All that is counted of a cache.
#[derive(Clone, Copy, Debug)]
pub(crate) struct Tally {
    pub counts: Counts,
    /// The accesses that missed in the shadow.
    pub far: PerClass,
    /// The writes that found their blocks not written, and so made them dirty under write back.
    /// Each of these blocks is written back once, or is dirty still.
    pub first_writes: u64,
    /// The accesses and flushes that were counted.
    pub served: u64,
}

/// Adds an access that hits. It may be a write that is sent on.
#[inline(always)]
fn add_hit(counts: &mut Counts, access: Access, through: bool)
    requires { AreWithin counts.old (2 ^ 44) }
    ensures { counts.new ≡ with_access access (hit_made through) counts.old }
{
    counts.fetches.count(access, true);
    if through {
        counts.sent_on += 1;
    }
}

/// Adds an access that loads its block. A dirty block may leave, and it may be a write that is sent
/// on.
fn add_load(counts: &mut Counts, access: Access, kind: MissKind, back: bool, through: bool)
    requires { AreWithin counts.old (2 ^ 44) }
    ensures { (address : Option ℕ) → is_some address ≡ back →
        counts.new ≡ with_access access (load_made kind address through) counts.old }
{
    counts.fetches.count(access, true);
    counts.misses.count(access, true);
    match kind {
        MissKind::Compulsory => counts.compulsory.count(access, true),
        MissKind::Capacity => counts.capacity.count(access, true),
        MissKind::Conflict => counts.conflict.count(access, true),
    }
    counts.loaded += 1;
    counts.written_back += back as u64;
    counts.sent_on += through as u64;
}

impl Tally {
    ghost use Rattle.std.specs.Prelude.{◌≡◌, ◌<◌, ◌&&◌, not, ℕ, Option, is_some};
    ghost use Rattle.cache_core.specs.History.{is_write};
    ghost use Rattle.cache_core.specs.Kinds.{kind_by};
    ghost use Rattle.grid_core.specs.Hits.{hit_made};
    ghost use Rattle.stamped_cache.specs.Counted.{CountsAccess, IsTally, flushed_tally, load_made};
    ghost use Rattle.stamped_cache.specs.Counted.{no_tally};

    /// Nothing.
    pub fn new() -> Tally
        ensures { result ≡ no_tally }
    {
        Tally {
            counts: Counts::default(),
            far: PerClass::default(),
            first_writes: 0,
            served: 0,
        }
    }

    /// Counts an access that hits, whose block the shadow has or not, and a write used before or
    /// not.
    #[inline(always)]
    pub fn hit(&mut self, access: Access, near: bool, written: bool, wback: bool)
        requires within { IsTally self.old }
        requires few { self.old.served < MAX_EVENTS }
        ensures { CountsAccess access (hit_made (is_write access && not wback)) (not near)
            (is_write access && not written) self.old self.new }
    {
        let write = access.writes();
        add_hit(&mut self.counts, access, write && !wback);
        if !near {
            self.far.count(access, true);
        }
        if write && !written {
            self.first_writes += 1;
        }
        self.served += 1;
    }

    /// Counts an access that loads its block. `back` says whether a written block leaves.
    pub fn load(&mut self, access: Access, prior: Prior, back: bool, wback: bool)
        requires within { IsTally self.old }
        requires few { self.old.served < MAX_EVENTS }
        ensures { (address : Option ℕ) → is_some address ≡ (back && wback) →
            CountsAccess access (load_made (kind_by prior.referenced prior.in_shadow) address
            (is_write access && not wback)) (not prior.in_shadow) (is_write access)
            self.old self.new }
    {
        let write = access.writes();
        add_load(
            &mut self.counts,
            access,
            prior.kind(),
            back && wback,
            write && !wback,
        );
        self.far.count(access, !prior.in_shadow);
        self.first_writes += write as u64;
        self.served += 1;
    }

    /// Counts a flush. What was made dirty and was not yet written back is written back now.
    pub fn flush(&mut self, wback: bool)
        requires within { IsTally self.old }
        requires few { self.old.served < MAX_EVENTS }
        ensures flushed { self.new ≡ flushed_tally wback self.old }
        ensures within { IsTally self.new }
    {
        if wback {
            self.counts.written_back = self.first_writes;
        }
        self.counts.flushes += 1;
        self.served += 1;
    }
}
