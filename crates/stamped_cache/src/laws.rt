//! Laws of the definitions. Each is a function that does nothing; its contract is the law.

ghost use Rattle.stamped_cache.specs.Stamped.{MoreNumbersServeStampedCaches};

/// A cache that was served with some numbers of blocks can go on with more of them.
pub fn more_numbers_serve_stamped_caches()
    ensures { MoreNumbersServeStampedCaches }
{}
