//! The shape of a cache.

ghost use Rattle.std.specs.Prelude.{◌≡◌, Some, None, OnOk, IfErr};
ghost use Rattle.cache_core.specs.Lawful.{refusal_of};

/// Why a geometry is refused: the first broken rule, in the order below. Zero is not a power of
/// two.
#[derive(Clone, Copy, Debug, PartialEq, Eq)]
pub enum GeometryFault {
    /// The size is not a power of two.
    SizeNotPower,
    /// The size is not from 4 to 2^24 bytes.
    SizeRange,
    /// The block size is not a power of two.
    BlockNotPower,
    /// The block is not from 4 to 4,096 bytes, or is larger than the cache.
    BlockRange,
    /// The number of ways is not a power of two.
    AssocNotPower,
    /// There are more ways than the cache has blocks.
    AssocTooLarge,
}

/// The shape of a cache: its size and its block size in bytes, and the number of ways of a set.
#[derive(Clone, Copy, Debug, PartialEq, Eq)]
pub struct Geometry {
    size: u64,
    bsize: u64,
    assoc: u64,
    ghost lawful: { refusal_of size bsize assoc ≡ None },
}

#[tactic(auto, unfolding(crate::specs::Lawful::refusal_of, crate::specs::Geometry::size_of, crate::specs::Geometry::bsize_of, crate::specs::Geometry::assoc_of))]
impl Geometry {
    ghost use Rattle.std.specs.Prelude.{◌≡◌, ◌≤◌, ◌-◌, ◌*◌, ◌/◌, ◌%◌, ◌^◌, IfOk};
    ghost use Rattle.cache_core.specs.Geometry.{IsMadeOf, bsize_of, assoc_of, sets_of, blocks_of};

    /// The geometry with this size and block size in bytes and this number of ways, or the first
    /// rule that they break.
    pub fn new(size: u64, bsize: u64, assoc: u64) -> Result<Geometry, GeometryFault>
        ensures made { IfOk result (λ geometry. IsMadeOf geometry size bsize assoc) }
        ensures lawful { OnOk result (refusal_of size bsize assoc ≡ None) }
        ensures refused { IfErr result (λ fault. refusal_of size bsize assoc ≡ Some fault) }
    {
        if !size.is_power_of_two() {
            return Err(GeometryFault::SizeNotPower);
        }
        if size < 4 || size > 16_777_216 {
            return Err(GeometryFault::SizeRange);
        }
        if !bsize.is_power_of_two() {
            return Err(GeometryFault::BlockNotPower);
        }
        if bsize < 4 || bsize > 4096 || bsize > size {
            return Err(GeometryFault::BlockRange);
        }
        if !assoc.is_power_of_two() {
            return Err(GeometryFault::AssocNotPower);
        }
        if assoc > size / bsize {
            return Err(GeometryFault::AssocTooLarge);
        }
        Ok(Geometry { size, bsize, assoc })
    }

    /// The number of the block that holds an address.
    pub fn block(&self, addr: u64) -> u64
        ensures { result ≡ addr / bsize_of self.now }
    {
        addr >> self.bsize.trailing_zeros()
    }

    /// The number of the set that a block belongs to.
    pub fn set(&self, block: u64) -> u64
        ensures { result ≡ block % sets_of self.now }
    {
        block & (self.sets() - 1)
    }

    /// How many sets there are.
    pub fn sets(&self) -> u64
        ensures { result ≡ sets_of self.now }
    {
        self.size >> (self.bsize.trailing_zeros() + self.assoc.trailing_zeros())
    }

    /// How many blocks the whole cache holds.
    pub fn blocks(&self) -> u64
        ensures { result ≡ blocks_of self.now }
    {
        self.size / self.bsize
    }

    /// The address of the first byte of a block.
    pub fn first_byte(&self, block: u64) -> u64
        requires { block ≤ (2 ^ 64 - 1) / bsize_of self.now }
        ensures { result ≡ block * bsize_of self.now }
    {
        block * self.bsize
    }

    /// How many bytes a block has.
    pub fn bsize(&self) -> u64
        ensures { result ≡ bsize_of self.now }
    {
        self.bsize
    }

    /// How many ways a set has.
    pub fn assoc(&self) -> u64
        ensures { result ≡ assoc_of self.now }
    {
        self.assoc
    }
}
