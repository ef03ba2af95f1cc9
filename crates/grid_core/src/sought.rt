//! The block that an access is to, as a row is searched for it.

ghost use Rattle.std.specs.Prelude.{◌≡◌, ◌<◌, ◌≤◌, ◌+◌, ◌*◌, ◌/◌, ◌%◌, ◌^◌};

/// A block that the row of its set is searched for. Blocks of one set that follow one another are
/// `stride` bytes apart, and `base` is the highest multiple of that up to this block.
#[derive(Clone, Copy, Debug)]
pub(crate) struct Sought {
    pub block: u64,
    pub sets: u64,
    pub set: u64,
    pub stride: u64,
    pub base: u64,
    ghost home: { set ≡ block % sets },
    ghost at: { base ≡ block / sets * stride },
    ghost many: { 0 < sets },
    ghost some: { 1 < stride },
    ghost inside: { base + stride ≤ 2 ^ 64 },
}
