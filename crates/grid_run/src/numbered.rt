//! Requests to second levels, with the numbers of their blocks.

ghost use Rattle.std.specs.Prelude.{◌≡◌, IfOk, Some};
ghost use Rattle.cache_core.specs.Geometry.{bsize_of};
ghost use Rattle.cache_core.specs.Lists.{IsBeginning};
ghost use Rattle.grid_core.specs.Numbered.{blocks_in};
ghost use Rattle.grid_core.specs.Numbers.{number_at};
ghost use Rattle.grid_run.specs.Numbering.{IsNumberFor, IsNumbered, KnowsNumber, what_of};

use cache_core::{Class, Geometry, NoMemory};
use grid_core::BlockNumbers;
use shared_list::Users;
use stage_core::What;

/// What a request asks for, besides its address.
#[derive(Clone, Copy)]
pub(crate) enum Sort {
    Back,
    Fetch(Class),
    Through,
    FlushAll,
}

/// A request to second levels that share a queue, with the number of its block, and the users that
/// get it. Of a flush, neither the address nor the number counts, and all users get it.
#[derive(Clone, Copy)]
pub(crate) struct Numbered {
    pub addr: u64,
    pub number: u32,
    pub users: Users,
    pub sort: Sort,
}

impl Numbered {
    ghost use Rattle.std.specs.Prelude.{◌≡◌, ◌<◌};
    ghost use Rattle.stage_core.specs.SecondLevel.{read_as};
    ghost use Rattle.grid_run.specs.Numbering.{event_at, is_for, what_of};

    /// The class of the access that it is at the second level, or none if it is a flush.
    pub fn class(self) -> Option<Class>
        ensures { read_as (what_of self) ≡ event_at result self.addr }
    {
        match self.sort {
            Sort::Back | Sort::Through => Some(Class::Write),
            Sort::Fetch(class) => Some(class),
            Sort::FlushAll => None,
        }
    }

    /// Whether a user gets it.
    #[inline(always)]
    pub fn is_for(self, user: usize) -> bool
        requires { user < 32 }
        ensures { result ≡ is_for user self }
    {
        match self.sort {
            Sort::Back | Sort::Fetch(_) | Sort::Through => self.users.has(user),
            Sort::FlushAll => true,
        }
    }
}

/// A block, and its number.
#[derive(Clone, Copy)]
pub(crate) struct Known {
    pub block: u64,
    pub number: u32,
}

/// The number of a block. A number that has more than 32 bits is refused as if memory were wanting.
#[inline(always)]
pub(crate) fn number_of(numbers: &mut BlockNumbers, block: u64) -> Result<u32, NoMemory>
    ensures number { IfOk result (λ number.
        number_at (blocks_in numbers.new) block ≡ Some number) }
    ensures grows { IsBeginning (blocks_in numbers.old) (blocks_in numbers.new) }
{
    let number = numbers.number(block)?;
    if number > u32::MAX as usize {
        return Err(NoMemory);
    }
    Ok(number as u32)
}

/// The number of a block, which may be one that is known.
#[inline(always)]
fn number_near(
    numbers: &mut BlockNumbers,
    known: Option<Known>,
    block: u64,
) -> Result<u32, NoMemory>
    requires known { KnowsNumber (blocks_in numbers.old) known }
    ensures number { IfOk result (λ number.
        number_at (blocks_in numbers.new) block ≡ Some number) }
    ensures grows { IsBeginning (blocks_in numbers.old) (blocks_in numbers.new) }
{
    if let Some(known) = known
        && known.block == block
    {
        return Ok(known.number);
    }
    number_of(numbers, block)
}

/// The number of the block that a request is for, of the block size of `first`. It may be known.
#[inline(always)]
fn number_for(
    numbers: &mut BlockNumbers,
    known: Option<Known>,
    first: Geometry,
    what: What,
) -> Result<u32, NoMemory>
    requires known { KnowsNumber (blocks_in numbers.old) known }
    ensures number { IfOk result (IsNumberFor (blocks_in numbers.new) (bsize_of first) what) }
    ensures grows { IsBeginning (blocks_in numbers.old) (blocks_in numbers.new) }
{
    let addr = match what {
        What::Back(addr) | What::Fetch(_, addr) | What::Through(addr) => addr,
        What::FlushAll => return Ok(0),
    };
    number_near(numbers, known, first.block(addr))
}

/// A request with this number, for these users.
fn with_number(what: What, number: u32, users: Users) -> Numbered
    ensures what { what_of result ≡ what }
    ensures number { result.number ≡ number }
    ensures users { result.users ≡ users }
{
    let (addr, sort) = match what {
        What::Back(addr) => (addr, Sort::Back),
        What::Fetch(class, addr) => (addr, Sort::Fetch(class)),
        What::Through(addr) => (addr, Sort::Through),
        What::FlushAll => (0, Sort::FlushAll),
    };
    Numbered {
        addr,
        number,
        users,
        sort,
    }
}

/// A request for these users, with the number of its block, of the block size of `first`. It may be
/// known.
pub(crate) fn numbered_request(
    numbers: &mut BlockNumbers,
    known: Option<Known>,
    first: Geometry,
    what: What,
    users: Users,
) -> Result<Numbered, NoMemory>
    requires known { KnowsNumber (blocks_in numbers.old) known }
    ensures what { IfOk result (λ asked. what_of asked ≡ what) }
    ensures users { IfOk result (λ asked. asked.users ≡ users) }
    ensures number { IfOk result (IsNumbered (blocks_in numbers.new) (bsize_of first)) }
    ensures grows { IsBeginning (blocks_in numbers.old) (blocks_in numbers.new) }
{
    let number = number_for(numbers, known, first, what)?;
    Ok(with_number(what, number, users))
}
