//! The options that the program shares with that of one configuration.

ghost use Rattle.std.specs.Prelude.{◌≡◌};
ghost use Rattle.grid_options.specs.Grid.{is_ring, takes_list};

use dinero_options::Opt;

/// The options that the program shares with that of one configuration, in their order: all but the
/// capacity of the rings. Options of its own come behind these.
pub(crate) const SHARED: [Opt; 19] = [
    Opt::L1Isize,
    Opt::L1Ibsize,
    Opt::L1Iassoc,
    Opt::L1Irepl,
    Opt::L1Dsize,
    Opt::L1Dbsize,
    Opt::L1Dassoc,
    Opt::L1Drepl,
    Opt::L1Dwback,
    Opt::L1Dwalloc,
    Opt::L2Usize,
    Opt::L2Ubsize,
    Opt::L2Uassoc,
    Opt::L2Urepl,
    Opt::L2Uwback,
    Opt::L2Uwalloc,
    Opt::Skipcount,
    Opt::Maxcount,
    Opt::Flushcount,
];

/// Whether this is the capacity of the rings, which the program has no option for.
pub(crate) fn is_ring(option: Opt) -> bool
    ensures { result ≡ is_ring option }
{
    matches!(option, Opt::Ring)
}

/// Whether the value of an option may be a list: all of the caches and of the flushes put in.
pub(crate) fn takes_list(option: Opt) -> bool
    ensures { result ≡ takes_list option }
{
    !matches!(option, Opt::Ring | Opt::Skipcount | Opt::Maxcount)
}
