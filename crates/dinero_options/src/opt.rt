//! The options of the command line.

ghost use Rattle.std.specs.Prelude.{◌≡◌, option_map};
ghost use Rattle.dinero_options.specs.Options.{default_of, id_of, kind_of_option, name_of};
ghost use Rattle.dinero_options.specs.Options.{place_of};

/// An option. The variants are in the order in which the options are read: those of the instruction
/// cache, of the data cache and of the second level, the capacity of the rings, and the selection.
/// All names except `--ring` are those of Dinero IV, with two hyphens.
#[derive(Clone, Copy, Debug, PartialEq, Eq)]
pub enum Opt {
    L1Isize,
    L1Ibsize,
    L1Iassoc,
    L1Irepl,
    L1Dsize,
    L1Dbsize,
    L1Dassoc,
    L1Drepl,
    L1Dwback,
    L1Dwalloc,
    L2Usize,
    L2Ubsize,
    L2Uassoc,
    L2Urepl,
    L2Uwback,
    L2Uwalloc,
    Ring,
    Skipcount,
    Maxcount,
    Flushcount,
}

impl Opt {
    /// All options, in their order.
    pub const ALL: [Opt; 20] = [
        Opt::L1Isize,
        Opt::L1Ibsize,
        Opt::L1Iassoc,
        Opt::L1Irepl,
        Opt::L1Dsize,
        Opt::L1Dbsize,
        Opt::L1Dassoc,
        Opt::L1Drepl,
        Opt::L1Dwback,
        Opt::L1Dwalloc,
        Opt::L2Usize,
        Opt::L2Ubsize,
        Opt::L2Uassoc,
        Opt::L2Urepl,
        Opt::L2Uwback,
        Opt::L2Uwalloc,
        Opt::Ring,
        Opt::Skipcount,
        Opt::Maxcount,
        Opt::Flushcount,
    ];

    /// The option with the two hyphens in front.
    pub fn name(&self) -> &str
        ensures { result.now ≡ name_of self.now }
    {
        self.long()
    }

    /// As `name`, without a loan of the option.
    fn long<'a>(self) -> &'a str
        ensures { result.now ≡ name_of self }
    {
        match self {
            Opt::L1Isize => "--l1-isize",
            Opt::L1Ibsize => "--l1-ibsize",
            Opt::L1Iassoc => "--l1-iassoc",
            Opt::L1Irepl => "--l1-irepl",
            Opt::L1Dsize => "--l1-dsize",
            Opt::L1Dbsize => "--l1-dbsize",
            Opt::L1Dassoc => "--l1-dassoc",
            Opt::L1Drepl => "--l1-drepl",
            Opt::L1Dwback => "--l1-dwback",
            Opt::L1Dwalloc => "--l1-dwalloc",
            Opt::L2Usize => "--l2-usize",
            Opt::L2Ubsize => "--l2-ubsize",
            Opt::L2Uassoc => "--l2-uassoc",
            Opt::L2Urepl => "--l2-urepl",
            Opt::L2Uwback => "--l2-uwback",
            Opt::L2Uwalloc => "--l2-uwalloc",
            Opt::Ring => "--ring",
            Opt::Skipcount => "--skipcount",
            Opt::Maxcount => "--maxcount",
            Opt::Flushcount => "--flushcount",
        }
    }

    /// The place of the option among all options.
    pub fn place(self) -> usize
        ensures { result ≡ place_of self }
    {
        self as usize
    }

    /// The option without the two hyphens in front.
    pub fn id<'a>(self) -> &'a str
        ensures { result.now ≡ id_of self }
    {
        self.long().strip_prefix("--").unwrap_or("")
    }

    /// The kind of its value.
    pub(crate) fn kind(self) -> Kind
        ensures { result ≡ kind_of_option self }
    {
        match self {
            Opt::L1Isize
            | Opt::L1Ibsize
            | Opt::L1Dsize
            | Opt::L1Dbsize
            | Opt::L2Usize
            | Opt::L2Ubsize => Kind::Size,
            Opt::L1Iassoc | Opt::L1Dassoc | Opt::L2Uassoc | Opt::Ring => Kind::Count,
            Opt::Skipcount | Opt::Maxcount | Opt::Flushcount => Kind::References,
            Opt::L1Irepl | Opt::L1Drepl | Opt::L2Urepl => Kind::Replacement,
            Opt::L1Dwback | Opt::L1Dwalloc | Opt::L2Uwback | Opt::L2Uwalloc => Kind::Choice,
        }
    }

    /// The default of the option. An option without a default is required.
    pub fn default<'a>(self) -> Option<&'a str>
        ensures { option_map (λ s. s.now) result ≡ default_of self }
    {
        match (self, self.kind()) {
            (Opt::Ring, _) => Some("64"),
            (_, Kind::Size) => None,
            (_, Kind::Count) => Some("1"),
            (_, Kind::References) => Some("0"),
            (_, Kind::Replacement) => Some("l"),
            (_, Kind::Choice) => Some("a"),
        }
    }
}

/// The kind of an option's value, which says how its text is read.
#[derive(Clone, Copy, Debug, PartialEq, Eq)]
pub enum Kind {
    /// A number of bytes, with or without a unit.
    Size,
    /// A number of 1 to 12 decimal digits.
    Count,
    /// A count of references, read as any other count.
    References,
    /// `l` for LRU or `f` for FIFO.
    Replacement,
    /// `a` for always or `n` for never.
    Choice,
}

/// The options of one cache, in the order in which they are read.
#[derive(Clone, Copy, Debug, PartialEq, Eq)]
pub struct CacheOptions {
    pub size: Opt,
    pub bsize: Opt,
    pub assoc: Opt,
    pub repl: Opt,
    /// Write back and write allocation. `None` for the instruction cache, which gets no write.
    pub write: Option<(Opt, Opt)>,
}

impl CacheOptions {
    pub(crate) const INSTRUCTION: CacheOptions = CacheOptions {
        size: Opt::L1Isize,
        bsize: Opt::L1Ibsize,
        assoc: Opt::L1Iassoc,
        repl: Opt::L1Irepl,
        write: None,
    };

    pub(crate) const DATA: CacheOptions = CacheOptions {
        size: Opt::L1Dsize,
        bsize: Opt::L1Dbsize,
        assoc: Opt::L1Dassoc,
        repl: Opt::L1Drepl,
        write: Some((Opt::L1Dwback, Opt::L1Dwalloc)),
    };

    pub(crate) const SECOND_LEVEL: CacheOptions = CacheOptions {
        size: Opt::L2Usize,
        bsize: Opt::L2Ubsize,
        assoc: Opt::L2Uassoc,
        repl: Opt::L2Urepl,
        write: Some((Opt::L2Uwback, Opt::L2Uwalloc)),
    };
}
