use cd_text::NoMemory;

/// Why a file is no Caddyfile of this subset.
#[derive(Clone, Copy, Debug, PartialEq, Eq)]
pub struct CaddyfileFault {
    pub kind: CaddyfileKind,
    /// From 1, or 0 where no line is at fault.
    pub line: u32,
}

/// The kinds of faults; of one line the first of these counts.
#[derive(Clone, Copy, Debug, PartialEq, Eq)]
pub enum CaddyfileKind {
    /// A line is not UTF-8, or a quote in it is not closed.
    BadText,
    /// A brace stands where none may, a block is left open or nothing is closed, or a line has a block that may have none, or
    /// none where it needs one.
    BadBlock,
    /// What comes before the block of a site is not one address that is taken.
    BadAddress,
    /// A site before has the same address.
    RepeatedSite,
    /// The first word of a line is the name of no directive, or a block has no word before it.
    UnknownDirective,
    /// A directive, or a matcher, does not take these arguments.
    BadArguments,
    /// The site has no matcher of this name.
    UnknownMatcher,
    /// The site has a matcher of this name already.
    RepeatedMatcher,
    /// The file, or the compact text of its tree, has more than `cd_tree::MAX_TEXT_BYTES` bytes.
    TooLong,
    /// Lists and objects of its tree nest more than `cd_tree::MAX_DEPTH` levels.
    TooDeep,
    /// Memory ran out.
    NoMemory,
}

impl From<NoMemory> for CaddyfileFault {
    ghost use Rattle.std.specs.Prelude.{◌≡◌};
    ghost use Rattle.cd_caddyfile.specs.declared.fault.CaddyfileKind.TheVariants.{NoMemory as out_of_memory};

    ghost from_gives = { λ _ fault. fault ≡ record { kind = out_of_memory; line = 0 } };

    fn from(_: NoMemory) -> CaddyfileFault {
        CaddyfileFault {
            kind: CaddyfileKind::NoMemory,
            line: 0,
        }
    }
}
