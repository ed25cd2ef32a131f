// What the caller chooses, read once of the flags (01, Declarations).
ghost use Rattle.std.specs.Prelude.{◌≡◌};
ghost use Rattle.section.specs.Options.{options};

// Whether lines that start with `//` are skipped, and whether `\b` becomes `\x08`.
#[derive(Clone, Copy)]
pub struct Options {
    pub comments: bool,
    pub posix_escapes: bool,
}

impl From<u64> for Options {
    ghost from_gives = { λ flags chosen. chosen ≡ options flags };

    #[tactic(auto, unfolding(crate::specs::Options::comments, crate::specs::Options::posix_escapes))]
    fn from(flags: u64) -> Options {
        Options {
            comments: flags % 2 == 1,
            posix_escapes: flags / 2 % 2 == 1,
        }
    }
}
