//! The versions of a journal's text.
ghost use Rattle.std.specs.Prelude.{◌≡◌};
ghost use Rattle.journal_text.specs.Versions.{version_of};

/// What a version of the text has.
#[derive(Clone, Copy, Drop)]
pub(crate) struct Version {
    /// The text's first line.
    pub(crate) header: [u8; 15],
    /// Whether a report is written with its second value, and one is asked for.
    pub(crate) has_seconds: bool,
    /// Whether pools are asked.
    pub(crate) has_pools: bool,
}

pub(crate) const VERSION_1: Version = Version {
    header: *b"comet journal 1",
    has_seconds: false,
    has_pools: false,
};

pub(crate) const VERSION_2: Version = Version {
    header: *b"comet journal 2",
    has_seconds: true,
    has_pools: false,
};

pub(crate) const VERSION_3: Version = Version {
    header: *b"comet journal 3",
    has_seconds: true,
    has_pools: true,
};

/// The version whose first line this is.
pub(crate) fn version_of(line: &[u8]) -> Option<Version>
    ensures { result ≡ version_of line.now }
{
    if line == VERSION_1.header.as_slice() {
        return Some(VERSION_1);
    }
    if line == VERSION_2.header.as_slice() {
        return Some(VERSION_2);
    }
    if line == VERSION_3.header.as_slice() {
        return Some(VERSION_3);
    }
    None
}
