//! Which candidates a selector wants.
ghost use Rattle.std.specs.Prelude.{◌≡◌};
ghost use Rattle.ls_select.specs.Best.{best_of_key, better_of};

/// Which candidates a selector wants: any that is kept, or those with the least or the greatest key.
#[derive(Clone, Copy, PartialEq, Eq, Debug)]
pub enum Want {
    Any,
    Least,
    Greatest,
}

impl Want {
    /// The best key where this one alone is kept.
    pub(crate) fn best_of_key(self, key: i64) -> Option<i64>
        ensures { result ≡ best_of_key self key }
    {
        match self {
            Want::Any => None,
            Want::Least | Want::Greatest => Some(key),
        }
    }

    /// The better of two best keys, where both are there; else the one that is.
    pub(crate) fn better_of(self, earlier: Option<i64>, later: Option<i64>) -> Option<i64>
        ensures { result ≡ better_of self earlier later }
    {
        let (Some(a), Some(b)) = (earlier, later) else {
            return earlier.or(later);
        };
        match self {
            Want::Any => None,
            Want::Least => Some(a.min(b)),
            Want::Greatest => Some(a.max(b)),
        }
    }
}
