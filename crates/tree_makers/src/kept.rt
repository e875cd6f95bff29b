//! What is kept while something else is made or done.
//!
//! Each function is generic, so that where that fails it lets go what is kept by one call, whatever it holds.
ghost use Rattle.std.specs.Prelude.{◌≡◌, ◌++◌, [], ◌∷◌, IfOk};
ghost use Rattle.tree_makers.specs.Kept.{made_of, done_of};
ghost use Rattle.tree_makers.specs.Makes.{Makes};

use checked_tree::stop::Stop;

/// What is kept, beside what was made. Where it wasn't made, the same error, and what is kept is let go.
pub fn beside<K: Drop, T: Drop, E: Drop>(kept: K, made: Result<T, E>) -> Result<(K, T), E>
    ensures kept { IfOk result (λ both. both.0 ≡ kept) }
    ensures made { made ≡ made_of result }
{
    match made {
        Ok(made) => Ok((kept, made)),
        Err(error) => Err(error),
    }
}

/// What is kept, behind what was done. Where it wasn't done, the same error, and what is kept is let go.
pub fn behind<K: Drop, E: Drop>(done: Result<(), E>, kept: K) -> Result<K, E>
    ensures kept { IfOk result (λ same. same ≡ kept) }
    ensures done { done ≡ done_of result }
{
    match done {
        Ok(()) => Ok(kept),
        Err(error) => Err(error),
    }
}

/// A list, and one more item at its end. The error is `NoMemory` alone, and both are let go.
pub fn pushed<T: Drop>(mut list: Vec<T>, item: T) -> Result<Vec<T>, Stop>
    ensures { Makes (λ longer. longer.items) result (list.items ++ item ∷ []) }
{
    list.push(item)?;
    Ok(list)
}
