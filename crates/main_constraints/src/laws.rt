//! What the rules say: when they tell no violation, and what they tell of some small lists.
ghost use Rattle.std.specs.Prelude.{◌≡◌, ◌↔◌, ◌-◌, ◌^◌, ◌≤◌, ◌≤ℤ◌, ℤ, pos, neg_ℤ, List, [], ◌∷◌, length, AllPairs};
ghost use Rattle.cbl_base.specs.Counts.{count_of};
ghost use Rattle.main_constraints.specs.AllEqual.{all_equal};
ghost use Rattle.main_constraints.specs.Increasing.{increasing};
ghost use Rattle.main_constraints.specs.WholeRule.{capped};

/// `allequal` has 0 violations exactly where all numbers are equal. They are the least number of places
/// that have to change so that all become equal: for no number that all become it's fewer, and for one
/// it's as many.
pub fn all_equal_law()
    ensures holds { (xs : List ℤ) → (all_equal.viol_of xs ≡ 0) ↔ AllPairs ◌≡◌ xs }
    ensures fewest { (xs : List ℤ) (v : ℤ) → all_equal.viol_of xs ≤ length xs - count_of v xs }
    ensures reached { (xs : List ℤ) → (v : ℤ) ×
        (all_equal.viol_of xs ≡ capped (length xs - count_of v xs)) }
{}

/// `increasing` has 0 violations exactly where no number is below an earlier one.
pub fn increasing_law()
    ensures { (xs : List ℤ) → (increasing.viol_of xs ≡ 0) ↔ AllPairs ◌≤ℤ◌ xs }
{}

/// What `allequal` tells of some small lists.
pub fn all_equal_values()
    ensures none { all_equal.viol_of [] ≡ 0 }
    ensures two_of_three { all_equal.viol_of (pos 2 ∷ pos 2 ∷ pos 5 ∷ []) ≡ 1 }
    ensures three_of_six { all_equal.viol_of (pos 2 ∷ pos 5 ∷ pos 2 ∷ pos 7 ∷ pos 5 ∷ pos 2 ∷ []) ≡
        3 }
    ensures at_a_place { all_equal.viol_at (pos 2 ∷ pos 2 ∷ pos 5 ∷ []) 0 ≡ 1 }
{}

/// What `increasing` tells of some small lists.
pub fn increasing_values()
    ensures none { increasing.viol_of [] ≡ 0 }
    ensures one_fall { increasing.viol_of (pos 3 ∷ pos 1 ∷ pos 2 ∷ []) ≡ 2 }
    ensures two_falls { increasing.viol_of (pos 5 ∷ pos 3 ∷ pos 3 ∷ neg_ℤ (pos 1) ∷ []) ≡ 6 }
    ensures most { increasing.viol_of (pos (2 ^ 62) ∷ neg_ℤ (pos (2 ^ 62)) ∷ []) ≡ 2 ^ 40 }
    ensures at_a_place { increasing.viol_at (pos 3 ∷ pos 1 ∷ pos 2 ∷ []) 2 ≡ 2 }
{}
