//! What holds of the constraints, whatever their inputs are: a constraint has 0 violations exactly where
//! what its name says holds, and never fewer; with 0 violations each of its places has 0; and its values
//! are numbers.
ghost use Rattle.std.specs.Prelude.{◌≡◌, ◌≢◌, ◌↔◌, ◌+◌, ◌*ℤ◌, ◌<◌, ◌≤◌, ◌<ℤ◌, ◌≤ℤ◌, ℕ, ℤ, pos, List, length, All, AllPairs, Contains, Ok, if◌then◌else◌, slice_index_or, slice_range};
ghost use Rattle.std.specs.Ordering.{int_eq};
ghost use Rattle.cbl_base.specs.Counts.{count_of};
ghost use Rattle.cbl_base.specs.NodeLaw.{GivesOneKind};
ghost use Rattle.cbl_base.specs.NumberRule.{rule_of_numbers};
ghost use Rattle.cbl_violations.specs.Bounds.{EachBounded};
ghost use Rattle.cbl_violations.specs.Constraints.{constraint_numbers, first_kept, second_kept};
ghost use Rattle.cbl_violations.specs.declared.constraint.Constraint.{Constraint};
ghost use Rattle.cbl_violations.specs.Pairs.{pair_total};
ghost use Rattle.cbl_violations.specs.Violations.AllDifferent.{all_different, all_different_violations, all_different_violation_at};
ghost use Rattle.cbl_violations.specs.Violations.Relations.{viol_eq, viol_ne, viol_le, viol_lt, of_two, at_each, eq_violations, ne_violations, le_violations, lt_violations};
ghost use Rattle.cbl_violations.specs.Violations.AtMost.{at_most, at_most_violations, at_most_violation_at};
ghost use Rattle.cbl_violations.specs.Violations.AtLeast.{at_least, at_least_violations, at_least_violation_at};
ghost use Rattle.cbl_violations.specs.Violations.Exactly.{exactly, exactly_violations, exactly_violation_at};
ghost use Rattle.cbl_violations.specs.Violations.Knapsack.{knapsack, knapsack_violations, knapsack_violation_at};
ghost use Rattle.cbl_violations.specs.Violations.MultiKnapsack.{multi_knapsack, multi_knapsack_violations, multi_knapsack_violation_at};
ghost use Rattle.cbl_violations.specs.Violations.Sequence.{sequence, sequence_violations, sequence_violation_at, size_of, count_in};
ghost use Rattle.cbl_violations.specs.Violations.AllOf.{all_of, all_of_violations};
ghost use Rattle.cbl_violations.specs.Violations.AnyOf.{any_of, any_of_violations};
ghost use Rattle.cbl_violations.specs.Violations.NotHeld.{not_held, not_held_violations};
ghost use Rattle.cbl_violations.specs.Violations.WeightedTotal.{weighted_total, weighted_total_value};
ghost use Rattle.cbl_violations.specs.Violations.Repeat.{repeat};

/// `==` has 0 violations exactly where the two are equal.
pub fn eq_law()
    ensures holds { (a b z : ℤ) → eq_violations a b ≡ Ok z → (z ≡ pos 0) ↔ (a ≡ b) }
    ensures never_negative { (a b z : ℤ) → eq_violations a b ≡ Ok z → pos 0 ≤ℤ z }
    ensures places { (xs : List ℤ) → of_two eq_violations xs ≡ Ok (pos 0) → (place : ℕ) →
        at_each eq_violations xs place ≡ pos 0 }
    ensures one_kind { GivesOneKind (rule_of_numbers viol_eq) }
{}

/// `!=` has 0 violations exactly where the two differ.
pub fn ne_law()
    ensures holds { (a b z : ℤ) → ne_violations a b ≡ Ok z → (z ≡ pos 0) ↔ (a ≢ b) }
    ensures never_negative { (a b z : ℤ) → ne_violations a b ≡ Ok z → pos 0 ≤ℤ z }
    ensures places { (xs : List ℤ) → of_two ne_violations xs ≡ Ok (pos 0) → (place : ℕ) →
        at_each ne_violations xs place ≡ pos 0 }
    ensures one_kind { GivesOneKind (rule_of_numbers viol_ne) }
{}

/// `<=` has 0 violations exactly where the first is at most the second.
pub fn le_law()
    ensures holds { (a b z : ℤ) → le_violations a b ≡ Ok z → (z ≡ pos 0) ↔ (a ≤ℤ b) }
    ensures never_negative { (a b z : ℤ) → le_violations a b ≡ Ok z → pos 0 ≤ℤ z }
    ensures places { (xs : List ℤ) → of_two le_violations xs ≡ Ok (pos 0) → (place : ℕ) →
        at_each le_violations xs place ≡ pos 0 }
    ensures one_kind { GivesOneKind (rule_of_numbers viol_le) }
{}

/// `<` has 0 violations exactly where the first is below the second.
pub fn lt_law()
    ensures holds { (a b z : ℤ) → lt_violations a b ≡ Ok z → (z ≡ pos 0) ↔ (a <ℤ b) }
    ensures never_negative { (a b z : ℤ) → lt_violations a b ≡ Ok z → pos 0 ≤ℤ z }
    ensures places { (xs : List ℤ) → of_two lt_violations xs ≡ Ok (pos 0) → (place : ℕ) →
        at_each lt_violations xs place ≡ pos 0 }
    ensures one_kind { GivesOneKind (rule_of_numbers viol_lt) }
{}

/// `alldifferent` has 0 violations exactly where no two places have the same value.
pub fn all_different_law()
    ensures holds { (xs : List ℤ) (z : ℤ) → all_different_violations xs ≡ Ok z →
        (z ≡ pos 0) ↔ AllPairs ◌≢◌ xs }
    ensures never_negative { (xs : List ℤ) (z : ℤ) → all_different_violations xs ≡ Ok z →
        pos 0 ≤ℤ z }
    ensures places { (xs : List ℤ) → all_different_violations xs ≡ Ok (pos 0) →
        (place : ℕ) → place < length xs → all_different_violation_at xs place ≡ pos 0 }
    ensures one_kind { GivesOneKind (rule_of_numbers all_different) }
{}

/// `atmost` has 0 violations exactly where each bounded value stands at no more places than its bound.
pub fn at_most_law()
    ensures holds { (low : ℤ) (bounds xs : List ℤ) (z : ℤ) → at_most_violations low bounds xs ≡ Ok z →
        (z ≡ pos 0) ↔ EachBounded low bounds (λ v c. pos (count_of v xs) ≤ℤ c) }
    ensures never_negative { (low : ℤ) (bounds xs : List ℤ) (z : ℤ) →
        at_most_violations low bounds xs ≡ Ok z → pos 0 ≤ℤ z }
    ensures places { (low : ℤ) (bounds xs : List ℤ) → at_most_violations low bounds xs ≡ Ok (pos 0) →
        (place : ℕ) → at_most_violation_at low bounds xs place ≡ pos 0 }
    ensures one_kind { (low : ℤ) (bounds : List ℤ) →
        GivesOneKind (rule_of_numbers (at_most low bounds)) }
{}

/// `atleast` has 0 violations exactly where each bounded value stands at no fewer places than its bound.
pub fn at_least_law()
    ensures holds { (low : ℤ) (bounds xs : List ℤ) (z : ℤ) → at_least_violations low bounds xs ≡ Ok z →
        (z ≡ pos 0) ↔ EachBounded low bounds (λ v c. c ≤ℤ pos (count_of v xs)) }
    ensures never_negative { (low : ℤ) (bounds xs : List ℤ) (z : ℤ) →
        at_least_violations low bounds xs ≡ Ok z → pos 0 ≤ℤ z }
    ensures places { (low : ℤ) (bounds xs : List ℤ) → at_least_violations low bounds xs ≡ Ok (pos 0) →
        (place : ℕ) → at_least_violation_at low bounds xs place ≡ pos 0 }
    ensures one_kind { (low : ℤ) (bounds : List ℤ) →
        GivesOneKind (rule_of_numbers (at_least low bounds)) }
{}

/// `exactly` has 0 violations exactly where each bounded value stands at as many places as its bound.
pub fn exactly_law()
    ensures holds { (low : ℤ) (bounds xs : List ℤ) (z : ℤ) → exactly_violations low bounds xs ≡ Ok z →
        (z ≡ pos 0) ↔ EachBounded low bounds (λ v c. pos (count_of v xs) ≡ c) }
    ensures never_negative { (low : ℤ) (bounds xs : List ℤ) (z : ℤ) →
        exactly_violations low bounds xs ≡ Ok z → pos 0 ≤ℤ z }
    ensures places { (low : ℤ) (bounds xs : List ℤ) → exactly_violations low bounds xs ≡ Ok (pos 0) →
        (place : ℕ) → exactly_violation_at low bounds xs place ≡ pos 0 }
    ensures one_kind { (low : ℤ) (bounds : List ℤ) →
        GivesOneKind (rule_of_numbers (exactly low bounds)) }
{}

/// `knapsack` has 0 violations exactly where the sum of the numbers, each times its weight, is at most
/// the capacity.
pub fn knapsack_law()
    ensures holds { (weights : List ℤ) (capacity : ℤ) (xs : List ℤ) (z : ℤ) → length xs ≡ length weights → knapsack_violations weights capacity xs ≡ Ok z →
        (z ≡ pos 0) ↔ (pair_total ◌*ℤ◌ weights xs ≤ℤ capacity) }
    ensures never_negative { (weights : List ℤ) (capacity : ℤ) (xs : List ℤ) (z : ℤ) →
        knapsack_violations weights capacity xs ≡ Ok z → pos 0 ≤ℤ z }
    ensures places { (weights : List ℤ) (capacity : ℤ) (xs : List ℤ) → knapsack_violations weights capacity xs ≡ Ok (pos 0) →
        (place : ℕ) → knapsack_violation_at weights capacity xs place ≡ pos 0 }
    ensures one_kind { (weights : List ℤ) (capacity : ℤ) →
        GivesOneKind (rule_of_numbers (knapsack weights capacity)) }
{}

/// `multiknapsack` has 0 violations exactly where the sizes of the items in each bin are at most its
/// capacity.
pub fn multi_knapsack_law()
    ensures holds { (sizes : List ℤ) (low : ℤ) (capacities xs : List ℤ) (z : ℤ) → length xs ≡ length sizes →
        multi_knapsack_violations sizes low capacities xs ≡ Ok z →
        (z ≡ pos 0) ↔ EachBounded low capacities (λ bin capacity. pair_total (λ size x. if int_eq x bin then size else pos 0) sizes xs ≤ℤ capacity) }
    ensures never_negative { (sizes : List ℤ) (low : ℤ) (capacities xs : List ℤ) (z : ℤ) →
        multi_knapsack_violations sizes low capacities xs ≡ Ok z → pos 0 ≤ℤ z }
    ensures places { (sizes : List ℤ) (low : ℤ) (capacities xs : List ℤ) → multi_knapsack_violations sizes low capacities xs ≡ Ok (pos 0) →
        (place : ℕ) → multi_knapsack_violation_at sizes low capacities xs place ≡ pos 0 }
    ensures one_kind { (sizes : List ℤ) (low : ℤ) (capacities : List ℤ) →
        GivesOneKind (rule_of_numbers (multi_knapsack sizes low capacities)) }
{}

/// `sequence` has 0 violations exactly where of each `window` places in a row at most `most` have a value
/// of the set.
pub fn sequence_law()
    ensures holds { (values : List ℤ) (most window : ℤ) (xs : List ℤ) (z : ℤ) → sequence_violations values most window xs ≡ Ok z →
        (z ≡ pos 0) ↔ ((start : ℕ) → start + size_of window ≤ length xs → pos (count_in values (slice_range xs start (start + size_of window))) ≤ℤ most) }
    ensures never_negative { (values : List ℤ) (most window : ℤ) (xs : List ℤ) (z : ℤ) →
        sequence_violations values most window xs ≡ Ok z → pos 0 ≤ℤ z }
    ensures places { (values : List ℤ) (most window : ℤ) (xs : List ℤ) → sequence_violations values most window xs ≡ Ok (pos 0) →
        (place : ℕ) → sequence_violation_at values most window xs place ≡ pos 0 }
    ensures one_kind { (values : List ℤ) (most window : ℤ) →
        GivesOneKind (rule_of_numbers (sequence values most window)) }
{}

/// Where no member is below 0, `and` has 0 violations exactly where each member has 0.
pub fn all_of_law()
    ensures holds { (members : List ℤ) (z : ℤ) → All (λ m. pos 0 ≤ℤ m) members → all_of_violations members ≡ Ok z →
        (z ≡ pos 0) ↔ All (λ m. m ≡ pos 0) members }
    ensures never_negative { (members : List ℤ) (z : ℤ) → All (λ m. pos 0 ≤ℤ m) members →
        all_of_violations members ≡ Ok z → pos 0 ≤ℤ z }
    ensures one_kind { GivesOneKind (rule_of_numbers all_of) }
{}

/// The violations of `or` are those of a member, where there is one, and at most those of each member.
pub fn any_of_law()
    ensures attained { (members : List ℤ) (z : ℤ) → 0 < length members →
        any_of_violations members ≡ Ok z → Contains members z }
    ensures least { (members : List ℤ) (z : ℤ) → any_of_violations members ≡ Ok z →
        All (λ m. z ≤ℤ m) members }
    ensures never_negative { (members : List ℤ) (z : ℤ) → All (λ m. pos 0 ≤ℤ m) members →
        any_of_violations members ≡ Ok z → pos 0 ≤ℤ z }
    ensures one_kind { GivesOneKind (rule_of_numbers any_of) }
{}

/// `!` has 0 violations exactly where its member has some.
pub fn not_held_law()
    ensures holds { (members : List ℤ) (z : ℤ) → not_held_violations members ≡ Ok z →
        (z ≡ pos 0) ↔ (slice_index_or members 0 (pos 0) ≢ pos 0) }
    ensures never_negative { (members : List ℤ) (z : ℤ) → not_held_violations members ≡ Ok z →
        pos 0 ≤ℤ z }
    ensures one_kind { GivesOneKind (rule_of_numbers not_held) }
{}

/// A total isn't below 0 where no member and no weight is, and the repeat of one number is a number.
pub fn total_law()
    ensures never_negative { (members : ℕ) (inputs : List ℤ) (z : ℤ) →
        All (λ m. pos 0 ≤ℤ m) inputs → weighted_total_value members inputs ≡ Ok z → pos 0 ≤ℤ z }
    ensures one_kind { (members : ℕ) → GivesOneKind (weighted_total members) }
    ensures repeated { GivesOneKind repeat }
{}

/// What a constraint is as numbers and lists tells which it is.
pub fn constraints_by_numbers()
    ensures { (a b : Constraint) → constraint_numbers a ≡ constraint_numbers b →
        first_kept a ≡ first_kept b → second_kept a ≡ second_kept b → a ≡ b }
{}
