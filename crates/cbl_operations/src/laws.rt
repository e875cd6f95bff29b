//! What the formulas of operations mean, in their subject's own words.
ghost use Rattle.std.specs.Prelude.{◌≡◌, ◌≢◌, ◌↔◌, ℕ, ℤ, pos, ◌+ℤ◌, ◌*ℤ◌, ◌≤ℤ◌, ◌<ℤ◌, ◌+◌, ◌*◌, ◌<◌, ◌||◌, ◌&&◌, ◌++◌, not, List, [], ◌∷◌, length, unsigned_abs, IsTrue, All, Any, Contains, Ok, Err, false};
ghost use Rattle.cbl_base.specs.Counts.{count_of};
ghost use Rattle.cbl_base.specs.Inputs.{kind_of};
ghost use Rattle.cbl_base.specs.NodeLaw.{GivesOneKind};
ghost use Rattle.cbl_base.specs.NumberRule.{NumberRule};
ghost use Rattle.cbl_base.specs.declared.input.Input.{Input};
ghost use Rattle.cbl_base.specs.Sets.{IsRising, is_member};
ghost use Rattle.cbl_base.specs.declared.faults.RunFault.TheVariants.{OutOfRange};
ghost use Rattle.cbl_operations.specs.Binary.{binary_number, binary_value};
ghost use Rattle.cbl_operations.specs.Forms.{number_at};
ghost use Rattle.cbl_operations.specs.Places.{IsLeastOf, IsGreatestOf, IsKeyWhere};
ghost use Rattle.cbl_operations.specs.Keyed.{keyed_number, keyed_value};
ghost use Rattle.cbl_operations.specs.Nary.{nary_number};
ghost use Rattle.cbl_operations.specs.Operations.And.{and};
ghost use Rattle.cbl_operations.specs.Operations.Count.{count};
ghost use Rattle.cbl_operations.specs.Operations.Element.{element};
ghost use Rattle.cbl_operations.specs.Operations.Element2.{element2};
ghost use Rattle.cbl_operations.specs.Operations.Greatest.{greatest};
ghost use Rattle.cbl_operations.specs.Operations.Least.{least};
ghost use Rattle.cbl_operations.specs.Operations.Or.{or};
ghost use Rattle.cbl_operations.specs.RuleOf.{rule_of, value_kind, is_constraint};
ghost use Rattle.cbl_operations.specs.TwoSets.{two_sets_number, two_sets_value};
ghost use Rattle.cbl_operations.specs.Unary.{unary_number, unary_value};
ghost use Rattle.cbl_operations.specs.declared.binary.BinaryOp.{BinaryOp};
ghost use Rattle.cbl_operations.specs.declared.binary.BinaryOp.TheVariants.{Div, Rem, Eq, Ne, Le, Lt};
ghost use Rattle.cbl_operations.specs.declared.keyed.KeyedOp.{KeyedOp};
ghost use Rattle.cbl_operations.specs.declared.keyed.KeyedOp.TheVariants.{ArgMin, ArgMax, SetOf};
ghost use Rattle.cbl_operations.specs.declared.nary.NaryOp.{NaryOp};
ghost use Rattle.cbl_operations.specs.declared.op.Op.{Op};
ghost use Rattle.cbl_operations.specs.declared.two_sets.TwoSetsOp.{TwoSetsOp};
ghost use Rattle.cbl_operations.specs.declared.two_sets.TwoSetsOp.TheVariants.{Union, Inter, Minus};
ghost use Rattle.cbl_operations.specs.declared.unary.UnaryOp.{UnaryOp};
ghost use Rattle.cbl_operations.specs.declared.unary.UnaryOp.TheVariants.{Not};

/// The least of some numbers is one of them, and none is below it; the greatest is one of them, and none
/// is above it.
pub fn least_and_greatest()
    ensures least { (xs : List ℤ) (v : ℤ) → IsTrue (least.takes (length xs)) →
        least.value xs ≡ Ok v → Contains xs v × IsLeastOf xs v }
    ensures greatest { (xs : List ℤ) (v : ℤ) → IsTrue (greatest.takes (length xs)) →
        greatest.value xs ≡ Ok v → Contains xs v × IsGreatestOf xs v }
{}

/// The dividend is the divisor times the quotient and the remainder. The remainder is nearer to 0 than the
/// divisor, and not of the other sign than the dividend.
pub fn quotient_and_remainder()
    ensures { (a b q r : ℤ) → binary_value Div a b ≡ Ok q → binary_value Rem a b ≡ Ok r →
        (a ≡ q *ℤ b +ℤ r) × (unsigned_abs r < unsigned_abs b) × (pos 0 ≤ℤ a → pos 0 ≤ℤ r) × (a ≤ℤ pos 0 → r ≤ℤ pos 0) }
{}

/// A relation is 1 exactly where it holds.
pub fn relations_hold()
    ensures equal { (a b : ℤ) → (binary_value Eq a b ≡ Ok (pos 1)) ↔ (a ≡ b) }
    ensures unequal { (a b : ℤ) → (binary_value Ne a b ≡ Ok (pos 1)) ↔ (a ≢ b) }
    ensures at_most { (a b : ℤ) → (binary_value Le a b ≡ Ok (pos 1)) ↔ (a ≤ℤ b) }
    ensures below { (a b : ℤ) → (binary_value Lt a b ≡ Ok (pos 1)) ↔ (a <ℤ b) }
{}

/// `and` is 1 exactly where no operand is 0, `or` exactly where some operand isn't 0, and `!` exactly where
/// its operand is 0.
pub fn truth_of_parts()
    ensures all { (xs : List ℤ) → (and.value xs ≡ Ok (pos 1)) ↔ All (λ x. x ≢ pos 0) xs }
    ensures some { (xs : List ℤ) → (or.value xs ≡ Ok (pos 1)) ↔ Any (λ x. x ≢ pos 0) xs }
    ensures none { (x : ℤ) → (unary_value Not x ≡ Ok (pos 1)) ↔ (x ≡ pos 0) }
{}

/// What is counted stands behind the cells.
pub fn count_of_cells()
    ensures { (cells : List ℤ) (e : ℤ) →
        count.value (cells ++ e ∷ []) ≡ Ok (pos (count_of e cells)) }
{}

/// The k-th cell from 0 has the index `low` and k more; an index below `low` or past the last has none.
pub fn cells_by_index()
    ensures inside { (low : ℤ) (cells : List ℤ) (k : ℕ) → k < length cells →
        (element low (length cells)).value ((low +ℤ pos k) ∷ cells) ≡ Ok (number_at cells k) }
    ensures before { (low index : ℤ) (cells : List ℤ) → index <ℤ low →
        (element low (length cells)).value (index ∷ cells) ≡ Err OutOfRange }
    ensures past { (low index : ℤ) (cells : List ℤ) → (low +ℤ pos (length cells)) ≤ℤ index →
        (element low (length cells)).value (index ∷ cells) ≡ Err OutOfRange }
{}

/// The cell in the r-th row and the c-th column, each from 0, stands behind r whole rows and c cells.
pub fn cells_by_row_and_column()
    ensures { (low1 : ℤ) (len1 : ℕ) (low2 : ℤ) (len2 : ℕ) (cells : List ℤ) (r c : ℕ) → r < len1 → c < len2 →
        (element2 low1 len1 low2 len2).value ((low1 +ℤ pos r) ∷ (low2 +ℤ pos c) ∷ cells) ≡ Ok (number_at cells (r * len2 + c)) }
{}

/// The members of a union are those of either set, those of an `inter` those of both, and those of a `minus`
/// those of the first that are none of the second.
pub fn members_of_sets()
    ensures union { (s t u : List ℤ) → two_sets_value Union s t ≡ u →
        IsRising u × ((v : ℤ) → is_member v u ≡ (is_member v s || is_member v t)) }
    ensures inter { (s t u : List ℤ) → two_sets_value Inter s t ≡ u →
        IsRising u × ((v : ℤ) → is_member v u ≡ (is_member v s && is_member v t)) }
    ensures minus { (s t u : List ℤ) → two_sets_value Minus s t ≡ u →
        IsRising u × ((v : ℤ) → is_member v u ≡ (is_member v s && not (is_member v t))) }
{}

/// The keys of `argMin` are exactly those at which the number is least, those of `argMax` exactly those at
/// which it is greatest, and those of `setof` exactly those at which it is 1.
pub fn keys_of_numbers()
    ensures least { (keys xs : List ℤ) (key : ℤ) →
        IsTrue (is_member key (keyed_value ArgMin keys xs)) ↔ IsKeyWhere (IsLeastOf xs) keys xs key }
    ensures greatest { (keys xs : List ℤ) (key : ℤ) →
        IsTrue (is_member key (keyed_value ArgMax keys xs)) ↔ IsKeyWhere (IsGreatestOf xs) keys xs key }
    ensures ones { (keys xs : List ℤ) (key : ℤ) →
        IsTrue (is_member key (keyed_value SetOf keys xs)) ↔ IsKeyWhere (λ x. x ≡ pos 1) keys xs key }
{}

/// The number of an operation tells which of its type it is.
pub fn operations_by_number()
    ensures unary { (a b : UnaryOp) → unary_number a ≡ unary_number b → a ≡ b }
    ensures binary { (a b : BinaryOp) → binary_number a ≡ binary_number b → a ≡ b }
    ensures nary { (a b : NaryOp) → nary_number a ≡ nary_number b → a ≡ b }
    ensures keyed { (a b : KeyedOp) → keyed_number a ≡ keyed_number b → a ≡ b }
    ensures two_sets { (a b : TwoSetsOp) → two_sets_number a ≡ two_sets_number b → a ≡ b }
{}

/// All values of an operation are of its kind, so over inputs of the same kinds they are of one.
pub fn values_of_one_kind()
    ensures kind { (users : ℕ → NumberRule) (op : Op) (inputs : List Input) (x : Input) →
        (rule_of users op).value inputs ≡ Ok x → kind_of x ≡ value_kind op }
    ensures one_kind { (users : ℕ → NumberRule) (op : Op) → GivesOneKind (rule_of users op) }
{}

/// What is no constraint has the violation 0 at each place.
pub fn operations_have_no_violation()
    ensures { (users : ℕ → NumberRule) (op : Op) (inputs : List Input) (place : ℕ) →
        is_constraint op ≡ false → (rule_of users op).violation_at inputs place ≡ pos 0 }
{}
