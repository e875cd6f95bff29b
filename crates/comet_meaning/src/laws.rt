//! Laws over the definitions alone: what they say of every program, and of some small ones.
ghost use Rattle.std.specs.Prelude.{◌≡◌, ℕ, suc, ◌≤◌, pos, true, List, [], ◌∷◌, ◌++◌, codes, Some, Ok};
ghost use Rattle.cbl_base.specs.declared.place.Place.{Place};
ghost use Rattle.checked_tree.specs.Shape.{Shape, Seen, whole};
ghost use Rattle.checked_tree.specs.Tasks.{Coded, Whole, Work};
ghost use Rattle.cbl_base.specs.declared.faults.RunFault.TheVariants.{AlreadyClosed, Depth, DivideByZero, EmptyRange, NoData, NoMove, NotClosed, OutOfRange, UnknownUser, UserSpent, WrongSolver};
ghost use Rattle.comet_meaning.specs.Outcome.{Faulted, Halted, SpentAt, then_do, give};
ghost use Rattle.comet_meaning.specs.Loops.{while_form, turn_form, end_or, repeated};
ghost use Rattle.comet_meaning.specs.Events.{next_event};
ghost use Rattle.comet_meaning.specs.Selection.{scan_form};
ghost use Rattle.std.specs.List.{list_all};
ghost use Rattle.comet_meaning.specs.State.{State, first_state};
ghost use Rattle.comet_meaning.specs.TakingUsers.{take_user};
ghost use Rattle.comet_meaning.specs.Users.{first_free, with_taken};
ghost use Rattle.comet_meaning.specs.Program.{level, code_of, run, meaning, Done, Stopped};
ghost use Rattle.comet_meaning.specs.Purity.{is_pure, pure_functions};
ghost use Rattle.comet_meaning.specs.OneEnd.{HasOneEnd};
ghost use Rattle.comet_meaning.specs.Onward.{IsFront};
ghost use Rattle.comet_meaning.specs.Spending.{IsSpent, Outside, with_outside, leaving};
ghost use Rattle.comet_meaning.specs.Examples as examples;
ghost use Rattle.comet_meaning.specs.SystemExamples as systems;
ghost use Rattle.comet_meaning.specs.SearchExamples as searches;
ghost use Rattle.comet_meaning.specs.UserExamples as posted;
ghost use Rattle.comet_meaning.specs.Words.{behind_word, word, words_behind};

/// From each state a program has exactly one end.
pub fn one_end()
    ensures { (p : Whole) (s : State) → HasOneEnd p s }
{}

/// A run takes back nothing that was printed, and gives back no fuel.
pub fn runs_go_onward()
    ensures fuel { (p : Whole) (s : State) → (run p s).fuel ≤ s.fuel }
    ensures printed { (p : Whole) (s : State) → IsFront s.printed (run p s).printed }
{}

/// A pure expression changes nothing of the state but the fuel, however much room is left for parts inside each other.
pub fn pure_expressions_only_spend_fuel()
    ensures { (functions : List Coded) (room : ℕ) (e : Shape) (s : State) →
        is_pure (pure_functions functions) e ≡ true →
        IsSpent s ((level (code_of functions) room).expr e s) }
{}

/// A pure expression does the same whatever the data is, what each input has read of it, which words come, which solutions,
/// handlers, events and users' constraints there are, and what was printed.
pub fn pure_expressions_see_no_data()
    ensures { (functions : List Coded) (room : ℕ) (e : Shape) (outside : Outside) (s : State) →
        is_pure (pure_functions functions) e ≡ true →
        (level (code_of functions) room).expr e (with_outside outside s) ≡
        leaving outside ((level (code_of functions) room).expr e s) }
{}

/// Where its generators, its condition and its key are pure, the scan of a selector's candidates changes nothing of the
/// state but the fuel, and does the same whatever the data is, which words come, and what else no pure expression sees.
pub fn pure_scans_only_spend_fuel()
    ensures fuel { (functions : List Coded) (room : ℕ) (at : Place) (gs : List Shape)
        (condition key : Shape) (s : State) →
        list_all (is_pure (pure_functions functions)) gs ≡ true →
        is_pure (pure_functions functions) condition ≡ true →
        is_pure (pure_functions functions) key ≡ true →
        IsSpent s (scan_form (level (code_of functions) room) at gs condition key s) }
    ensures inside { (functions : List Coded) (room : ℕ) (at : Place) (gs : List Shape) (condition key : Shape) (outside : Outside) (s : State) → list_all (is_pure (pure_functions functions)) gs ≡ true → is_pure (pure_functions functions) condition ≡ true → is_pure (pure_functions functions) key ≡ true → scan_form (level (code_of functions) room) at gs condition key (with_outside outside s) ≡ leaving outside (scan_form (level (code_of functions) room) at gs condition key s) }
{}

/// A `while` is its first turn and then, where that doesn't end it, the same `while` again: that its turns are counted
/// against the fuel cuts none off.
pub fn a_loop_is_a_turn_and_the_loop_again()
    ensures { (functions : List Coded) (room : ℕ) (at : Place) (test : Seen) (body : Work)
        (s : State) → while_form (level (code_of functions) room) at test body s ≡
        then_do (turn_form (level (code_of functions) room) at (whole test) (give tt) body s)
        (end_or (while_form (level (code_of functions) room) at test body)) }
{}

/// The run of a queue is its first event and then the run of what is queued: that events are counted against the fuel
/// cuts none off.
pub fn a_queue_is_its_first_event_and_the_queue_again()
    ensures { (functions : List Coded) (room : ℕ) (at : Place) (s : State) →
        repeated at (next_event (level (code_of functions) room)) s ≡
        then_do (next_event (level (code_of functions) room) s)
        (end_or (repeated at (next_event (level (code_of functions) room)))) }
{}

/// Division goes toward zero, and the remainder has the dividend's sign.
pub fn division_goes_toward_zero()
    ensures { (meaning examples.dividing 0 100 [] []).printed ≡ codes "-3 1 -1\n" }
{}

/// A loop without an end spends its fuel, at the statement for which none is left.
pub fn bare_loop_spends_fuel()
    ensures { meaning examples.looping 0 10 [] [] ≡
        record { end = Stopped (SpentAt (examples.column 12)); fuel = 0; printed = [] } }
{}

/// A function that goes on calling itself meets the limit of the running depth, at the call.
pub fn endless_call_meets_depth()
    ensures { (meaning examples.deepening 0 1099511627776 [] []).end ≡
        Stopped (Faulted (examples.column 32) Depth) }
{}

/// `getInt` gives the numbers of the data in order, and at its end a fault at the method. What was printed before stays.
pub fn numbers_are_read_in_order()
    ensures { meaning examples.reading 0 10 (codes " 7\n") [] ≡ record { end = Stopped (Faulted (examples.column 55) NoData); fuel = 5; printed = codes "7\n" } }
{}

/// What is assigned in a `with` waits for its end, and what is read there has the value of its start. A block inside it on
/// the same solver is a part of it, and of several numbers for a variable the last one counts.
pub fn blocks_commit_at_their_end()
    ensures one { (meaning examples.committing 0 100 [] []).printed ≡ codes "2 1\n" }
    ensures inner { (meaning examples.joining 0 100 [] []).printed ≡ codes "5 1\n" }
    ensures early { (meaning examples.committing_early 0 100 [] []).end ≡
        Stopped (Faulted (examples.column 57) NotClosed) }
{}

/// A swap gives each of two variables the number of the other, also before `close`; variables of two solvers are no pair.
pub fn swaps_exchange_numbers()
    ensures numbers { (meaning examples.exchanging 0 100 [] []).printed ≡ codes "2 1\n" }
    ensures apart { (meaning examples.exchanging_apart 0 100 [] []).end ≡
        Stopped (Faulted (examples.column 88) WrongSolver) }
{}

/// The right side of a definition is evaluated before the solver refuses it, and a solver is closed once.
pub fn right_side_comes_first()
    ensures right { (meaning examples.defining_by_zero 0 100 [] []).end ≡
        Stopped (Faulted (examples.column 75) DivideByZero) }
    ensures solver { (meaning examples.closing_twice 0 100 [] []).end ≡
        Stopped (Faulted (examples.column 70) AlreadyClosed) }
{}

/// An array of variables costs a unit for each cell where it is declared, and where it is printed; each of its cells is
/// a variable of its own.
pub fn cells_are_variables()
    ensures enough { meaning examples.squaring_cells 0 15 [] [] ≡
        record { end = Done; fuel = 0; printed = codes "[1,4,9]4[1,7,9]0..9" } }
    ensures less { (meaning examples.squaring_cells 0 14 [] []).end ≡
        Stopped (SpentAt (examples.column 106)) }
{}

/// A function writes the array that it is given, and its own copy of a set.
pub fn arrays_are_shared_and_sets_copied()
    ensures { (meaning examples.handing_over 0 100 [] []).printed ≡ codes "[1,2]{1}" }
{}

/// The last generator goes fastest. A tuple, and a value of a generator before the last, cost a unit each.
pub fn tuples_cost_fuel()
    ensures { meaning examples.pairing 0 9 [] [] ≡
        record { end = Done; fuel = 0; printed = codes "11\n12\n22\n" } }
{}

/// The names of generators are bound anew for each tuple, also where the body wrote one.
pub fn tuples_bind_anew()
    ensures { (meaning examples.rebinding 0 100 [] []).printed ≡ codes "11\n12\n21\n22\n" }
{}

/// A call costs a unit, and so do its block and its `return`, each declared cell and each cell of an array that is taken
/// whole. The charge beyond what is left is spent at the array.
pub fn charges_are_exact()
    ensures enough { meaning examples.charging 0 16 [] [] ≡
        record { end = Done; fuel = 0; printed = codes "[0,0,0]" } }
    ensures less { (meaning examples.charging 0 15 [] []).end ≡
        Stopped (SpentAt (examples.column 83)) }
{}

/// Aggregates have the values of their elements, in order of the tuples that pass the condition.
pub fn aggregates_over_tuples()
    ensures { (meaning examples.aggregating 0 100 [] []).printed ≡ codes "14[1,3]{2,4}{3}" }
{}

/// A later operand is evaluated only where it decides.
pub fn later_operands_wait()
    ensures { meaning examples.deciding 0 1 [] [] ≡
        record { end = Done; fuel = 0; printed = codes "false\n" } }
{}

/// A system is made before its solver is closed and asked behind that, about variables of its solver. One without
/// constraints has no violations, and no move changes that; and a sum without terms is 0.
pub fn systems_are_asked_when_closed()
    ensures early { (meaning systems.asking_early 0 100 [] []).end ≡
        Stopped (Faulted (examples.column 94) NotClosed) }
    ensures late { (meaning systems.declaring_late 0 100 [] []).end ≡
        Stopped (Faulted (examples.column 68) AlreadyClosed) }
    ensures another { (meaning systems.asking_of_another 0 100 [] []).end ≡
        Stopped (Faulted (examples.column 136) WrongSolver) }
    ensures nothing { meaning systems.asking_of_nothing 0 13 [] [] ≡
        record { end = Done; fuel = 0; printed = codes "00000" } }
{}

/// A constraint costs a unit at its name, and then each cell of its arrays one at that array, in order of the arguments.
/// Behind these come its lengths and its window.
pub fn lengths_come_behind_the_charges()
    ensures enough { meaning systems.weighing 0 9 [] [] ≡
        record { end = Stopped (Faulted (examples.column 91) OutOfRange); fuel = 0; printed = [] } }
    ensures places { (meaning systems.weighing 0 8 [] []).end ≡
        Stopped (SpentAt (examples.column 106)) }
    ensures weights { (meaning systems.weighing 0 7 [] []).end ≡
        Stopped (SpentAt (examples.column 100)) }
    ensures name { (meaning systems.weighing 0 5 [] []).end ≡
        Stopped (SpentAt (examples.column 91)) }
    ensures window { (meaning systems.without_window 0 100 [] []).end ≡
        Stopped (Faulted (examples.column 91) OutOfRange) }
{}

/// A user's constraint is taken by its name, the first one that is free. Its call costs a unit at its name, and then each
/// place one at the places; and behind these it is taken. A second one is taken where there is a second.
pub fn users_are_taken_by_name()
    ensures unknown { meaning (posted.posting_of (codes "other")) 0 8 [] posted.both ≡ record { end = Stopped (Faulted (examples.column 91) UnknownUser); fuel = 0; printed = [] } }
    ensures places { (meaning (posted.posting_of (codes "other")) 0 7 [] posted.both).end ≡
        Stopped (SpentAt (examples.column 103)) }
    ensures name { (meaning (posted.posting_of (codes "other")) 0 5 [] posted.both).end ≡
        Stopped (SpentAt (examples.column 91)) }
    ensures spent { (meaning (posted.posting_of (codes "allequal")) 0 100 []
        (with_taken posted.both 0)).end ≡ Stopped (Faulted (examples.column 91) UserSpent) }
    ensures twice { (at : Place) → then_do
        (take_user at (codes "increasing") (first_state 0 0 [] posted.both)) (λ n.
        take_user at (codes "increasing")) ≡
        Halted (Faulted at UserSpent) (record { fuel = 0; printed = [] }) }
    ensures second { first_free (codes "allequal") (with_taken (posted.both ++ posted.both) 0) ≡
        Some 2 }
{}

/// A system has the violations that the rule of a user's constraint in it tells of the numbers at its places.
pub fn users_tell_violations()
    ensures equal { posted.violations_over posted.all_equal (pos 2 ∷ pos 2 ∷ pos 5 ∷ []) ≡
        Ok (pos 1) }
    ensures increasing { posted.violations_over posted.increasing (pos 3 ∷ pos 1 ∷ pos 2 ∷ []) ≡
        Ok (pos 2) }
{}

/// The words of a stream are the generator's, one after the other. Known are the first three of seed 42 and stream 54.
pub fn words_come_in_order()
    ensures order { (seed stream n : ℕ) →
        behind_word (words_behind seed stream n) ≡ words_behind seed stream (suc n) }
    ensures first { word 42 54 0 ≡ 0x86b1da1d72062b68 }
    ensures second { word 42 54 1 ≡ 0x1304aa46c9853d39 }
    ensures third { word 42 54 2 ≡ 0xa3670e9e0dd50358 }
{}

/// A draw takes one word. A selector takes one where several candidates tie, and none where there is one or none.
pub fn draws_take_words()
    ensures draws { (meaning searches.drawing 42 100 [] []).printed ≡ codes "23124" }
    ensures nothing { (meaning searches.drawing_nothing 42 100 [] []).end ≡
        Stopped (Faulted (examples.column 40) EmptyRange) }
{}

/// A selector runs its body for a candidate with the least or the greatest key, and not at all where none is kept.
pub fn selectors_choose_by_key()
    ensures least { (meaning searches.choosing_least 0 100 [] []).printed ≡ codes "4\n" }
    ensures none { (meaning searches.choosing_none 0 100 [] []).printed ≡ codes "end\n" }
{}

/// A candidate costs a unit at the statement, and a value of a generator before the last one a unit at its name. All
/// candidates are listed before the first is tested.
pub fn candidates_cost_fuel()
    ensures enough { meaning searches.choosing_pair 0 8 [] [] ≡
        record { end = Done; fuel = 0; printed = codes "21" } }
    ensures body { (meaning searches.choosing_pair 0 7 [] []).end ≡
        Stopped (SpentAt (examples.column 45)) }
    ensures last { (meaning searches.choosing_pair 0 6 [] []).end ≡
        Stopped (SpentAt (examples.column 1)) }
    ensures value { (meaning searches.choosing_pair 0 2 [] []).end ≡
        Stopped (SpentAt (examples.column 11)) }
{}

/// Handlers run behind the outermost commit, those of one commit in the order of `whenever`, and those of a commit inside
/// a handler behind all that wait. A commit that changes nothing runs none.
pub fn handlers_run_in_order()
    ensures once { (meaning searches.passing_on 0 100 [] []).printed ≡ codes "y4\n" }
    ensures blocks { (meaning searches.watching_block 0 100 [] []).printed ≡
        codes "1->3\n3->2\n2 3\n" }
    ensures queue { (meaning searches.queueing 0 100 [] []).printed ≡ codes "abc" }
{}

/// A handler that is attached while handlers run takes part only in later commits.
pub fn new_handlers_wait()
    ensures { (meaning searches.attaching 0 100 [] []).printed ≡ codes "5" }
{}

/// Each run of a handler, and of a move, sees the names as they were where it was made.
pub fn closures_keep_names()
    ensures handlers { (meaning searches.keeping_names 0 100 [] []).printed ≡ codes "11" }
    ensures moves { (meaning searches.calling_again 0 100 [] []).printed ≡ codes "11" }
{}

/// A selector of moves keeps the first of those with the least delta.
pub fn least_moves_are_kept()
    ensures best { (meaning searches.best_move 0 100 [] []).printed ≡ codes "2" }
    ensures first { (meaning searches.first_move 0 100 [] []).printed ≡ codes "1" }
    ensures none { (meaning searches.without_move 0 100 [] []).end ≡
        Stopped (Faulted (examples.column 100) NoMove) }
{}

/// A solution keeps the numbers of the free variables, and `restore` commits them, at the end of an open `with`.
pub fn solutions_are_restored()
    ensures restored { (meaning searches.restoring_one 0 100 [] []).printed ≡ codes "1" }
    ensures later { (meaning searches.restoring_later 0 100 [] []).printed ≡ codes "71" }
    ensures early { (meaning searches.keeping_early 0 100 [] []).end ≡
        Stopped (Faulted (examples.column 57) NotClosed) }
{}
