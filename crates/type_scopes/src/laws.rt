//! Laws over the definitions alone.
ghost use Rattle.std.specs.Prelude.{◌≡◌, ℕ, List, false, ◌<◌, ◌++◌, ◌∷◌, [], length, slice_get, Some, None};
ghost use Rattle.type_scopes.specs.declared.names.Binding.{Binding};
ghost use Rattle.type_scopes.specs.declared.names.Found.{Found};
ghost use Rattle.type_scopes.specs.declared.scope.Scope.{Scope};
ghost use Rattle.type_scopes.specs.Uses.{IsDeclaration};
ghost use Rattle.type_scopes.specs.Names.{look, is_named, slot_of, index_of, opened};

/// A use of a name is its last declaration that is visible, and none is found only where there is none.
pub fn uses_name_declarations()
    ensures found { (name : List ℕ) (names : List Binding) (f : Found) → look name names ≡ Some f →
        IsDeclaration name names f }
    ensures none { (name : List ℕ) (names : List Binding) (i : ℕ) (b : Binding) →
        look name names ≡ None → slice_get names i ≡ Some b → is_named name b ≡ false }
{}

/// A slot says which declaration it is: the name's number is known from it, a block inside keeps it, and a new
/// declaration has a slot of its own.
pub fn slots_name_declarations()
    ensures number { (scope : Scope) (i : ℕ) → index_of scope (slot_of scope i) ≡ i }
    ensures inside { (scope : Scope) (n i : ℕ) → i < n →
        slot_of (opened scope n) i ≡ slot_of scope i }
    ensures apart { (scope : Scope) (i j : ℕ) → slot_of scope i ≡ slot_of scope j → i ≡ j }
{}
