//! What holds of all words.
ghost use Rattle.std.specs.Prelude.{◌≡◌, ◌↔◌, ℕ, List, IsSome};
ghost use Rattle.comet_words.specs.Options.{Item};
ghost use Rattle.comet_words.specs.Asked.{asked};
ghost use Rattle.comet_words.specs.InForm.{AreItems, InForm};

/// Words ask for something exactly where they are in form, rule by rule; and they are items in one way.
pub fn in_form()
    ensures rules { (words : List (List ℕ)) → IsSome (asked words) ↔ InForm words }
    ensures one { (words : List (List ℕ)) (items others : List Item) →
        AreItems words items → AreItems words others → items ≡ others }
{}
