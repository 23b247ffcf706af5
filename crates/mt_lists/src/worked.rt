ghost use Rattle.std.specs.Prelude.{◌≡◌, ◌∷◌, [], Some};
ghost use Rattle.mt_lists.specs.Keys.{AreApart, change_key, find_key, without_key};
ghost use Rattle.mt_lists.specs.WorkedKeys.{key_of, three};

/// What is found, taken out and changed by a key, and lists whose keys are apart or not.
pub fn worked_keys()
    ensures found { find_key key_of 2 three ≡ Some (2, 6) }
    ensures without { without_key key_of 2 three ≡ (1, 5) ∷ (4, 5) ∷ [] }
    ensures changed { change_key key_of 2 (λ p. (p.0, 9)) three ≡ (1, 5) ∷ (2, 9) ∷ (4, 5) ∷ [] }
    ensures apart { AreApart key_of three }
    ensures not_apart { AreApart key_of ((1, 5) ∷ (2, 6) ∷ (1, 7) ∷ []) → ⊥ }
{}
