//! What some words choose, computed from the definitions.

ghost use Rattle.std.specs.Prelude.{◌≡◌, ℕ, List, [], ◌∷◌, Option, Some, None, codes};
ghost use Rattle.clap.specs.Words.{Kinds};
ghost use Rattle.clap.specs.declared.error.kind.ErrorKind.TheVariants.{DisplayHelp, UnknownArgument};
ghost use Rattle.sv8_program.specs.Words.{Chooses, MayFailBy};

/// The words, and what they choose: with none 8 windows and standard input.
pub fn worked_words()
    ensures none { (name : List ℕ) (n : ℕ) (s : Option (List ℕ)) → Chooses name [] n s → (n ≡ 8) × (s ≡ None) }
    ensures script { (name : List ℕ) (n : ℕ) (s : Option (List ℕ)) → Chooses name (codes "boot.txt" ∷ []) n s
        → (n ≡ 8) × (s ≡ Some (codes "boot.txt")) }
    ensures two { (name : List ℕ) (n : ℕ) (s : Option (List ℕ)) → Chooses name (codes "--windows" ∷ codes "2" ∷ []) n s
        → (n ≡ 2) × (s ≡ None) }
    ensures four { (name : List ℕ) (n : ℕ) (s : Option (List ℕ)) → Chooses name (codes "--windows=4" ∷ []) n s
        → (n ≡ 4) × (s ≡ None) }
    ensures sixteen { (name : List ℕ) (n : ℕ) (s : Option (List ℕ)) → Chooses name (codes "--windows" ∷ codes "16" ∷ codes "x" ∷ []) n s
        → (n ≡ 16) × (s ≡ Some (codes "x")) }
    ensures thirty_two { (name : List ℕ) (n : ℕ) (s : Option (List ℕ)) → Chooses name (codes "x" ∷ codes "--windows" ∷ codes "32" ∷ []) n s
        → (n ≡ 32) × (s ≡ Some (codes "x")) }
{}

/// The errors of some words. That of the help is no mistake, and ends the program as `Help`.
pub fn worked_errors()
    ensures help { (name : List ℕ) (kinds : Kinds) → MayFailBy name (codes "--help" ∷ []) kinds → kinds ≡ DisplayHelp ∷ [] }
    ensures short { (name : List ℕ) (kinds : Kinds) → MayFailBy name (codes "-h" ∷ []) kinds → kinds ≡ DisplayHelp ∷ [] }
    ensures unknown { (name : List ℕ) (kinds : Kinds) → MayFailBy name (codes "--window" ∷ []) kinds → kinds ≡ UnknownArgument ∷ [] }
    ensures two { (name : List ℕ) (kinds : Kinds) → MayFailBy name (codes "x" ∷ codes "y" ∷ []) kinds → kinds ≡ UnknownArgument ∷ [] }
{}
