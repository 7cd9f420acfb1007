//! Laws of the grammar of both versions, apart from the functions that read and write it.

ghost use Rattle.std.specs.Prelude.{◌≡◌, List, ℕ, ◌++◌};
ghost use Rattle.frame_codec.specs.Frame.{Fields, IsFrame};
ghost use Rattle.frame_codec.specs.Spelling.{Spells, spelling};

/// No spelling of a frame begins a spelling of another, of either version, whatever follows either of them.
pub fn no_spelling_begins_another()
    ensures { (a b x y : List ℕ) (f g : Fields) → Spells a f → Spells b g → a ++ x ≡ b ++ y → (a ≡ b) × (f ≡ g) }
{}

/// Each frame in range has a spelling, and no other.
pub fn each_frame_has_one_spelling()
    ensures some { (f : Fields) → IsFrame f → Spells (spelling f) f }
    ensures one { (a b : List ℕ) (f : Fields) → Spells a f → Spells b f → a ≡ b }
{}

/// Bytes spell one frame at most.
pub fn each_spelling_is_of_one_frame()
    ensures { (a : List ℕ) (f g : Fields) → Spells a f → Spells a g → f ≡ g }
{}
