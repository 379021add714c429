//! A theorem on first breaches. The function does nothing: its contract is the theorem.
ghost use Rattle.std.specs.Prelude.{◌≡◌, ℕ};
ghost use Rattle.layout_set.specs.declared.breach.Item.{Item};
ghost use Rattle.layout_set.specs.declared.set.Set.{Set};
ghost use Rattle.layout_set.specs.FirstBreach.{IsFirstBreach};
ghost use Rattle.layout_set.specs.Laws.{laws, sound_laws};

/// A set has at most one first breach, of all laws and of those that make it sound.
#[tactic(auto, using(crate::proofs::Firsts::one_breach))]
pub fn a_set_has_at_most_one_first_breach()
    ensures lawful { (set : Set) (m n : ℕ) (a b : Item) → IsFirstBreach set (laws set) m a → IsFirstBreach set (laws set) n b → (m ≡ n) × (a ≡ b) }
    ensures sound { (set : Set) (m n : ℕ) (a b : Item) → IsFirstBreach set (sound_laws set) m a → IsFirstBreach set (sound_laws set) n b → (m ≡ n) × (a ≡ b) }
{}
