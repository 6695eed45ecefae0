//! Laws of turns, each the clause of a function that does nothing.
ghost use Rattle.std.specs.Prelude.{◌≡◌, List, Ok, Some};
ghost use Rattle.std.specs.Map.{lookup};
ghost use Rattle.serde_json.specs.Data.{Data};
ghost use Rattle.kapi_store.specs.Keys.{is_key};
ghost use Rattle.kapi_store.specs.Plain.{Plain, PlainChange};
ghost use Rattle.kapi_aggregation.specs.Rewriting.{AreRewrites, rewriting, role_key};
ghost use Rattle.kapi_aggregation.specs.declared.turn.Turn.{Turn};

/// A turn writes its cluster role with the turn's rules in place of the role's own, and with its labels; it writes
/// nothing if the role has these rules already.
#[tactic(auto, using(crate::proofs::Rewritten::turn_rewrites_what_stands))]
pub fn a_turn_changes_only_rules()
    ensures { (turn : Turn) (s : Plain) (changes : List PlainChange) → rewriting turn s ≡ Ok changes
        → (old : Data) × ((lookup (is_key (role_key turn.name)) s.objects ≡ Some old) × AreRewrites turn old changes) }
{}
