//! Laws of atoms, each the clause of a function that does nothing.
ghost use Rattle.std.specs.Prelude.{◌≡◌, ◌∷◌, ◌&&◌, List, [], codes, false, true};
ghost use Rattle.std.specs.Bool.{Decides};
ghost use Rattle.std.specs.List.{AllPairs, flat_map, list_any};
ghost use Rattle.kapi_model.specs.declared.policy_rule.PolicyRule.{PolicyRule};
ghost use Rattle.kapi_rules.specs.Atoms.{atom_allows, atoms as atoms_of, implies as atom_implies, rule_of};
ghost use Rattle.kapi_rules.specs.Missing.{is_missing, missing as missing_of, same_atom};
ghost use Rattle.kapi_rules.specs.Points.{HasPlainResource};
ghost use Rattle.kapi_rules.specs.Rules.{allows as rule_allows};
ghost use Rattle.kapi_rules.specs.Worked.{get_of, get_on};
ghost use Rattle.kapi_rules.specs.declared.atom.Atom.{Atom};
ghost use Rattle.kapi_rules.specs.declared.point.Point.{Point};

/// Each atom implies itself, and what is implied by an atom that it implies.
pub fn implying_is_a_preorder()
    ensures itself { (a : Atom) → atom_implies a a ≡ true }
    ensures onward { (a b c : Atom) → atom_implies a b ≡ true → atom_implies b c ≡ true → atom_implies a c ≡ true }
{}

/// An atom allows every point that an implied atom allows, if the point's resource has no slash.
pub fn implying_atoms_allow_more()
    ensures { (a b : Atom) (p : Point) → HasPlainResource p → atom_implies a b ≡ true → atom_allows b p ≡ true → atom_allows a p ≡ true }
{}

/// For a resource with a slash the law fails: nothing of `a/b` is missing beside `*/b`, which does not allow it.
pub fn resources_with_slashes_are_not_covered()
    ensures covered { missing_of (get_on (codes "*/b") ∷ []) (get_on (codes "a/b") ∷ []) ≡ [] }
    ensures wanted { rule_allows (get_on (codes "a/b")) (get_of (codes "a/b")) ≡ true }
    ensures held { rule_allows (get_on (codes "*/b")) (get_of (codes "a/b")) ≡ false }
{}

/// A rule allows a point exactly if one of its atoms does, and an atom allows what a rule of that atom alone does.
pub fn rules_are_their_atoms()
    ensures parts { (rule : PolicyRule) (p : Point) → list_any (λ a. atom_allows a p) (atoms_of rule) ≡ rule_allows rule p }
    ensures alone { (a : Atom) (p : Point) → rule_allows (rule_of a) p ≡ atom_allows a p }
{}

/// The missing list has just the wanted atoms that no atom of a held rule implies, and no two of its atoms are the
/// same.
pub fn missing_atoms_are_listed_once()
    ensures same { (a b : Atom) → Decides (same_atom a b) (a ≡ b) }
    ensures listed { (held wanted : List PolicyRule) (b : Atom)
        → list_any (same_atom b) (missing_of held wanted) ≡ (is_missing held b && list_any (same_atom b) (flat_map atoms_of wanted)) }
    ensures once { (held wanted : List PolicyRule) → AllPairs (λ a b. same_atom a b ≡ false) (missing_of held wanted) }
{}
