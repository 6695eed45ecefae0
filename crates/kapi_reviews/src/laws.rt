//! What is true of every review, each the clause of a function that does nothing.
ghost use Rattle.std.specs.Prelude.{◌≡◌, false, Some, Ok};
ghost use Rattle.serde_json.specs.Data.{Data, boolean};
ghost use Rattle.kapi_policy.specs.Objects.{PolicyObjects};
ghost use Rattle.kapi_model.specs.declared.identity.Identity.{Identity};
ghost use Rattle.kapi_rules.specs.Points.{HasPlainResource};
ghost use Rattle.kapi_reviews.specs.declared.kind.ReviewKind.{ReviewKind};
ghost use Rattle.kapi_reviews.specs.Kinds.{asks_rules};
ghost use Rattle.kapi_reviews.specs.Laws.{may, said};
ghost use Rattle.kapi_reviews.specs.Reviews.{asked, reviewed};

/// The resource that a review asks about never has a slash, whatever the review specifies.
pub fn the_resource_that_is_asked_about_has_no_slash()
    ensures { (kind : ReviewKind) (caller : Identity) (tree : Data) → HasPlainResource (asked kind caller tree).point }
{}

/// A review of access says `allowed` exactly if the identity it asks about is of the group `system:masters`, or holds a
/// rule in the namespace of the question that allows what is asked.
pub fn what_is_held_is_said_to_be_allowed()
    ensures { (objects : PolicyObjects) (caller : Identity) (kind : ReviewKind) (tree d : Data)
        → asks_rules kind ≡ false → reviewed objects caller kind tree ≡ Ok d
        → said d ≡ Some (boolean (may objects (asked kind caller tree))) }
{}

/// The answer to a review of access asks what the review asks.
pub fn an_answer_asks_the_same()
    ensures { (objects : PolicyObjects) (caller : Identity) (kind : ReviewKind) (tree d : Data)
        → asks_rules kind ≡ false → reviewed objects caller kind tree ≡ Ok d
        → asked kind caller d ≡ asked kind caller tree }
{}
