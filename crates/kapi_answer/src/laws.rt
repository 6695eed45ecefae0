//! Laws of answers, each the clause of a function that does nothing.
ghost use Rattle.std.specs.Prelude.{Result};
ghost use Rattle.kapi_http.specs.declared.message.HttpFault.{HttpFault};
ghost use Rattle.kapi_http.specs.declared.message.HttpRequest.{HttpRequest};
ghost use Rattle.kapi_policy.specs.Objects.{PolicyObjects};
ghost use Rattle.kapi_model.specs.declared.identity.Identity.{Identity};
ghost use Rattle.kapi_store.specs.Plain.{Plain};
ghost use Rattle.kapi_answer.specs.Answer.{answer};
ghost use Rattle.kapi_answer.specs.Histories.{AnswersWrite, LoadsCreate};
ghost use Rattle.kapi_answer.specs.Impersonation.{AreGrantedAs};

/// The check against escalation grants what an answer changes to the identity as which the request is made, which is
/// the caller or one that the caller may impersonate: the first of the changes is granted; the others are deletions.
#[tactic(auto, using(crate::proofs::Granted::answers_are_granted))]
pub fn what_an_answer_changes_was_granted()
    ensures { (objects : PolicyObjects) (s : Plain) (identity : Identity) (item : Result HttpRequest HttpFault)
        → AreGrantedAs objects identity (answer objects s identity item).changes }
{}

/// If each stored object has the namespace and the name of its place, an answer changes what one write makes:
/// nothing, or what a creation, a replacement or a removal makes, whose trees have the namespace and the name of their
/// places too. An object that is loaded changes what a creation makes, whatever is stored.
pub fn what_an_answer_changes_is_one_write()
    ensures answers { AnswersWrite }
    ensures loads { LoadsCreate }
{}
