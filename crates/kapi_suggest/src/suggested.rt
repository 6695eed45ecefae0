//! The rules that are suggested.
use crate::user_scope::UserScope;
use kapi_model::PolicyRule;
use kapi_text::Sequence;

/// What a user needs at a place.
#[derive(Drop)]
pub struct Suggested {
    pub at: UserScope,
    pub rules: Sequence<PolicyRule>,
}
