use crate::decision::BindingKind;
use kapi_model::{RoleRef, Subject};

/// A binding of either kind. The namespace is empty for a cluster role binding.
#[derive(Drop)]
pub struct Binding<'a> {
    pub kind: BindingKind,
    pub namespace: &'a str,
    pub name: &'a str,
    pub subjects: &'a [Subject],
    pub role: &'a RoleRef,
}
