//! What a user is answered depends only on what the user may read or write (Kubernetes, 'Using RBAC Authorization').
#![tactic(auto)]

pub mod laws;
