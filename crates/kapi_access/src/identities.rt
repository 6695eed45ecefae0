/// About whom a question is.
#[derive(Clone, Copy)]
pub enum Identities {
    /// All that can be: any user, in any groups or in none.
    Any,
    /// As authentication gives them: each user with the groups that it has by itself (Kubernetes, 'Authenticating').
    Usual,
}
