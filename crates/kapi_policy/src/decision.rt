use kapi_model::RoleRef;

/// The two kinds of bindings: in a namespace, and cluster-wide (Kubernetes, 'Using RBAC Authorization', 'RoleBinding
/// and ClusterRoleBinding').
#[derive(Clone, Copy, PartialEq, Eq)]
pub enum BindingKind {
    RoleBinding,
    ClusterRoleBinding,
}

/// The rule that allows a request, and the binding by which the identity holds it.
#[derive(Drop)]
pub struct Grant<'a> {
    pub kind: BindingKind,
    /// The binding's name.
    pub binding: &'a str,
    /// The role that the binding refers to.
    pub role: &'a RoleRef,
    /// The index of the rule among the role's own, from 0.
    pub rule: usize,
}

/// Whether a request is allowed, and by what.
#[derive(Drop)]
pub enum Decision<'a> {
    Allowed(Grant<'a>),
    /// The identity is of the group `system:masters`, which may do everything (Kubernetes, 'Using RBAC Authorization',
    /// 'User-facing roles').
    Masters,
    Denied,
}

impl Decision<'_> {
    ghost use Rattle.std.specs.Prelude.{◌≡◌};
    ghost use Rattle.kapi_policy.specs.Laws.{is_allowed};
    ghost use Rattle.kapi_policy.specs.Views.{decision_of};

    /// Whether the request is allowed.
    pub fn is_allowed(&self) -> bool
        ensures { result ≡ is_allowed (decision_of self.now) }
    {
        match self {
            Decision::Allowed(_grant) => true,
            Decision::Masters => true,
            Decision::Denied => false,
        }
    }
}
