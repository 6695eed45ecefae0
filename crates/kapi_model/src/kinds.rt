ghost use Rattle.std.specs.Prelude.{◌≡◌};

/// The API group of roles and bindings.
pub const RBAC_GROUP: &str = "rbac.authorization.k8s.io";

/// The two kinds of roles (Kubernetes, 'Using RBAC Authorization', 'Role and ClusterRole').
#[derive(Clone, Copy, PartialEq, Eq)]
pub enum RoleKind {
    Role,
    ClusterRole,
}

/// The three kinds of subjects (Kubernetes, 'Using RBAC Authorization', 'Referring to subjects').
#[derive(Clone, Copy, PartialEq, Eq)]
pub enum SubjectKind {
    User,
    Group,
    ServiceAccount,
}

impl RoleKind {
    ghost use Rattle.std.specs.Prelude.{◌≡◌};
    ghost use Rattle.kapi_model.specs.Kinds.{role_kind, role_kind_text};

    /// The kind as objects write it.
    pub fn as_str(self) -> &'static str
        ensures { result.now ≡ role_kind_text self }
    {
        match self {
            RoleKind::Role => "Role",
            RoleKind::ClusterRole => "ClusterRole",
        }
    }

    /// The kind that a text names, if any.
    pub fn read(text: &str) -> Option<RoleKind>
        ensures { result ≡ role_kind text.now }
    {
        match text {
            "Role" => Some(RoleKind::Role),
            "ClusterRole" => Some(RoleKind::ClusterRole),
            _other => None,
        }
    }
}

impl SubjectKind {
    ghost use Rattle.std.specs.Prelude.{◌≡◌};
    ghost use Rattle.kapi_model.specs.Kinds.{subject_kind, subject_kind_text};

    /// The kind as objects write it.
    pub fn as_str(self) -> &'static str
        ensures { result.now ≡ subject_kind_text self }
    {
        match self {
            SubjectKind::User => "User",
            SubjectKind::Group => "Group",
            SubjectKind::ServiceAccount => "ServiceAccount",
        }
    }

    /// The kind that a text names, if any.
    pub fn read(text: &str) -> Option<SubjectKind>
        ensures { result ≡ subject_kind text.now }
    {
        match text {
            "User" => Some(SubjectKind::User),
            "Group" => Some(SubjectKind::Group),
            "ServiceAccount" => Some(SubjectKind::ServiceAccount),
            _other => None,
        }
    }
}
