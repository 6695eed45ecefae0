/// The four kinds of reviews.
#[derive(Clone, Copy, PartialEq, Eq)]
pub enum ReviewKind {
    /// Asks whether the caller may do something.
    SelfSubjectAccessReview,
    /// Asks whether a user with some groups may do something.
    SubjectAccessReview,
    /// Asks whether a user with some groups may do something in the namespace of the review.
    LocalSubjectAccessReview,
    /// Asks for the rules that the caller holds in a namespace.
    SelfSubjectRulesReview,
}

impl ReviewKind {
    ghost use Rattle.std.specs.Prelude.{◌≡◌};
    ghost use Rattle.kapi_reviews.specs.Kinds as kinds;

    /// The kind as objects write it.
    pub fn as_str(self) -> &'static str
        ensures { result.now ≡ kinds.kind_text self }
    {
        match self {
            ReviewKind::SelfSubjectAccessReview => "SelfSubjectAccessReview",
            ReviewKind::SubjectAccessReview => "SubjectAccessReview",
            ReviewKind::LocalSubjectAccessReview => "LocalSubjectAccessReview",
            ReviewKind::SelfSubjectRulesReview => "SelfSubjectRulesReview",
        }
    }

    /// The kind that a text names, if any.
    pub fn read(text: &str) -> Option<ReviewKind>
        ensures { result ≡ kinds.kind_of text.now }
    {
        match text {
            "SelfSubjectAccessReview" => Some(ReviewKind::SelfSubjectAccessReview),
            "SubjectAccessReview" => Some(ReviewKind::SubjectAccessReview),
            "LocalSubjectAccessReview" => Some(ReviewKind::LocalSubjectAccessReview),
            "SelfSubjectRulesReview" => Some(ReviewKind::SelfSubjectRulesReview),
            _other => None,
        }
    }

    /// Whether the review asks for rules.
    pub fn asks_rules(self) -> bool
        ensures { result ≡ kinds.asks_rules self }
    {
        match self {
            ReviewKind::SelfSubjectRulesReview => true,
            _access => false,
        }
    }

    /// Whether the review is in a namespace.
    pub fn is_local(self) -> bool
        ensures { result ≡ kinds.is_local self }
    {
        match self {
            ReviewKind::LocalSubjectAccessReview => true,
            _cluster_wide => false,
        }
    }

    /// Whether the review names a user and groups.
    pub fn tells_subject(self) -> bool
        ensures { result ≡ kinds.tells_subject self }
    {
        match self {
            ReviewKind::SubjectAccessReview | ReviewKind::LocalSubjectAccessReview => true,
            _own => false,
        }
    }
}
