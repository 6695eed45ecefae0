/// The keys of the members with rows in tables, and the words that rows compare with.
#[derive(Clone, Copy)]
pub enum Word {
    Rules,
    AggregationRule,
    RoleRef,
    Subjects,
    Verbs,
    ApiGroups,
    Resources,
    ResourceNames,
    NonResourceUrls,
    ClusterRoleSelectors,
    MatchLabels,
    MatchExpressions,
    Key,
    Operator,
    Values,
    In,
    NotIn,
    Kind,
    Name,
    ApiGroup,
    Namespace,
    ServiceAccount,
}

impl Word {
    ghost use Rattle.std.specs.Prelude.{◌≡◌};
    ghost use Rattle.kapi_object.specs.Tables.{word_text};

    /// The word as bodies have it.
    pub fn as_str(self) -> &'static str
        ensures { result.now ≡ word_text self }
    {
        match self {
            Word::Rules => "rules",
            Word::AggregationRule => "aggregationRule",
            Word::RoleRef => "roleRef",
            Word::Subjects => "subjects",
            Word::Verbs => "verbs",
            Word::ApiGroups => "apiGroups",
            Word::Resources => "resources",
            Word::ResourceNames => "resourceNames",
            Word::NonResourceUrls => "nonResourceURLs",
            Word::ClusterRoleSelectors => "clusterRoleSelectors",
            Word::MatchLabels => "matchLabels",
            Word::MatchExpressions => "matchExpressions",
            Word::Key => "key",
            Word::Operator => "operator",
            Word::Values => "values",
            Word::In => "In",
            Word::NotIn => "NotIn",
            Word::Kind => "kind",
            Word::Name => "name",
            Word::ApiGroup => "apiGroup",
            Word::Namespace => "namespace",
            Word::ServiceAccount => "ServiceAccount",
        }
    }
}
