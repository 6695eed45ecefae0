ghost use Rattle.std.specs.Prelude.{◌≡◌};
ghost use Rattle.kapi_object.specs.Tables.{rows_of};

use crate::text_rule::TextRule;
use crate::typed_list::Presence;
use crate::word::Word;

/// A condition on the members of an object, by which a part is chosen for another member.
#[derive(Clone, Copy)]
pub enum When {
    /// The value at the key is anything but an empty list.
    Given(Word),
    /// The value at the key is a text that is not empty.
    Filled(Word),
    /// The value at the key is one of the two words.
    Says(Word, Word, Word),
    /// The value at the key is a text that the rule allows.
    Keeps(Word, TextRule),
}

/// Whether an empty list is written.
#[derive(Clone, Copy)]
pub enum Written {
    Always,
    NotEmpty,
}

/// Which values a key may have.
#[derive(Clone, Copy)]
pub enum ValueRule {
    /// Any value; it is not kept.
    Dropped,
    /// No value.
    Forbidden,
    Text(TextRule),
    /// A list of texts.
    Texts(Presence, TextRule),
    /// Labels.
    Labels,
    /// An object of the table.
    Object(Presence, Table),
    /// A list of objects of the table.
    Objects(Presence, Written, Table),
}

/// The part for a key: the one whose condition holds first, else the last.
#[derive(Clone, Copy)]
pub enum Choice {
    One(ValueRule),
    Two(When, ValueRule, ValueRule),
    Three(When, ValueRule, When, ValueRule, ValueRule),
}

/// A key, and which values it may have.
#[derive(Clone, Copy)]
pub struct Row(pub Word, pub Choice);

/// A sort of objects, by the members that it has (Kubernetes API, rbac.authorization.k8s.io/v1, and `LabelSelector` of
/// meta/v1). What a role allows in its namespace alone and what cluster-wide have tables of their own.
#[derive(Clone, Copy)]
pub enum Table {
    Role,
    ClusterRole,
    RoleBinding,
    ClusterRoleBinding,
    RoleRule,
    ClusterRoleRule,
    AggregationRule,
    Selector,
    Requirement,
    Subject,
    ClusterSubject,
    RoleRef,
    ClusterRoleRef,
}

const URLS: When = When::Given(Word::NonResourceUrls);

const LISTING: When = When::Says(Word::Operator, Word::In, Word::NotIn);

const TOLD_OPERATOR: When = When::Keeps(Word::Operator, TextRule::Operator);

const ACCOUNT: When = When::Says(Word::Kind, Word::ServiceAccount, Word::ServiceAccount);

const TOLD_KIND: When = When::Keeps(Word::Kind, TextRule::SubjectKind);

const RULES: ValueRule = ValueRule::Objects(Presence::Optional, Written::Always, Table::RoleRule);

const CLUSTER_RULES: ValueRule = ValueRule::Objects(
    Presence::Optional,
    Written::Always,
    Table::ClusterRoleRule,
);

const AGGREGATION: ValueRule = ValueRule::Object(Presence::Optional, Table::AggregationRule);

const ROLE_REFERENCE: ValueRule = ValueRule::Object(Presence::Required, Table::RoleRef);

const CLUSTER_ROLE_REFERENCE: ValueRule = ValueRule::Object(
    Presence::Required,
    Table::ClusterRoleRef,
);

const SUBJECTS: ValueRule = ValueRule::Objects(
    Presence::Optional,
    Written::NotEmpty,
    Table::Subject,
);

const CLUSTER_SUBJECTS: ValueRule = ValueRule::Objects(
    Presence::Optional,
    Written::NotEmpty,
    Table::ClusterSubject,
);

const SELECTORS: ValueRule = ValueRule::Objects(
    Presence::Required,
    Written::Always,
    Table::Selector,
);

const REQUIREMENTS: ValueRule = ValueRule::Objects(
    Presence::Optional,
    Written::NotEmpty,
    Table::Requirement,
);

const SOME_TEXTS: ValueRule = ValueRule::Texts(Presence::Required, TextRule::Any);

const NO_TEXTS: ValueRule = ValueRule::Texts(Presence::Forbidden, TextRule::Any);

const ANY_TEXTS: ValueRule = ValueRule::Texts(Presence::Optional, TextRule::Any);

const SOME_VALUES: ValueRule = ValueRule::Texts(Presence::Required, TextRule::LabelValue);

const NO_VALUES: ValueRule = ValueRule::Texts(Presence::Forbidden, TextRule::LabelValue);

const ANY_VALUES: ValueRule = ValueRule::Texts(Presence::Optional, TextRule::LabelValue);

const LABEL_KEY: ValueRule = ValueRule::Text(TextRule::LabelKey);

const OPERATOR: ValueRule = ValueRule::Text(TextRule::Operator);

const SUBJECT_KIND: ValueRule = ValueRule::Text(TextRule::SubjectKind);

const ACCOUNT_NAME: ValueRule = ValueRule::Text(TextRule::AccountName);

const SOME_NAME: ValueRule = ValueRule::Text(TextRule::NotEmpty);

const EMPTY_TEXT: ValueRule = ValueRule::Text(TextRule::Empty);

const RBAC_GROUP_FILLED: ValueRule = ValueRule::Text(TextRule::RbacGroup);

const ANY_TEXT: ValueRule = ValueRule::Text(TextRule::Any);

const RBAC_GROUP_OR_EMPTY: ValueRule = ValueRule::Text(TextRule::RbacGroupOrEmpty);

const ROLE_KIND: ValueRule = ValueRule::Text(TextRule::RoleKind);

const CLUSTER_ROLE_KIND: ValueRule = ValueRule::Text(TextRule::ClusterRoleKind);

const ROLE_NAME: ValueRule = ValueRule::Text(TextRule::RoleName);

const UNLESS_URLS: Choice = Choice::Two(URLS, NO_TEXTS, SOME_TEXTS);

const NAMES: Choice = Choice::Two(URLS, NO_TEXTS, ANY_TEXTS);

const VALUES: Choice = Choice::Three(LISTING, SOME_VALUES, TOLD_OPERATOR, NO_VALUES, ANY_VALUES);

const NAME: Choice = Choice::Two(ACCOUNT, ACCOUNT_NAME, SOME_NAME);

const GROUP: Choice = Choice::Three(ACCOUNT, EMPTY_TEXT, TOLD_KIND, RBAC_GROUP_FILLED, ANY_TEXT);

const PLACE: Choice = Choice::Two(ACCOUNT, ANY_TEXT, ValueRule::Dropped);

const NAMED_PLACE: Choice = Choice::Two(ACCOUNT, SOME_NAME, ValueRule::Dropped);

const ROLE: [Row; 1] = [Row(Word::Rules, Choice::One(RULES))];

const CLUSTER_ROLE: [Row; 2] = [
    Row(Word::Rules, Choice::One(CLUSTER_RULES)),
    Row(Word::AggregationRule, Choice::One(AGGREGATION)),
];

const ROLE_BINDING: [Row; 2] = [
    Row(Word::RoleRef, Choice::One(ROLE_REFERENCE)),
    Row(Word::Subjects, Choice::One(SUBJECTS)),
];

const CLUSTER_ROLE_BINDING: [Row; 2] = [
    Row(Word::RoleRef, Choice::One(CLUSTER_ROLE_REFERENCE)),
    Row(Word::Subjects, Choice::One(CLUSTER_SUBJECTS)),
];

const ROLE_RULE: [Row; 5] = [
    Row(Word::Verbs, Choice::One(SOME_TEXTS)),
    Row(Word::ApiGroups, UNLESS_URLS),
    Row(Word::Resources, UNLESS_URLS),
    Row(Word::ResourceNames, NAMES),
    Row(Word::NonResourceUrls, Choice::One(NO_TEXTS)),
];

const CLUSTER_ROLE_RULE: [Row; 5] = [
    Row(Word::Verbs, Choice::One(SOME_TEXTS)),
    Row(Word::ApiGroups, UNLESS_URLS),
    Row(Word::Resources, UNLESS_URLS),
    Row(Word::ResourceNames, NAMES),
    Row(Word::NonResourceUrls, Choice::One(ANY_TEXTS)),
];

const AGGREGATION_RULE: [Row; 1] = [Row(Word::ClusterRoleSelectors, Choice::One(SELECTORS))];

const SELECTOR: [Row; 2] = [
    Row(Word::MatchLabels, Choice::One(ValueRule::Labels)),
    Row(Word::MatchExpressions, Choice::One(REQUIREMENTS)),
];

const REQUIREMENT: [Row; 3] = [
    Row(Word::Key, Choice::One(LABEL_KEY)),
    Row(Word::Operator, Choice::One(OPERATOR)),
    Row(Word::Values, VALUES),
];

const SUBJECT: [Row; 4] = [
    Row(Word::Kind, Choice::One(SUBJECT_KIND)),
    Row(Word::Name, NAME),
    Row(Word::ApiGroup, GROUP),
    Row(Word::Namespace, PLACE),
];

const CLUSTER_SUBJECT: [Row; 4] = [
    Row(Word::Kind, Choice::One(SUBJECT_KIND)),
    Row(Word::Name, NAME),
    Row(Word::ApiGroup, GROUP),
    Row(Word::Namespace, NAMED_PLACE),
];

const ROLE_REF: [Row; 3] = [
    Row(Word::ApiGroup, Choice::One(RBAC_GROUP_OR_EMPTY)),
    Row(Word::Kind, Choice::One(ROLE_KIND)),
    Row(Word::Name, Choice::One(ROLE_NAME)),
];

const CLUSTER_ROLE_REF: [Row; 3] = [
    Row(Word::ApiGroup, Choice::One(RBAC_GROUP_OR_EMPTY)),
    Row(Word::Kind, Choice::One(CLUSTER_ROLE_KIND)),
    Row(Word::Name, Choice::One(ROLE_NAME)),
];

/// The rows of a table.
pub fn rows(table: Table) -> &'static [Row]
    ensures { result.now ≡ rows_of table }
{
    match table {
        Table::Role => &ROLE,
        Table::ClusterRole => &CLUSTER_ROLE,
        Table::RoleBinding => &ROLE_BINDING,
        Table::ClusterRoleBinding => &CLUSTER_ROLE_BINDING,
        Table::RoleRule => &ROLE_RULE,
        Table::ClusterRoleRule => &CLUSTER_ROLE_RULE,
        Table::AggregationRule => &AGGREGATION_RULE,
        Table::Selector => &SELECTOR,
        Table::Requirement => &REQUIREMENT,
        Table::Subject => &SUBJECT,
        Table::ClusterSubject => &CLUSTER_SUBJECT,
        Table::RoleRef => &ROLE_REF,
        Table::ClusterRoleRef => &CLUSTER_ROLE_REF,
    }
}
