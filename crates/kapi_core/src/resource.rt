ghost use Rattle.std.specs.Prelude.{◌≡◌, IfOk, map as map_of};
ghost use Rattle.kapi_core.specs.Table.{required_rows, row_of};
ghost use Rattle.kapi_core.specs.Table.{namespaces_row, roles_row, role_bindings_row, cluster_roles_row, cluster_role_bindings_row};
ghost use Rattle.kapi_core.specs.Table.{access_reviews_row, local_access_reviews_row, own_access_reviews_row, rules_reviews_row};

use kapi_model::{RBAC_GROUP, ResourceRow, Schema};
use kapi_text::{Memory, Text};
use std::alloc::Global;

/// The group of reviews.
const REVIEWS_GROUP: &str = "authorization.k8s.io";

/// A resource of version v1, as `kubectl api-resources` lists it.
#[derive(Clone, Copy)]
pub struct Resource {
    pub group: &'static str,
    pub plural: &'static str,
    pub kind: &'static str,
    pub namespaced: bool,
    pub has_status: bool,
    pub schema: Schema,
}

impl Resource {
    /// The resource type of the resource in a table.
    pub fn row(&self, alloc: Global) -> Result<ResourceRow, Memory>
        ensures { IfOk result (λ r. r ≡ row_of self.now) }
    {
        Ok(ResourceRow {
            group: Text::copy_of(alloc, self.group)?,
            version: Text::copy_of(alloc, "v1")?,
            plural: Text::copy_of(alloc, self.plural)?,
            kind: Text::copy_of(alloc, self.kind)?,
            namespaced: self.namespaced,
            has_status: self.has_status,
            schema: self.schema,
        })
    }
}

/// The resources that each table has: namespaces, the four kinds of the policy, and the four kinds of reviews.
#[tactic(auto, unfolding(crate::specs::Table::required_rows))]
pub fn required_resources() -> [Resource; 9]
    ensures { map_of row_of result ≡ required_rows }
{
    [
        namespaces(),
        roles(),
        role_bindings(),
        cluster_roles(),
        cluster_role_bindings(),
        own_access_reviews(),
        access_reviews(),
        local_access_reviews(),
        rules_reviews(),
    ]
}

/// Namespaces are in no namespace and have a status (Kubernetes API, `Namespace` of v1).
pub fn namespaces() -> Resource
    ensures { row_of result ≡ namespaces_row }
{
    Resource {
        group: "",
        plural: "namespaces",
        kind: "Namespace",
        namespaced: false,
        has_status: true,
        schema: Schema::Open,
    }
}

/// Roles (Kubernetes API, rbac.authorization.k8s.io/v1).
pub fn roles() -> Resource
    ensures { row_of result ≡ roles_row }
{
    Resource {
        group: RBAC_GROUP,
        plural: "roles",
        kind: "Role",
        namespaced: true,
        has_status: false,
        schema: Schema::Role,
    }
}

/// Role bindings.
pub fn role_bindings() -> Resource
    ensures { row_of result ≡ role_bindings_row }
{
    Resource {
        group: RBAC_GROUP,
        plural: "rolebindings",
        kind: "RoleBinding",
        namespaced: true,
        has_status: false,
        schema: Schema::RoleBinding,
    }
}

/// Cluster roles.
pub fn cluster_roles() -> Resource
    ensures { row_of result ≡ cluster_roles_row }
{
    Resource {
        group: RBAC_GROUP,
        plural: "clusterroles",
        kind: "ClusterRole",
        namespaced: false,
        has_status: false,
        schema: Schema::ClusterRole,
    }
}

/// Cluster role bindings.
pub fn cluster_role_bindings() -> Resource
    ensures { row_of result ≡ cluster_role_bindings_row }
{
    Resource {
        group: RBAC_GROUP,
        plural: "clusterrolebindings",
        kind: "ClusterRoleBinding",
        namespaced: false,
        has_status: false,
        schema: Schema::ClusterRoleBinding,
    }
}

/// Reviews of what the caller may do (Kubernetes API, authorization.k8s.io/v1).
fn own_access_reviews() -> Resource
    ensures { row_of result ≡ own_access_reviews_row }
{
    Resource {
        group: REVIEWS_GROUP,
        plural: "selfsubjectaccessreviews",
        kind: "SelfSubjectAccessReview",
        namespaced: false,
        has_status: false,
        schema: Schema::Open,
    }
}

/// Reviews of what others may do.
pub fn access_reviews() -> Resource
    ensures { row_of result ≡ access_reviews_row }
{
    Resource {
        group: REVIEWS_GROUP,
        plural: "subjectaccessreviews",
        kind: "SubjectAccessReview",
        namespaced: false,
        has_status: false,
        schema: Schema::Open,
    }
}

/// Reviews of what others may do in a namespace.
fn local_access_reviews() -> Resource
    ensures { row_of result ≡ local_access_reviews_row }
{
    Resource {
        group: REVIEWS_GROUP,
        plural: "localsubjectaccessreviews",
        kind: "LocalSubjectAccessReview",
        namespaced: true,
        has_status: false,
        schema: Schema::Open,
    }
}

/// Reviews of the rules that the caller holds.
fn rules_reviews() -> Resource
    ensures { row_of result ≡ rules_reviews_row }
{
    Resource {
        group: REVIEWS_GROUP,
        plural: "selfsubjectrulesreviews",
        kind: "SelfSubjectRulesReview",
        namespaced: false,
        has_status: false,
        schema: Schema::Open,
    }
}
