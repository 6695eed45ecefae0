//! The table of rights by which one becomes somebody else.
ghost use Rattle.std.specs.Prelude.{◌≡◌, ◌++◌, map, IfOk, OnOk};
ghost use Rattle.std.specs.List.{filter, flat_map, list_any};
ghost use Rattle.std.specs.Str.{bytes_eq};
ghost use Rattle.kapi_paths.specs.Rights as table;
ghost use Rattle.kapi_paths.specs.Rights.{group_of, resource_of, row_of};

use kapi_text::{Memory, Text};
use std::alloc::Global;

/// For which names the right is asked.
#[derive(Clone, Copy, PartialEq, Eq)]
pub enum Names {
    /// For an object without a name, or whatever its name.
    Unnamed,
    /// For an object of some name, or without one.
    Any,
    /// For the signer of clients of the API server, or for all of `kubernetes.io`.
    Signer,
}

/// Whom the right leads to.
#[derive(Clone, Copy, PartialEq, Eq)]
pub enum Leads {
    /// Everything, cluster-wide alone.
    Everything,
    /// All in the namespace.
    All,
    /// The accounts of the namespace.
    Accounts,
    /// The accounts of those names, without names all of the namespace.
    NamedAccounts,
    /// The users of those names, without names every one; cluster-wide alone.
    NamedUsers,
    /// The groups of those names, without names that of masters; cluster-wide alone.
    NamedGroups,
    /// The Roles of those names, without names all in the namespace.
    NamedRoles,
    /// What the namespace asks of its pods, if its name is listed or none is; cluster-wide each of those names.
    NamedLimits,
    /// The ClusterRoles of those names there, without names all in the namespace, or everything.
    NamedClusterRoles,
}

/// A right of a kind: a verb on a group's resource and subresource, asked for such names, and whom it leads to.
#[derive(Clone, Copy)]
pub struct Right(
    pub &'static str,
    pub &'static str,
    pub &'static str,
    pub &'static str,
    pub &'static str,
    pub Names,
    pub Leads,
);

/// A resource of a group, with its subresource.
#[derive(Clone, Copy)]
struct Resource(&'static str, &'static str, &'static str);

/// Rights of a kind: each of the verbs on each of the resources.
#[derive(Clone, Copy)]
struct Group {
    kind: &'static str,
    verbs: &'static [&'static str],
    resources: &'static [Resource],
    names: Names,
    leads: Leads,
}

// What makes pods.
fn workloads() -> &'static [Resource]
    ensures { map resource_of result.now ≡ table.workloads }
{
    &[
        Resource("", "pods", ""),
        Resource("", "replicationcontrollers", ""),
        Resource("apps", "deployments", ""),
        Resource("apps", "replicasets", ""),
        Resource("apps", "statefulsets", ""),
        Resource("apps", "daemonsets", ""),
        Resource("batch", "jobs", ""),
        Resource("batch", "cronjobs", ""),
    ]
}

#[tactic(auto, unfolding(crate::specs::Rights::cluster_groups))]
fn cluster_groups() -> [Group; 8]
    ensures { map group_of result ≡ table.cluster_groups }
{
    [
        // Whoever may do everything is everybody: the rule of `cluster-admin` ('User-facing roles').
        Group {
            kind: "star",
            verbs: &["*"],
            resources: &[Resource("*", "*", "")],
            names: Names::Unnamed,
            leads: Leads::All,
        },
        Group {
            kind: "star",
            verbs: &["*"],
            resources: &[Resource("*", "*", "")],
            names: Names::Unnamed,
            leads: Leads::Everything,
        },
        // 'Persistent volume creation': it "includes the creation of hostPath volumes", and so the files of every node.
        Group {
            kind: "volumes",
            verbs: &["create"],
            resources: &[Resource("", "persistentvolumes", "")],
            names: Names::Unnamed,
            leads: Leads::Everything,
        },
        // 'Access to proxy subresource of Nodes': it allows "command execution on every pod on the node(s)".
        Group {
            kind: "nodes",
            verbs: &["create", "get"],
            resources: &[Resource("", "nodes", "proxy")],
            names: Names::Any,
            leads: Leads::Everything,
        },
        // 'Escalate verb': who has it "can effectively escalate their privileges".
        Group {
            kind: "escalate",
            verbs: &["escalate"],
            resources: &[Resource("rbac.authorization.k8s.io", "clusterroles", "")],
            names: Names::Any,
            leads: Leads::Everything,
        },
        Group {
            kind: "escalate",
            verbs: &["escalate"],
            resources: &[Resource("rbac.authorization.k8s.io", "roles", "")],
            names: Names::Any,
            leads: Leads::All,
        },
        // 'Bind verb': it lets a user "create bindings to roles with rights they do not already have".
        Group {
            kind: "bind",
            verbs: &["bind"],
            resources: &[Resource("rbac.authorization.k8s.io", "clusterroles", "")],
            names: Names::Any,
            leads: Leads::NamedClusterRoles,
        },
        Group {
            kind: "bind",
            verbs: &["bind"],
            resources: &[Resource("rbac.authorization.k8s.io", "roles", "")],
            names: Names::Any,
            leads: Leads::NamedRoles,
        },
    ]
}

#[tactic(auto, unfolding(crate::specs::Rights::account_groups))]
fn account_groups() -> [Group; 5]
    ensures { map group_of result ≡ table.account_groups }
{
    [
        // 'Listing secrets': `get`, `list` and `watch` let a user "reveal the Secret contents", the tokens of accounts among them.
        Group {
            kind: "secrets",
            verbs: &["get", "list", "watch"],
            resources: &[Resource("", "secrets", "")],
            names: Names::Unnamed,
            leads: Leads::Accounts,
        },
        // 'Workload creation': it "grants the API access levels of any service account in that namespace".
        Group {
            kind: "workloads",
            verbs: &["create"],
            resources: workloads(),
            names: Names::Unnamed,
            leads: Leads::Accounts,
        },
        // A change of a workload can put another account into its pods' template.
        Group {
            kind: "changes",
            verbs: &["update", "patch"],
            resources: workloads(),
            names: Names::Any,
            leads: Leads::Accounts,
        },
        // A command in a pod that runs has the token of its account.
        Group {
            kind: "exec",
            verbs: &["create", "get"],
            resources: &[Resource("", "pods", "exec"), Resource("", "pods", "attach")],
            names: Names::Any,
            leads: Leads::Accounts,
        },
        Group {
            kind: "exec",
            verbs: &["update", "patch"],
            resources: &[Resource("", "pods", "ephemeralcontainers")],
            names: Names::Any,
            leads: Leads::Accounts,
        },
    ]
}

#[tactic(auto, unfolding(crate::specs::Rights::person_groups))]
fn person_groups() -> [Group; 7]
    ensures { map group_of result ≡ table.person_groups }
{
    [
        // 'Impersonate verb': it lets a user "gain the rights of other users in the cluster".
        Group {
            kind: "impersonate",
            verbs: &["impersonate"],
            resources: &[Resource("", "users", "")],
            names: Names::Any,
            leads: Leads::NamedUsers,
        },
        Group {
            kind: "impersonate",
            verbs: &["impersonate"],
            resources: &[Resource("", "groups", "")],
            names: Names::Any,
            leads: Leads::NamedGroups,
        },
        Group {
            kind: "impersonate",
            verbs: &["impersonate"],
            resources: &[Resource("", "serviceaccounts", "")],
            names: Names::Any,
            leads: Leads::NamedAccounts,
        },
        // 'Token request': `create` on it lets a user "create TokenRequests to issue tokens for existing service accounts".
        Group {
            kind: "tokens",
            verbs: &["create"],
            resources: &[Resource("", "serviceaccounts", "token")],
            names: Names::Any,
            leads: Leads::NamedAccounts,
        },
        // 'CSRs and certificate issuing': it allows to "create new client certificates which allow users to authenticate to the cluster".
        Group {
            kind: "signers",
            verbs: &["approve", "sign"],
            resources: &[Resource("certificates.k8s.io", "signers", "")],
            names: Names::Signer,
            leads: Leads::Everything,
        },
        // 'Control admission webhooks': they "can read any object admitted to the cluster", and change it.
        Group {
            kind: "webhooks",
            verbs: &["create", "update", "patch"],
            resources: &[
                Resource(
                    "admissionregistration.k8s.io",
                    "validatingwebhookconfigurations",
                    "",
                ),
                Resource(
                    "admissionregistration.k8s.io",
                    "mutatingwebhookconfigurations",
                    "",
                ),
            ],
            names: Names::Any,
            leads: Leads::Everything,
        },
        // 'Namespace modification': its labels may allow "a more permissive policy than intended by the administrators".
        Group {
            kind: "namespaces",
            verbs: &["update", "patch"],
            resources: &[Resource("", "namespaces", "")],
            names: Names::Any,
            leads: Leads::NamedLimits,
        },
    ]
}

fn is_left_out(without: &[Text], kind: &str) -> bool
    ensures { result ≡ list_any (λ w. bytes_eq w kind.now) without.now }
{
    without.iter().any(|word| word.as_str() == kind)
}

fn push_verbs(list: &mut Vec<Right>, group: &Group, on: &Resource) -> Result<(), Memory>
    ensures { OnOk result (map row_of list.new.items ≡ map row_of list.old.items ++ table.rows_on (group_of group.now) (resource_of on.now)) }
{
    for verb in group.verbs {
        list.push(Right(group.kind, verb, on.0, on.1, on.2, group.names, group.leads))?;
    }
    Ok(())
}

fn push_group(list: &mut Vec<Right>, group: &Group) -> Result<(), Memory>
    ensures { OnOk result (map row_of list.new.items ≡ map row_of list.old.items ++ table.rows_of (group_of group.now)) }
{
    for on in group.resources {
        push_verbs(list, group, on)?;
    }
    Ok(())
}

fn push_kept(list: &mut Vec<Right>, groups: &[Group], without: &[Text]) -> Result<(), Memory>
    ensures { OnOk result (map row_of list.new.items ≡ map row_of list.old.items ++ flat_map table.rows_of (filter (table.is_kept without.now) (map group_of groups.now))) }
{
    for group in groups {
        if !is_left_out(without, group.kind) {
            push_group(list, group)?;
        }
    }
    Ok(())
}

/// The rights by which one becomes somebody else, but those of the kinds left out (Kubernetes, 'Role Based Access Control Good
/// Practices', 'Privilege escalation risks').
pub fn rights_without(alloc: Global, without: &[Text]) -> Result<Vec<Right>, Memory>
    ensures { IfOk result (λ v. map row_of v.items ≡ table.rights_without without.now) }
{
    let mut list = Vec::new(alloc);
    push_kept(&mut list, &cluster_groups(), without)?;
    push_kept(&mut list, &account_groups(), without)?;
    push_kept(&mut list, &person_groups(), without)?;
    Ok(list)
}

fn names_kind(groups: &[Group], word: &str) -> bool
    ensures { result ≡ list_any (λ g. bytes_eq g.kind.now word.now) groups.now }
{
    groups.iter().any(|group| group.kind == word)
}

fn has_kind(groups: &[Group], word: &str) -> bool
    ensures { result ≡ list_any (table.is_of_kind word.now) (map group_of groups.now) }
{
    names_kind(groups, word)
}

/// Whether some right of the table is of the kind.
pub fn is_kind(word: &str) -> bool
    ensures { result ≡ table.is_kind word.now }
{
    has_kind(&cluster_groups(), word)
        || has_kind(&account_groups(), word)
        || has_kind(&person_groups(), word)
}
