//! The resources of Kubernetes, by group.
use kapi_model::{PolicyRule, ResourceRow};
use kapi_rules::Point;

/// The resources of Kubernetes 1.33, as `kubectl api-resources` lists them: a group, its resources that are in namespaces,
/// and those that are in none.
const SERVED: [(&str, &str, &str); 18] = [
    (
        "",
        "bindings configmaps endpoints events limitranges persistentvolumeclaims pods podtemplates replicationcontrollers resourcequotas secrets serviceaccounts services",
        "componentstatuses groups namespaces nodes persistentvolumes users",
    ),
    (
        "admissionregistration.k8s.io",
        "",
        "mutatingwebhookconfigurations validatingadmissionpolicies validatingadmissionpolicybindings validatingwebhookconfigurations",
    ),
    ("apiextensions.k8s.io", "", "customresourcedefinitions"),
    ("apiregistration.k8s.io", "", "apiservices"),
    (
        "apps",
        "controllerrevisions daemonsets deployments replicasets statefulsets",
        "",
    ),
    (
        "authentication.k8s.io",
        "",
        "selfsubjectreviews tokenreviews uids userextras",
    ),
    (
        "authorization.k8s.io",
        "localsubjectaccessreviews",
        "selfsubjectaccessreviews selfsubjectrulesreviews subjectaccessreviews",
    ),
    ("autoscaling", "horizontalpodautoscalers", ""),
    ("batch", "cronjobs jobs", ""),
    (
        "certificates.k8s.io",
        "",
        "certificatesigningrequests signers",
    ),
    ("coordination.k8s.io", "leases", ""),
    ("discovery.k8s.io", "endpointslices", ""),
    ("events.k8s.io", "events", ""),
    (
        "flowcontrol.apiserver.k8s.io",
        "",
        "flowschemas prioritylevelconfigurations",
    ),
    (
        "networking.k8s.io",
        "ingresses networkpolicies",
        "ingressclasses ipaddresses servicecidrs",
    ),
    ("policy", "poddisruptionbudgets", "podsecuritypolicies"),
    (
        "rbac.authorization.k8s.io",
        "rolebindings roles",
        "clusterrolebindings clusterroles",
    ),
    (
        "storage.k8s.io",
        "csistoragecapacities",
        "csidrivers csinodes storageclasses volumeattachments",
    ),
];

/// Whether no request for the point has a namespace: its resource is in none, so no RoleBinding counts (Kubernetes, 'Using
/// RBAC Authorization'). A namespace is its own; `bind` is asked in that of the binding, `use` in that of the pod.
pub fn has_no_namespace(point: &Point) -> bool {
    let Point::Resource(point) = point else {
        return true;
    };
    let (verb, group) = (point.verb.as_str(), point.group.as_str());
    let resource = point.resource.as_str();
    !["bind", "use", "*"].contains(&verb)
        && resource != "namespaces"
        && SERVED
            .iter()
            .any(|served| served.0 == group && has_word(served.2, resource))
}

fn has_word(words: &str, word: &str) -> bool {
    words.split_whitespace().any(|known| known == word)
}

/// Whether some group of the rule may have the resource: `*` may have any, and so may groups of which no kind is known.
pub fn is_served(table: &[ResourceRow], rule: &PolicyRule, resource: &str) -> bool {
    let whole = match resource.split_once('/') {
        Some((whole, _subresource)) => whole,
        None => resource,
    };
    whole == "*"
        || rule
            .api_groups
            .as_slice()
            .iter()
            .any(|group| has_resource(table, group.as_str(), whole))
}

fn has_resource(table: &[ResourceRow], group: &str, resource: &str) -> bool {
    let of_kubernetes = SERVED.iter().find(|served| served.0 == group);
    let is_added = table.iter().any(|row| row.group.as_str() == group
        && row.plural.as_str() == resource);
    match of_kubernetes {
        Some(served) => is_added || has_word(served.1, resource) || has_word(served.2, resource),
        None => is_added || !table.iter().any(|row| row.group.as_str() == group),
    }
}
