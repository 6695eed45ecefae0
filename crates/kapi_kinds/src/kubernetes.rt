//! Common kinds of Kubernetes 1.33, as lines of kinds.

/// Kinds of Kubernetes 1.33 that the programs do not serve of themselves: a line of kinds for each.
pub fn kubernetes_kinds() -> &'static str {
    KUBERNETES
}

const KUBERNETES: &str =
    r#"{"group":"","version":"v1","resource":"services","kind":"Service","namespaced":true,"status":true}
{"group":"","version":"v1","resource":"endpoints","kind":"Endpoints","namespaced":true,"status":false}
{"group":"","version":"v1","resource":"events","kind":"Event","namespaced":true,"status":false}
{"group":"","version":"v1","resource":"persistentvolumes","kind":"PersistentVolume","namespaced":false,"status":true}
{"group":"","version":"v1","resource":"persistentvolumeclaims","kind":"PersistentVolumeClaim","namespaced":true,"status":true}
{"group":"","version":"v1","resource":"limitranges","kind":"LimitRange","namespaced":true,"status":false}
{"group":"","version":"v1","resource":"resourcequotas","kind":"ResourceQuota","namespaced":true,"status":true}
{"group":"apps","version":"v1","resource":"replicasets","kind":"ReplicaSet","namespaced":true,"status":true}
{"group":"apps","version":"v1","resource":"statefulsets","kind":"StatefulSet","namespaced":true,"status":true}
{"group":"apps","version":"v1","resource":"daemonsets","kind":"DaemonSet","namespaced":true,"status":true}
{"group":"batch","version":"v1","resource":"jobs","kind":"Job","namespaced":true,"status":true}
{"group":"batch","version":"v1","resource":"cronjobs","kind":"CronJob","namespaced":true,"status":true}
{"group":"networking.k8s.io","version":"v1","resource":"ingresses","kind":"Ingress","namespaced":true,"status":true}
{"group":"networking.k8s.io","version":"v1","resource":"networkpolicies","kind":"NetworkPolicy","namespaced":true,"status":false}
{"group":"coordination.k8s.io","version":"v1","resource":"leases","kind":"Lease","namespaced":true,"status":false}
{"group":"storage.k8s.io","version":"v1","resource":"storageclasses","kind":"StorageClass","namespaced":false,"status":false}
{"group":"autoscaling","version":"v2","resource":"horizontalpodautoscalers","kind":"HorizontalPodAutoscaler","namespaced":true,"status":true}
{"group":"policy","version":"v1","resource":"poddisruptionbudgets","kind":"PodDisruptionBudget","namespaced":true,"status":true}
{"group":"scheduling.k8s.io","version":"v1","resource":"priorityclasses","kind":"PriorityClass","namespaced":false,"status":false}
{"group":"apiextensions.k8s.io","version":"v1","resource":"customresourcedefinitions","kind":"CustomResourceDefinition","namespaced":false,"status":true}
"#;
