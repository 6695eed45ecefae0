//! Nobody gains what no actor held: the effect of the check against escalation and of the turns of aggregated cluster
//! roles over whole runs (Kubernetes, 'Using RBAC Authorization', 'Privilege escalation prevention and bootstrapping').
#![tactic(auto)]

pub mod laws;
pub mod stored;
