//! Questions about a whole policy: who may do something, what somebody has, who may gain more than it gives, what can go, and what
//! another policy gives besides (Kubernetes, 'Role Based Access Control Good Practices'); the answers as tables or as JSON.
#![tactic(auto)]

mod allowed;
mod answer;
mod cells;
mod dangling;
mod default_groups;
mod earlier;
mod first_ways;
mod gained;
mod gained_rules;
mod grantee;
mod identities;
pub mod laws;
mod lines;
mod merge_rules;
mod question;
mod rights;
mod rights_of;
mod risky;
mod rows;
mod scoped;
mod way;

pub use allowed::who;
pub use answer::{Compared, Shown, answer_compare, answer_risks, answer_who, settled_line};
pub use dangling::{Covered, absent_accounts, bound_places, covered_rules, dangles};
pub use default_groups::with_default_groups;
pub use gained::{Gain, compare};
pub use gained_rules::{GainedRule, by_rule};
pub use grantee::Grantee;
pub use identities::Identities;
pub use kapi_lines::Form;
pub use lines::{LineFault, answer_lines};
pub use merge_rules::together;
pub use question::{Scope, ScopedPoint, question_of, read_question_line};
pub use rights::{Holder, answer_what};
pub use rights_of::{Given, GivenBy, given_lines, what};
pub use risky::risks;
pub use scoped::ScopedRule;
pub use way::Way;
