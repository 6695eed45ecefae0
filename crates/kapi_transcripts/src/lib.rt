//! Transcripts as texts: requests and events with expected answers, the cases that they make, and reports of the answers
//! that differ. No machine plays them here.
#![tactic(auto)]

mod asked;
mod case;
mod correction;
mod draft;
mod failure;
mod field;
mod files;
mod form;
mod junit;
mod loads;
mod report;
mod request;
mod sent;
mod wanted;

pub use asked::attributes_of;
pub use case::{Beginning, Case, Expectation, Loaded, Manifests, ScriptLine};
pub use correction::{corrected, exactly};
pub use draft::{Draft, cases};
pub use failure::{Check, Difference, Doubt, Failure, Outcome};
pub use files::{LoadedFile, NamedFile, Transcript, file_named, only_text, texts_named};
pub use form::{Form, Source, parse_form};
pub use junit::junit_text;
pub use loads::{cases_in, loaded_names};
pub use report::{are_sure, are_well, is_difference, line_at, outcome_text};
pub use request::{Request, push_number};
pub use wanted::{Expected, is_met, parse_wanted};
