//! Answers about a whole policy, as they are printed.
ghost use Rattle.std.specs.Prelude.{◌≡◌, ◌==◌, ◌++◌, IfOk, length, not};
ghost use Rattle.kapi_text.specs.ResultIs.{ResultIs};
ghost use Rattle.kapi_access.specs.Gained.{gained};
ghost use Rattle.kapi_access.specs.Risks.{risks};
ghost use Rattle.kapi_access.specs.Answers.{gains_text, settled_line as settled_text, ways_text, who_text};
ghost use Rattle.kapi_access.specs.Lines.{answered_lines, model_of_fault};
ghost use Rattle.kapi_access.specs.Rights.{what_text};
ghost use Rattle.kapi_engine.specs.Paths.{IsPathsText, settled_end as settled_end_of};
ghost use Rattle.kapi_lines.specs.Lines.{lines_of};

use crate::loaded_policy::LoadedPolicy;
use kapi_access::{
    Compared, Form, Holder, Identities, LineFault, ScopedPoint, Shown, answer_compare,
    answer_lines, answer_risks, answer_what, answer_who, settled_line,
};
use kapi_lines::numbered_lines;
use kapi_paths::answer_paths;
use kapi_text::{Memory, Text};
use std::alloc::Global;

impl LoadedPolicy {
    /// Who may do what is asked: a line for each user and group and each binding by which it may.
    pub fn who(&self, alloc: Global, form: Form, wanted: &ScopedPoint) -> Result<Vec<u8>, Memory>
        ensures { IfOk result (λ v. v.items ≡ who_text form self.now.policy wanted.now) }
    {
        let bindings = self.policy.bindings()?;
        answer_who(alloc, form, &self.policy, bindings.as_slice(), wanted)
    }

    /// Who may do what each line of a file asks, as `VERB RESOURCE [NAMESPACE [NAME]]`.
    ///
    /// # Errors
    /// `Question` at the first line that is no question, `Memory` if an allocation fails.
    pub fn who_lines(
        &self,
        alloc: Global,
        form: Form,
        questions: &[u8],
    ) -> Result<Vec<u8>, LineFault>
        ensures { ResultIs model_of_fault (λ v. v.items) result (answered_lines form self.now.policy (lines_of questions.now)) }
    {
        let lines = numbered_lines(alloc, questions)?;
        let bindings = self.policy.bindings()?;
        answer_lines(
            alloc,
            form,
            &self.policy,
            bindings.as_slice(),
            lines.as_slice(),
        )
    }

    /// What a user has: a line for each rule and scope, with all bindings by which it is given.
    pub fn what(&self, alloc: Global, form: Form, holder: &Holder) -> Result<Vec<u8>, Memory>
        ensures { IfOk result (λ v. v.items ≡ what_text form self.now.policy holder.now) }
    {
        let bindings = self.policy.bindings()?;
        answer_what(alloc, form, &self.policy, bindings.as_slice(), holder)
    }

    /// Who may gain more than the policy gives, and what holds of all others.
    pub fn risks(&self, alloc: Global, form: Form) -> Result<Vec<u8>, Memory>
        ensures { IfOk result (λ v. v.items ≡ ways_text form (risks self.now.policy) ++ settled_text form self.now.settled) }
    {
        let bindings = self.policy.bindings()?;
        let mut text = answer_risks(alloc, form, &self.policy, bindings.as_slice())?;
        text.extend_from_slice(settled_line(form, self.settled))?;
        Ok(text)
    }

    /// Who can become whom: only paths to that node, as it is printed, unless the name is empty, and without the rights of
    /// some kinds. As text the last line says what was not looked at, as JSON whether the roles are settled.
    pub fn paths(
        &self,
        alloc: Global,
        form: Form,
        to: &str,
        without: &[Text],
    ) -> Result<Vec<u8>, Memory>
        ensures { IfOk result (λ v. IsPathsText self.now form to.now without.now v.items) }
    {
        let bindings = self.policy.bindings()?;
        let mut text = answer_paths(alloc, form, &self.policy, bindings.as_slice(), to, without)?;
        text.extend_from_slice(settled_end(form, self.settled))?;
        Ok(text)
    }
}

fn settled_end(form: Form, settled: bool) -> &'static [u8]
    ensures { result.now ≡ settled_end_of form settled }
{
    match form {
        Form::Json => settled_line(Form::Json, settled),
        Form::Table | Form::Markdown => &[],
    }
}

/// What the policy after grants those identities that the policy before did not, and whether it grants anybody anything.
pub fn compare(
    alloc: Global,
    form: Form,
    shown: Shown,
    identities: Identities,
    before: &LoadedPolicy,
    after: &LoadedPolicy,
) -> Result<Compared, Memory>
    ensures text { IfOk result (λ c. c.text.items ≡ gains_text form shown (gained identities before.now.policy after.now.policy)) }
    ensures gains { IfOk result (λ c. c.gains ≡ not (length (gained identities before.now.policy after.now.policy) == 0)) }
{
    let earlier = before.policy.bindings()?;
    let bindings = after.policy.bindings()?;
    answer_compare(
        alloc,
        form,
        shown,
        identities,
        &before.policy,
        earlier.as_slice(),
        &after.policy,
        bindings.as_slice(),
    )
}
