//! Answers about the policies of files.
ghost use Rattle.std.specs.Prelude.{◌≡◌, Result, IfOk};
ghost use Rattle.kapi_text.specs.ResultIs.{ResultIs};
ghost use Rattle.kapi_loading.specs.Faults as loading;
ghost use Rattle.kapi_loading.specs.Faults.{FileFault};
ghost use Rattle.kapi_engine.specs.LoadedPolicies.{loaded_of};
ghost use Rattle.kapi_engine.specs.declared.loaded_policy.LoadedPolicy.{LoadedPolicy as ALoadedPolicy};
ghost use Rattle.kapi_commands.specs.Policies as files;
ghost use Rattle.kapi_commands.specs.Policies.{answered_told, as_first, compared_to, compared_told, comparison, model_of_fault};

use kapi_command_line::PathsWords;
use kapi_engine::{
    Form, Holder, Identities, LineFault, LoadedPolicy, ScopedPoint, Shown, StartError, compare,
    load,
};
use kapi_text::Memory;
use std::alloc::Global;
use std::thread;
use std::thread::Threads;

/// What is printed of a comparison, whether anybody gains, and whether the roles of each policy are settled.
#[derive(Drop)]
pub struct Compared {
    pub text: Vec<u8>,
    pub gains: bool,
    pub before_settled: bool,
    pub after_settled: bool,
}

/// What is printed of an answer, and whether the roles of the policy are settled.
#[derive(Drop)]
pub struct Answered {
    pub text: Vec<u8>,
    pub settled: bool,
}

/// Why there is no answer.
#[derive(Clone, Copy, PartialEq, Eq)]
pub enum FilesFault {
    /// The line of this number of the first policy is not loaded; the first line of a file is 1.
    First(usize),
    /// The line of this number of the second policy is not loaded; the first line of a file is 1.
    Second(usize),
    /// The line of this number is no question.
    Question(usize),
    Memory,
}

impl From<Memory> for FilesFault {
    ghost use Rattle.std.specs.Prelude.{◌≡◌};
    ghost use Rattle.kapi_commands.specs.declared.policies.FilesFault.TheVariants.{Memory as NoMemory};

    ghost from_gives = { λ _ e. e ≡ NoMemory };

    fn from(_refused: Memory) -> FilesFault {
        FilesFault::Memory
    }
}

/// The fault of a first policy that is not loaded.
fn first_fault(error: StartError) -> FilesFault
    ensures { result ≡ files.first_fault error }
{
    match error {
        StartError::Line(number) => FilesFault::First(number),
        StartError::Memory => FilesFault::Memory,
    }
}

/// The fault of a second policy that is not loaded.
fn second_fault(error: StartError) -> FilesFault
    ensures { result ≡ files.second_fault error }
{
    match error {
        StartError::Line(number) => FilesFault::Second(number),
        StartError::Memory => FilesFault::Memory,
    }
}

/// The policy of the first file.
///
/// # Errors
/// `First` at the first line that is not loaded, `Memory` if an allocation fails.
pub fn load_first(alloc: Global, objects: &[u8]) -> Result<LoadedPolicy, FilesFault>
    ensures { ResultIs model_of_fault (λ e. e) result (as_first (loaded_of objects.now)) }
{
    match load(alloc, objects) {
        Ok(loaded) => Ok(loaded),
        Err(error) => Err(first_fault(error)),
    }
}

// ---- comparisons

/// The policies of two files, side by side if a thread can be made.
fn load_both<R: Threads + Sync>(
    alloc: Global,
    rt: &R,
    before: &[u8],
    after: &[u8],
) -> (
    Result<LoadedPolicy, StartError>,
    Result<LoadedPolicy, StartError>,
)
    ensures before { ResultIs loading.model_of_fault (λ e. e) result.0 (loaded_of before.now) }
    ensures after { ResultIs loading.model_of_fault (λ e. e) result.1 (loaded_of after.now) }
{
    thread::join(
        rt,
        move || -> Result<LoadedPolicy, StartError>
            ensures { ResultIs loading.model_of_fault (λ e. e) result (loaded_of before.entry.now) }
        { load(alloc, before) },
        move || -> Result<LoadedPolicy, StartError>
            ensures { ResultIs loading.model_of_fault (λ e. e) result (loaded_of after.entry.now) }
        { load(alloc, after) },
    )
}

/// What the later policy allows that the earlier one did not.
fn compare_policies(
    alloc: Global,
    form: Form,
    shown: Shown,
    identities: Identities,
    before: &LoadedPolicy,
    after: &LoadedPolicy,
) -> Result<Compared, Memory>
    ensures { IfOk result (λ c. compared_told c ≡ comparison form shown identities before.now after.now) }
{
    let compared = compare(alloc, form, shown, identities, before, after)?;
    Ok(Compared {
        text: compared.text,
        gains: compared.gains,
        before_settled: before.settled,
        after_settled: after.settled,
    })
}

/// The comparison with a policy that was loaded, or was not.
fn compare_with(
    alloc: Global,
    form: Form,
    shown: Shown,
    identities: Identities,
    before: &LoadedPolicy,
    after: Result<LoadedPolicy, StartError>,
) -> Result<Compared, FilesFault>
    ensures { (given : Result ALoadedPolicy FileFault) → ResultIs loading.model_of_fault (λ e. e) after given
        → ResultIs model_of_fault compared_told result (compared_to form shown identities before.now given) }
{
    match after {
        Ok(after) => Ok(compare_policies(alloc, form, shown, identities, before, &after)?),
        Err(error) => Err(second_fault(error)),
    }
}

/// What the policy of one file allows those identities that the policy of another did not.
///
/// # Errors
/// `First` and `Second` at the first line of a file that is not loaded, `Memory` if an allocation fails.
pub fn compare_files<R: Threads + Sync>(
    alloc: Global,
    rt: &R,
    form: Form,
    shown: Shown,
    identities: Identities,
    before: &[u8],
    after: &[u8],
) -> Result<Compared, FilesFault>
    ensures { ResultIs model_of_fault compared_told result (files.compare_files form shown identities before.now after.now) }
{
    let (before, after) = load_both(alloc, rt, before, after);
    match before {
        Ok(before) => compare_with(alloc, form, shown, identities, &before, after),
        Err(error) => Err(first_fault(error)),
    }
}

// ---- who may do something

/// Who may do what the words ask, by the policy in a file.
///
/// # Errors
/// `First` at the first line that is not loaded, `Memory` if an allocation fails.
pub fn who_wanted(
    alloc: Global,
    form: Form,
    objects: &[u8],
    wanted: &ScopedPoint,
) -> Result<Answered, FilesFault>
    ensures { ResultIs model_of_fault answered_told result (files.who_wanted form objects.now wanted.now) }
{
    let loaded = load_first(alloc, objects)?;
    let text = loaded.who(alloc, form, wanted)?;
    Ok(Answered {
        text,
        settled: loaded.settled,
    })
}

/// The fault of a line that is no question.
fn question_fault(fault: LineFault) -> FilesFault
    ensures { result ≡ files.question_fault fault }
{
    match fault {
        LineFault::Question(number) => FilesFault::Question(number),
        LineFault::Memory => FilesFault::Memory,
    }
}

/// Who may do what each line asks.
fn who_lines(
    alloc: Global,
    form: Form,
    loaded: &LoadedPolicy,
    questions: &[u8],
) -> Result<Answered, FilesFault>
    ensures { ResultIs model_of_fault answered_told result (files.lines_on form questions.now loaded.now) }
{
    match loaded.who_lines(alloc, form, questions) {
        Ok(text) => Ok(Answered {
            text,
            settled: loaded.settled,
        }),
        Err(fault) => Err(question_fault(fault)),
    }
}

/// Answers each line of a file of questions, who may do something, by the policy in another file.
///
/// # Errors
/// `First` at the first line of the policy that is not loaded, else `Question` at the first line which is no question,
/// `Memory` if an allocation fails.
pub fn who_file(
    alloc: Global,
    form: Form,
    objects: &[u8],
    questions: &[u8],
) -> Result<Answered, FilesFault>
    ensures { ResultIs model_of_fault answered_told result (files.who_file form objects.now questions.now) }
{
    let loaded = load_first(alloc, objects)?;
    who_lines(alloc, form, &loaded, questions)
}

// ---- what a user has, and risks

/// What a user has by the policy in a file.
///
/// # Errors
/// `First` at the first line that is not loaded, `Memory` if an allocation fails.
pub fn what_file(
    alloc: Global,
    form: Form,
    objects: &[u8],
    holder: &Holder,
) -> Result<Answered, FilesFault>
    ensures { ResultIs model_of_fault answered_told result (files.what_file form objects.now holder.now) }
{
    let loaded = load_first(alloc, objects)?;
    let text = loaded.what(alloc, form, holder)?;
    Ok(Answered {
        text,
        settled: loaded.settled,
    })
}

/// Who may gain more than the policy of a file grants, and what holds of all others.
///
/// # Errors
/// `First` at the first line that is not loaded, `Memory` if an allocation fails.
pub fn risks_file(alloc: Global, form: Form, objects: &[u8]) -> Result<Answered, FilesFault>
    ensures { ResultIs model_of_fault answered_told result (files.risks_file form objects.now) }
{
    let loaded = load_first(alloc, objects)?;
    let text = loaded.risks(alloc, form)?;
    Ok(Answered {
        text,
        settled: loaded.settled,
    })
}

// ---- paths

/// Who can become whom by the policy of a file.
///
/// # Errors
/// `First` at the first line that is not loaded, `Memory` if an allocation fails.
pub fn paths_file(alloc: Global, words: &PathsWords, objects: &[u8]) -> Result<Answered, FilesFault>
    ensures settled { ResultIs model_of_fault (λ a. a.settled) result (files.settled_file objects.now) }
    ensures text { IfOk result (λ a. files.ArePaths words.now objects.now a.text.items) }
{
    let loaded = load_first(alloc, objects)?;
    let text = loaded.paths(
        alloc,
        words.asking.form,
        words.to.as_str(),
        words.without.as_slice(),
    )?;
    Ok(Answered {
        text,
        settled: loaded.settled,
    })
}
