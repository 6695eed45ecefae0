//! Marks for the fingerprints of the watches to wake, by their last six bits: the marks rule out most other watches.
ghost use Rattle.std.specs.Prelude.{◌≡◌, ◌%◌, ◌==◌, ℕ, Some, true, option_map};
ghost use Rattle.std.specs.List.{HoldsAt, list_any};
ghost use Rattle.kapi_serve.specs.Private.ClientsMatch.{AreMarked};

/// The number of marks.
pub(crate) const MARKS: usize = 64;

/// The marks of the fingerprints in a list; all marks if there is no list.
pub(crate) fn marks_of(concerned: &Option<Vec<u64>>) -> [bool; MARKS]
    ensures { AreMarked (option_map (λ v. v.items) concerned.now) result }
{
    match concerned {
        Some(numbers) => marks_among(numbers.as_slice()),
        None => [true; MARKS],
    }
}

/// The marks of numbers, by their remainders modulo 64.
fn marks_among(numbers: &[u64]) -> [bool; MARKS]
    ensures { AreMarked (Some numbers.now) result }
{
    let mut marks = [false; MARKS];
    for index in 0..numbers.len() {
        marks[(numbers[index] % 64) as usize] = true;
    }
    marks
}
