ghost use Rattle.std.specs.Prelude.{◌≡◌, ◌≤◌, IfSome};
ghost use Rattle.kapi_command_line.specs.Numbers.{clock_revision as revision_of_clock, number_of};

use kapi_text::{are_digits, number};

/// The number that the digits write, if there are at most `places` and the number is within bounds.
#[tactic(auto, unfolding(crate::specs::Numbers::number_of))]
pub fn number_within(digits: &str, places: usize, least: u64, largest: u64) -> Option<u64>
    requires { places ≤ 18 }
    ensures told { result ≡ number_of places least largest digits.now }
    ensures bound { IfSome result (λ n. (least ≤ n) × (n ≤ largest)) }
{
    if digits.is_empty() || digits.len() > places || !are_digits(digits.as_bytes()) {
        return None;
    }
    let number = number(digits.as_bytes());
    if least <= number && number <= largest {
        Some(number)
    } else {
        None
    }
}

/// The port that the digits write, from `least` to 65,535.
pub fn port(digits: &str, least: u64) -> Option<u16>
    ensures { result ≡ number_of 5 least 65535 digits.now }
{
    match number_within(digits, 5, least, 65_535) {
        Some(port) => u16::try_from(port).ok(),
        None => None,
    }
}

/// The revision after which a server's revisions begin by the clock: 100 for each of the milliseconds since the start
/// of 1970; none from the year 2059 on.
pub fn clock_revision(milliseconds: u64) -> Option<u64>
    ensures { result ≡ revision_of_clock milliseconds }
{
    if milliseconds > 2_814_749_767_106 {
        return None;
    }
    Some(milliseconds * 100)
}
