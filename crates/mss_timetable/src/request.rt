//! The commands, by the words after the program's name.
ghost use Rattle.std.specs.Prelude.{◌≡◌};
ghost use Rattle.mss_timetable.specs.Requests.{cycle_request, effort_in, new_request, request_in, tries_in};

use mss_command::number_of;
use mss_local::Effort;

/// The most tries of a search.
const MOST_TRIES: u64 = 100_000_000;

/// What the words ask for.
#[derive(Clone, Copy, Debug, PartialEq, Eq)]
pub enum Request {
    /// A better timetable than that of cycle.csv.
    Cycle(Effort),
    /// A timetable from nothing.
    New(Effort),
    /// What weights.txt proves of all timetables.
    Check,
}

/// The request that the words make, if any.
pub(crate) fn request_of(words: &[String]) -> Option<Request>
    ensures { result ≡ request_in words.now }
{
    match words {
        [word] if word.as_str() == "check" => Some(Request::Check),
        [word, number, tries] if word.as_str() == "cycle" => {
            cycle_request(effort_of(number.as_str(), tries.as_str()))
        }
        [word, number, tries] if word.as_str() == "new" => {
            new_request(effort_of(number.as_str(), tries.as_str()))
        }
        _ => None,
    }
}

/// The request for a better timetable, where its numbers are in order.
fn cycle_request(effort: Option<Effort>) -> Option<Request>
    ensures { result ≡ cycle_request effort }
{
    match effort {
        Some(effort) => Some(Request::Cycle(effort)),
        None => None,
    }
}

/// The request for a new timetable, where its numbers are in order.
fn new_request(effort: Option<Effort>) -> Option<Request>
    ensures { result ≡ new_request effort }
{
    match effort {
        Some(effort) => Some(Request::New(effort)),
        None => None,
    }
}

/// The effort that two words name: a number from 0 to 18,446,744,073,709,551,615, and from 1 to 100,000,000 tries, both
/// without leading zeros.
fn effort_of(number: &str, tries: &str) -> Option<Effort>
    ensures { result ≡ effort_in number.now tries.now }
{
    match (number_of(number), tries_of(tries)) {
        (Some(number), Some(tries)) => Some(Effort { number, tries }),
        _ => None,
    }
}

/// The tries that a word names.
fn tries_of(word: &str) -> Option<u32>
    ensures { result ≡ tries_in word.now }
{
    match number_of(word) {
        Some(tries) if 1 <= tries && tries <= MOST_TRIES => Some(tries as u32),
        _ => None,
    }
}
