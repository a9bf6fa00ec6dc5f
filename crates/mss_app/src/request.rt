//! The commands, by the words after the program's name.
ghost use Rattle.std.specs.Prelude.{◌≡◌, [], ◌∷◌};
ghost use Rattle.mss_app.specs.Requests.{generate_request, request, request_in};

use mss_alike::RuleSet;
use mss_evaluate::Form;
use mss_generate::{Generate, generate_of};

/// What the words ask for.
#[derive(Clone, Copy, Debug, PartialEq, Eq)]
pub enum Request {
    /// The distribution of the patients of one block, age by age.
    Block,
    /// The peak of a cycle, and its census, admissions and discharges ward by ward and day by day.
    Evaluate(Form),
    /// A legal cycle with a small peak, two numbers that are proved, and the certificate of the lower one, by a search over
    /// the cycles that the rules admit.
    Plan(RuleSet),
    /// What a certificate over the cycles that the rules admit proves.
    Check(RuleSet),
    /// The tables of a hospital that is drawn from a number.
    Generate(Generate),
}

/// The request that the words make, if any.
pub(crate) fn request_of(words: &[String]) -> Option<Request>
    ensures { result ≡ request_in words.now }
{
    match words {
        [word] => one_word(word.as_str()),
        [word, form] => two_words(word.as_str(), form.as_str()),
        [word, number, size] if word.as_str() == "generate" => {
            generate_request(generate_of(number.as_str(), size.as_str()))
        }
        _ => None,
    }
}

/// The request of one word, if it is one.
fn one_word(word: &str) -> Option<Request>
    ensures { result ≡ request (word.now ∷ []) }
{
    match word {
        "block" => Some(Request::Block),
        "evaluate" => Some(Request::Evaluate(Form::Plain)),
        "plan" => Some(Request::Plan(RuleSet::Legal)),
        "check" => Some(Request::Check(RuleSet::Legal)),
        _ => None,
    }
}

/// The request of a word and its form, if they make one.
fn two_words(word: &str, form: &str) -> Option<Request>
    ensures { result ≡ request (word.now ∷ form.now ∷ []) }
{
    match (word, form) {
        ("evaluate", "json") => Some(Request::Evaluate(Form::Json)),
        ("plan", "alike") => Some(Request::Plan(RuleSet::Canonical)),
        ("check", "alike") => Some(Request::Check(RuleSet::Canonical)),
        _ => None,
    }
}

/// The request to generate, where its words are in order.
fn generate_request(command: Option<Generate>) -> Option<Request>
    ensures { result ≡ generate_request command }
{
    match command {
        Some(command) => Some(Request::Generate(command)),
        None => None,
    }
}
