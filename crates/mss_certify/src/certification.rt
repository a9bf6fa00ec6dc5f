//! The commands `check` and `check alike`: whether a certificate is valid over a set of rules, and what it proves of all
//! legal cycles.
ghost use Rattle.std.specs.Prelude.{◌≡◌, ℕ, Option, Some, IfOk, IsTrue};
ghost use Rattle.mss_model.specs.Legality.{IsLegal};
ghost use Rattle.mss_model.specs.PartsOf.{parts_of};
ghost use Rattle.mss_alike.specs.RuleSets.{rule_of};
ghost use Rattle.mss_cert.specs.declared.verdict.Verdict.TheVariants.{Yes};
ghost use Rattle.mss_check.specs.Tree.{end_of, least_number};
ghost use Rattle.mss_check.specs.Validity.{IsValid, Proves, peak_at_level, verdict_of};
ghost use Rattle.mss_report.specs.CertificateTexts.{cert_fault_text_of};
ghost use Rattle.mss_command.specs.Answers.{Prepares};
ghost use Rattle.mss_command.specs.Checks.{check_may_answer};
ghost use Rattle.mss_command.specs.Fetched.{IsWithin, fetched_of};
ghost use Rattle.mss_command.specs.Outcome.{outcome_of, saying};
ghost use Rattle.mss_command.specs.Promised.{SaysOnly};
ghost use Rattle.mss_command.specs.Questions.{AskLacks, Asks, may_end_asking};
ghost use Rattle.mss_certify.specs.Check.{CheckDefines, SaysTrue, VerdictDefines, certificate_file, certificate_limit, verdict_status};
ghost use Rattle.mss_certify.specs.CheckLaws.{check_keeps};

use mss_alike::{Canonical, RuleSet};
use mss_cert::{
    CertFault, CertKind, CertRefusal, Certificate, MOST_CERTIFICATE_BYTES, Verdict, read,
};
use mss_check::check;
use mss_command::{Command, Contents, Question, Reply, Status, Stop, ask};
use mss_desk::Desk;
use mss_enclose::Kernel;
use mss_model::{NoMemory, Tables};
use mss_report::{cert_fault_text, verdict_text};
use mss_rules::Legal;
use std::alloc::Global;

/// Whether the certificate of certificate.txt is valid under the tables over a set of rules, and what it proves.
#[derive(Clone, Copy, Debug)]
pub struct Certification {
    pub rules: RuleSet,
}

/// The fault of a file that is longer than its limit.
const TOO_LONG: CertFault = CertFault {
    line: 0,
    kind: CertKind::TooLong,
};

impl Question for Certification {
    ghost name = { λ question. Some certificate_file };

    ghost limit = { λ question. certificate_limit };

    ghost Answers = { λ question. CheckDefines (rule_of question.rules) };

    ghost may_answer = { λ question. check_may_answer };

    fn file(&self) -> Option<&'static str> {
        Some("certificate.txt")
    }

    fn most_bytes(&self) -> usize {
        MOST_CERTIFICATE_BYTES
    }

    fn answer<K: Kernel>(
        &self,
        alloc: Global,
        kernel: &K,
        tables: &Tables,
        contents: &Contents,
    ) -> Result<Reply, NoMemory> {
        let bytes = match contents {
            Contents::Bytes(bytes) => bytes,
            Contents::TooLong => return fault_reply(alloc, &TOO_LONG),
        };
        match read(alloc, bytes) {
            Ok(certificate) => verdict_reply(alloc, kernel, tables, self.rules, &certificate),
            Err(CertRefusal::Fault(fault)) => fault_reply(alloc, &fault),
            Err(CertRefusal::NoMemory) => Err(NoMemory),
        }
    }
}

impl Command for Certification {
    ghost Defines = { λ command. Asks (CheckDefines (rule_of command.rules)) (Some certificate_file) certificate_limit };

    ghost Lacks = { λ command. AskLacks (Some certificate_file) certificate_limit };

    ghost may_end = { λ command. may_end_asking check_may_answer };

    ghost Promised = { λ command. SaysOnly SaysTrue };

    fn prepare<D: Desk, K: Kernel>(
        &self,
        alloc: Global,
        desk: &mut D,
        kernel: &K,
    ) -> Result<Reply, Stop> {
        ask(alloc, self, desk, kernel)
    }

    ghost keeps = { λ command. check_keeps (rule_of command.rules) };
}

/// The reply to a fault of the text.
fn fault_reply(alloc: Global, fault: &CertFault) -> Result<Reply, NoMemory>
    ensures outcome { IfOk result (λ reply. outcome_of reply ≡ saying Status.Certificate (cert_fault_text_of fault.now)) }
    ensures status { IfOk result (λ reply. IsTrue (check_may_answer reply.status)) }
{
    Ok(Reply::saying(alloc, Status::Certificate, cert_fault_text(alloc, fault)?))
}

/// The reply to a certificate under these tables: what it proves where it is valid, and else its first line that fails.
fn verdict_reply<K: Kernel>(
    alloc: Global,
    kernel: &K,
    tables: &Tables,
    rules: RuleSet,
    certificate: &Certificate,
) -> Result<Reply, NoMemory>
    ensures defines { IfOk result (λ reply. VerdictDefines (rule_of rules) (parts_of tables.now) certificate.now (outcome_of reply)) }
    ensures status { IfOk result (λ reply. IsTrue (check_may_answer reply.status)) }
{
    let verdict = verdict_over(alloc, kernel, tables, rules, certificate)?;
    let text = verdict_text(alloc, &verdict)?;
    Ok(Reply::saying(alloc, status_of(&verdict), text))
}

/// What the checker says of a certificate over a set of rules. A yes speaks of every legal cycle.
fn verdict_over<K: Kernel>(
    alloc: Global,
    kernel: &K,
    tables: &Tables,
    rules: RuleSet,
    certificate: &Certificate,
) -> Result<Verdict, NoMemory>
    ensures valid { IfOk result (λ v. (n : Option ℕ) → v ≡ Yes n → IsValid (rule_of rules) (parts_of tables.now) certificate.now × (certificate.now.end ≡ end_of n)) }
    ensures only { IfOk result (λ v. IsValid (rule_of rules) (parts_of tables.now) certificate.now → v ≡ Yes (least_number certificate.now.tree)) }
    ensures exact { IfOk result (λ v. v ≡ verdict_of (rule_of rules) (parts_of tables.now) certificate.now) }
    ensures proves { IfOk result (Proves (IsLegal (parts_of tables.now)) (peak_at_level (parts_of tables.now))) }
{
    match rules {
        RuleSet::Legal => check(alloc, tables, kernel, &Legal, certificate),
        RuleSet::Canonical => check(alloc, tables, kernel, &Canonical, certificate),
    }
}

/// The status of what the checker says.
fn status_of(verdict: &Verdict) -> Status
    ensures value { result ≡ verdict_status verdict.now }
    ensures status { IsTrue (check_may_answer result) }
{
    match verdict {
        Verdict::Yes(_) => Status::Done,
        Verdict::No { .. } => Status::Certificate,
    }
}
