// The verdicts on a finished cycle: reads rules.tsv and cycle.tsv in the current folder, and prints
// the verdicts or a refusal.
#![tactic(auto)]

ghost use Rattle.std.specs.Prelude.{◌≡◌, true, false, take};
ghost use Rattle.files.specs.Counts.{IsPrefixLen};
ghost use Rattle.line.specs.Texts.{is_all};
ghost use Rattle.rule_text.specs.Rules.{rules_text_of};
ghost use Rattle.printing.specs.Report.{printed_of};

use files::FILE_BYTES;
use printing::{PRINTED_BYTES, print_texts};
use std::rt::Files;

fn are_accepted(rules: &[u8]) -> bool
    ensures { result ≡ is_all (rules_text_of rules.now) }
{
    rule_text::read_rules(rules).is_ok()
}

// What is printed of the two texts, in front of the buffer. It is never too short, so nothing is
// lost.
fn printed(rules: &[u8], cycle: &[u8], out: &mut [u8; PRINTED_BYTES]) -> usize
    ensures prefix_len { IsPrefixLen result out.new }
    ensures out_after { take result out.new ≡ printed_of rules.now cycle.now }
{
    print_texts(rules, cycle, out).unwrap_or(0)
}

fn print(rt: &(impl Print + Eprint), rules: &[u8], cycle: &[u8]) {
    let mut out = [0u8; PRINTED_BYTES];
    let length = printed(rules, cycle, &mut out);
    files::print(rt, &out[..length]);
}

// The cycle file is opened only after the rules are accepted.
fn read_cycle(rt: &(impl Files + Print + Eprint), rules: &[u8])
    requires { is_all (rules_text_of rules.now) ≡ true }
{
    let mut cycle = [0u8; FILE_BYTES];
    if let Some(end) = files::read_text(rt, b"cycle.tsv", b"cycle", &mut cycle) {
        print(rt, rules, &cycle[..end]);
    }
}

// What is printed of refused rules is the same for every cycle text.
fn print_refused(rt: &(impl Print + Eprint), rules: &[u8])
    requires { is_all (rules_text_of rules.now) ≡ false }
{
    print(rt, rules, b"");
}

fn main(rt: HostRuntime) {
    let mut text = [0u8; FILE_BYTES];
    let Some(end) = files::read_text(&rt, b"rules.tsv", b"rules", &mut text) else {
        return;
    };
    let rules = &text[..end];
    if are_accepted(rules) {
        read_cycle(&rt, rules);
    } else {
        print_refused(&rt, rules);
    }
}
