// Examining a list of kinds from elsewhere: it is accepted if it holds the empty forest's kind, the kind of every symbol over every two of
// its kinds, and no breaking kind. Then no document breaks the contract, whoever made the list.
//
// The examiner trusts nothing of the list. It makes each kind by the step of a check (`kinds`), in crate `closure`, and tells a breaking kind by
// the test of a check (`breaking`). It copies no list and writes nothing.
#![tactic(auto)]

pub mod refusals;

ghost use Rattle.std.specs.Prelude.{◌≡◌, ◌+◌, ◌*◌, ◌≤◌, length};
ghost use Rattle.foundation.specs.Search.{first_below};
ghost use Rattle.model.specs.Examining.{sent_count, examining};
ghost use Rattle.tables.specs.Handed.{handed};
ghost use Rattle.prepared.specs.Contract.{contract_of};
ghost use Rattle.closure.specs.Sent.{contract_for};
ghost use Rattle.examining.specs.Answers.{examining_verdict, NamesListed, list_verdict, breaking_at};
ghost use Rattle.examining.specs.declared.ExaminingRefusal.TheVariants as refusal;

use admission::admit;
use answers::ContractFault;
use breaking::{Verdicts, breaks};
use closure::sent::SentKinds;
use closure::{KindNumber, Open, closure_of};
use kind_masks::kind_mask;
use kind_slots::stored::kind_at;
use kinds::empty_of;
use masks::Masked;
use numbering::fact_total;
use preparing::{most_table, prepare};
use searching::first_where;
use shown_kinds::{chain_rows, is_shown, room_for_chains, room_for_rows};
use tables::{ContractTables, tuples_wrong};

// The most kinds that a list may have.
const MOST_KINDS: usize = 4096;

// Why the examiner does not accept a list.
#[derive(Clone, Copy, Debug, PartialEq, Eq)]
pub enum ExaminingRefusal {
    Contract(ContractFault),
    // The list is no whole number of kinds, or has too many: its length in words.
    Length(usize),
    // The empty forest's kind is missing.
    NoEmpty,
    // The kind of this symbol over these two kinds is missing.
    Open(Open),
    // This kind breaks the contract.
    Breaking(KindNumber),
}

impl From<ContractFault> for ExaminingRefusal {
    ghost from_gives = { λ fault why. why ≡ refusal.Contract fault };

    fn from(fault: ContractFault) -> ExaminingRefusal {
        ExaminingRefusal::Contract(fault)
    }
}

impl From<Open> for ExaminingRefusal {
    ghost from_gives = { λ pair why. why ≡ refusal.Open pair };

    fn from(pair: Open) -> ExaminingRefusal {
        ExaminingRefusal::Open(pair)
    }
}

// Whether kind k of the list breaks the contract.
fn breaks_at(verdicts: Verdicts, words: &[u64], k: usize) -> bool
    requires { 5 * k + 5 ≤ length words.now }
    ensures { result ≡ breaking_at verdicts words.now k }
{
    breaks(verdicts, &kind_at(words, k))
}

// The first listed kind that breaks the contract.
fn first_breaking(verdicts: Verdicts, words: &[u64]) -> Option<usize>
    ensures { result ≡ first_below (breaking_at verdicts words.now) (sent_count words.now) }
{
    first_where(words.len() / 5, |k| breaks_at(verdicts, words, k))
}

// Examines a list whose kinds are in chains by the contract's mask.
fn examine_list(sent: &SentKinds) -> Result<(), ExaminingRefusal>
    ensures { (examining_verdict result ≡ list_verdict (contract_for sent.now) sent.now.words.now) × NamesListed sent.now.words.now result }
{
    let mut room = [0u64; 256];
    let prepared = &sent.masked.prepared;
    let empty = empty_of(prepared, &mut room);
    if !is_shown(sent.words, sent.mask, sent.chains, &empty) {
        return Err(ExaminingRefusal::NoEmpty);
    }
    closure_of(sent, &mut room)?;
    match first_breaking(prepared.parts.verdicts, sent.words) {
        Some(kind) => Err(ExaminingRefusal::Breaking(KindNumber(kind as u16))),
        None => Ok(()),
    }
}

// Examines a list by a prepared contract.
fn examine_prepared(masked: &Masked, words: &[u64]) -> Result<(), ExaminingRefusal>
    requires { length words.now ≤ 20480 }
    ensures { (examining_verdict result ≡ list_verdict (contract_of masked.now.prepared) words.now) × NamesListed words.now result }
{
    let prepared = &masked.prepared;
    let facts = fact_total(prepared.parts.layout.states, prepared.counts());
    let mask = kind_mask(prepared.parts.states, facts);
    let mut chains = room_for_chains();
    let mut firsts = room_for_rows();
    chain_rows(words, &mask, &mut chains, &mut firsts);
    let sent = SentKinds {
        masked,
        words,
        mask: &mask,
        chains: &chains,
    };
    examine_list(&sent)
}

// Examines a list of kinds for a contract: accepted, or why not. Nothing is written.
pub fn examine(contract: &ContractTables, words: &[u64]) -> Result<(), ExaminingRefusal>
    ensures { (examining_verdict result ≡ examining (handed contract.now) words.now) × NamesListed words.now result }
{
    admit(contract)?;
    let length = words.len();
    if tuples_wrong(5, MOST_KINDS, length) {
        return Err(ExaminingRefusal::Length(length));
    }
    let mut table = most_table();
    let masked = prepare(contract, &mut table);
    examine_prepared(&masked, words)
}
