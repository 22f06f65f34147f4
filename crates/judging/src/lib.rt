// Judging the document that numbers begin with: whether the contract takes it (it is of the input type and has one root), and whether an
// output is outside the output type; the kind of its tree is written, and how many numbers it took is told.
#![tactic(auto)]

ghost use Rattle.std.specs.Prelude.{◌≡◌, ◌<◌, ◌≤◌, length, take};
ghost use Rattle.model.specs.Documents.{document_tree};
ghost use Rattle.model.specs.Judging.{judging};
ghost use Rattle.model.specs.Answers.{judged};
ghost use Rattle.model.proofs.Laws.Documents.{Document};
ghost use Rattle.model.proofs.Laws.Established.{Established};
ghost use Rattle.answers.specs.Numbers.{judgement_result, judging_answer};
ghost use Rattle.tables.specs.Handed.{handed};
ghost use Rattle.prepared.specs.Contract.{contract_of};
ghost use Rattle.preparing.specs.Packing.{prepared_length};
ghost use Rattle.judging.specs.Steps.{Comes, judged_tree, judgement_by, told};

use admission::admit;
use answers::{Judged, Judgement, JudgingRefusal};
use breaking::{Verdicts, breaks, is_taken};
use document_kinds::document_kind;
use prepared::Prepared;
use preparing::{most_table, prepare_table, table_length};
use reading::read;
use tables::ContractTables;

// Writes the five words of a kind.
fn write_kind(words: &[u64; 6], kind: &mut [u64])
    requires { length kind.old ≡ 5 }
    ensures { kind.new ≡ take 5 words.now }
{
    kind.copy_from_slice(&words[..5]);
}

// The judgement of a document that the contract takes or not, and that breaks it or not.
fn judgement_by(takes: bool, broken: bool) -> Judgement
    ensures { judgement_result result ≡ judgement_by «takes» «broken» }
{
    match (takes, broken) {
        (false, _) => Judgement::Outside,
        (true, false) => Judgement::Sound,
        (true, true) => Judgement::Breaking,
    }
}

// What a kind tells of its document.
fn judgement_of(verdicts: Verdicts, kind: &[u64; 6]) -> Judgement
    ensures { judgement_result result ≡ told verdicts kind.now }
{
    judgement_by(is_taken(verdicts, kind), breaks(verdicts, kind))
}

// Judges a document, which is all of the numbers, by a prepared contract: the kind of its tree is written, and tells the judgement.
fn judge_prepared(prepared: &Prepared, numbers: &[u16], kind: &mut [u64]) -> Judged
    requires { Document prepared.now.parts.symbols numbers.now × (length kind.old ≡ 5) }
    ensures { Comes (judged (judgement_result result.judgement) result.taken) kind.new (judged_tree (contract_of prepared.now) (document_tree numbers.now) (length numbers.now)) }
{
    let words = document_kind(prepared, numbers);
    write_kind(&words, kind);
    Judged {
        judgement: judgement_of(prepared.parts.verdicts, &words),
        taken: numbers.len(),
    }
}

// Judges a document by an admitted contract, with room for what is prepared of it.
fn judge_in(
    contract: &ContractTables,
    table: &mut [u16],
    numbers: &[u16],
    kind: &mut [u64],
) -> Judged
    requires room { Established (handed contract.now) × (prepared_length (handed contract.now) ≤ length table.old) × (length table.old < 65536) }
    requires document { Document contract.now.symbols numbers.now × (length kind.old ≡ 5) }
    ensures { Comes (judged (judgement_result result.judgement) result.taken) kind.new (judged_tree (handed contract.now) (document_tree numbers.now) (length numbers.now)) }
{
    let prepared = prepare_table(contract, table);
    judge_prepared(&prepared, numbers, kind)
}

// Judges the document that the numbers begin with: the answer, and the kind of its tree in `kind`, which is not written where
// something is refused. There is room for what is prepared of a small contract, or of any.
pub fn judge(
    contract: &ContractTables,
    numbers: &[u16],
    kind: &mut [u64],
) -> Result<Judged, JudgingRefusal>
    ensures { Comes (judging_answer result) kind.new (judging (handed contract.now) numbers.now kind.old) }
{
    admit(contract)?;
    let wrong_length = kind.len() != 5;
    if wrong_length {
        return Err(JudgingRefusal::Buffer);
    }
    let taken = read(contract.symbols, numbers)?;
    let document = &numbers[..taken];
    if table_length(contract) <= 512 {
        let mut table = [0u16; 512];
        return Ok(judge_in(contract, &mut table, document, kind));
    }
    let mut table = most_table();
    Ok(judge_in(contract, &mut table, document, kind))
}
