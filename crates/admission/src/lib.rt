// Admission: whether what was handed in is a contract, and if not, the first refusal that applies, at its lowest place.
//
// It goes in three stages, each of which relies on those before it: sizes and lengths; types and counts; expressions, rules and
// the number of facts.
#![tactic(auto)]

ghost use Rattle.std.specs.Prelude.{◌≡◌};
ghost use Rattle.model.specs.Answers.{fine};
ghost use Rattle.model.specs.Admission as model;
ghost use Rattle.model.specs.Admission.{admitted_unless};
ghost use Rattle.tables.specs.Handed.{handed};
ghost use Rattle.answers.specs.Numbers.{admission_answer};
ghost use Rattle.admission.specs.Stages.{shape, types, expressions};

use admission_expressions::nodes::admit_nodes;
use admission_expressions::rules::first_bad_rule;
use admission_tables::entries::{first_bad_count, first_bad_entry, first_bad_input_row};
use admission_tables::sizes::{Lengths, first_bad_length, first_bad_size};
use answers::ContractFault;
use numbering::fact_total;
use tables::ContractTables;

// The most facts, as many as a kind has room for.
const MOST_FACTS: usize = 256;

// Refusals 1 and 2: the sizes, and the lengths of the tables.
fn admit_shape(contract: &ContractTables) -> Result<(), ContractFault>
    ensures { admission_answer result ≡ admitted_unless (shape (handed contract.now)) }
{
    if let Some(place) = first_bad_size(
        contract.symbols,
        contract.input_states,
        contract.output_states,
        contract.counts.len(),
    ) {
        return Err(ContractFault::Size(place));
    }
    let lengths = Lengths {
        input_rows: contract.input_rows.len(),
        input_marks: contract.input_marks.len(),
        output_table: contract.output_table.len(),
        output_marks: contract.output_marks.len(),
        nodes: contract.nodes.len(),
        rules: contract.rules.len(),
    };
    if let Some(table) = first_bad_length(
        contract.symbols,
        contract.input_states,
        contract.output_states,
        lengths,
    ) {
        return Err(ContractFault::Length(table));
    }
    Ok(())
}

// Refusals 3 to 5: input rows, marks and output entries, parameter counts.
fn admit_types(contract: &ContractTables) -> Result<(), ContractFault>
    requires { shape (handed contract.now) ≡ fine }
    ensures { admission_answer result ≡ admitted_unless (types (handed contract.now)) }
{
    if let Some(row) = first_bad_input_row(
        contract.symbols,
        contract.input_states,
        contract.input_rows,
    ) {
        return Err(ContractFault::InputRow(row));
    }
    if let Some(entry) = first_bad_entry(
        contract.output_states,
        contract.input_marks,
        contract.output_table,
        contract.output_marks,
    ) {
        return Err(ContractFault::Entry(entry));
    }
    if let Some(procedure) = first_bad_count(contract.counts) {
        return Err(ContractFault::Count(procedure));
    }
    Ok(())
}

// Refusals 30 to 34, 7 and 8: nodes, rules and the number of facts.
fn admit_expressions(contract: &ContractTables) -> Result<(), ContractFault>
    requires shape { shape (handed contract.now) ≡ fine }
    requires types { types (handed contract.now) ≡ fine }
    ensures { admission_answer result ≡ admitted_unless (expressions (handed contract.now)) }
{
    admit_nodes(contract.symbols, contract.counts, contract.nodes)?;
    if let Some(rule) = first_bad_rule(
        contract.symbols,
        contract.counts,
        contract.nodes,
        contract.rules,
    ) {
        return Err(ContractFault::Rule(rule));
    }
    let total = fact_total(contract.output_states, contract.counts);
    if MOST_FACTS < total {
        return Err(ContractFault::Facts(total));
    }
    Ok(())
}

// Document 01's admission.
pub fn admit(contract: &ContractTables) -> Result<(), ContractFault>
    ensures { admission_answer result ≡ model.admit (handed contract.now) }
{
    admit_shape(contract)?;
    admit_types(contract)?;
    admit_expressions(contract)
}
