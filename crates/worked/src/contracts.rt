// The worked contracts, each with the types of C1.
ghost use Rattle.std.specs.Prelude.{◌≡◌};
ghost use Rattle.tables.specs.Handed.{handed};
ghost use Rattle.worked_table.specs.WorkedContracts.{typed, C1, C2, C3};

use tables::ContractTables;

// A contract with the types of C1.
fn typed<'a>(
    counts: &'a [u16],
    output_marks: &'a [u16],
    nodes: &'a [u16],
    rules: &'a [u16],
) -> ContractTables<'a>
    ensures { handed result ≡ typed counts.entry.now output_marks.entry.now nodes.entry.now rules.entry.now }
{
    ContractTables {
        symbols: 2,
        input_states: 1,
        output_states: 2,
        counts,
        input_rows: &[0, 0, 0, 0, 0, 1, 0, 0],
        input_marks: &[1],
        output_table: &[0, 1, 1, 1, 1],
        output_marks,
        nodes,
        rules,
    }
}

// C1 copies. Nodes: symbol 0; calls of procedure 0 left and right; 1 over these two.
pub fn c1<'a>(output_marks: &'a [u16]) -> ContractTables<'a>
    ensures { handed result ≡ C1 output_marks.entry.now }
{
    let nodes = &[1, 0, 0, 0, 0, 2, 0, 1, 0, 0, 2, 0, 2, 0, 0, 1, 1, 0, 1, 2];
    typed(&[0], output_marks, nodes, &[0, 0, 0, 0, 1, 3])
}

// C2 gives the spine of a document. Nodes: symbol 0; a call of procedure 1 right with node 0; parameter 1; 1 over nodes 0
// and 2; a call of procedure 1 right with node 3.
pub fn c2() -> ContractTables<'static>
    ensures { handed result ≡ C2 }
{
    let nodes = &[
        1, 0, 0, 0, 0, 2, 1, 2, 0, 0, 0, 1, 0, 0, 0, 1, 1, 0, 0, 2, 2, 1, 2, 3, 0,
    ];
    typed(
        &[0, 1],
        &[1, 1],
        nodes,
        &[0, 0, 0, 0, 1, 1, 1, 0, 2, 1, 1, 4],
    )
}

// C3 passes on an argument without an output. Nodes: a call of procedure 2 left; a call of procedure 1 left with node 0;
// symbol 0.
pub fn c3<'a>(output_marks: &'a [u16]) -> ContractTables<'a>
    ensures { handed result ≡ C3 output_marks.entry.now }
{
    let nodes = &[2, 2, 1, 0, 0, 2, 1, 1, 0, 0, 1, 0, 0, 0, 0];
    typed(&[0, 1, 0], output_marks, nodes, &[0, 1, 1, 1, 0, 2])
}
