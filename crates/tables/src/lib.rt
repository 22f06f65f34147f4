// Typed numbers, the test of each against how many there are, a contract as it is handed in, the tuples of its tables read by name, and
// how many nodes a node refers to.
//
// An input state, an output state, a procedure and a symbol are each a type of their own, so that code that hands one
// where another is due does not build. A size (how many symbols there are) and a node or row number are plain numbers.
#![tactic(auto)]

ghost use Rattle.std.specs.Prelude.{◌≡◌, ℕ, ◌*◌, ◌^◌, ◌<◌, ◌≤◌, leb, get_or, length};
ghost use Rattle.model.specs.Rows.{row_at, row_count};
ghost use Rattle.model.specs.Tables.{input_row, input_row_count, node_at, node_count, rule_at, rule_count, count_of};
ghost use Rattle.model.specs.Admission.{references, tuples_wrong};
ghost use Rattle.tables.specs.Tuples.{input_row_of, node_of, rule_of, row_of};

#[derive(Clone, Copy, Debug, PartialEq, Eq)]
pub struct Symbol(pub u16);

#[derive(Clone, Copy, Debug, PartialEq, Eq)]
pub struct InputState(pub u16);

#[derive(Clone, Copy, Debug, PartialEq, Eq)]
pub struct OutputState(pub u16);

#[derive(Clone, Copy, Debug, PartialEq, Eq)]
pub struct Procedure(pub u16);

// A row of an input type.
#[derive(Clone, Copy, Debug, PartialEq, Eq)]
pub struct InputRow {
    pub state: InputState,
    pub symbol: Symbol,
    pub left: InputState,
    pub right: InputState,
}

// An expression node. What `name` is depends on the tag: a parameter, a symbol or a procedure.
#[derive(Clone, Copy, Debug, PartialEq, Eq)]
pub struct Node {
    pub tag: u16,
    pub name: u16,
    pub child: u16,
    pub first: u16,
    pub second: u16,
}

// A rule of a transformation.
#[derive(Clone, Copy, Debug, PartialEq, Eq)]
pub struct Rule {
    pub procedure: Procedure,
    pub symbol: Symbol,
    pub node: u16,
}

// A row of a table that stands for trees.
#[derive(Clone, Copy, Debug, PartialEq, Eq)]
pub struct Row {
    pub symbol: Symbol,
    pub left: u16,
    pub right: u16,
}

// A contract as it is handed in: nothing of it is tested yet.
#[derive(Clone, Copy)]
pub struct ContractTables<'a> {
    pub symbols: usize,
    pub input_states: usize,
    pub output_states: usize,
    pub counts: &'a [u16],
    pub input_rows: &'a [u16],
    pub input_marks: &'a [u16],
    pub output_table: &'a [u16],
    pub output_marks: &'a [u16],
    pub nodes: &'a [u16],
    pub rules: &'a [u16],
}

// A number of one kind of thing, as the number that it is.
pub trait Numbered: Copy {
    ghost number: { Self → ℕ };

    fn number(self) -> usize
        ensures { result ≡ number self };
}

impl Numbered for Symbol {
    ghost number = { λ symbol. symbol.0 };

    fn number(self) -> usize {
        let Symbol(symbol) = self;
        usize::from(symbol)
    }
}

impl Numbered for InputState {
    ghost number = { λ state. state.0 };

    fn number(self) -> usize {
        let InputState(state) = self;
        usize::from(state)
    }
}

impl Numbered for OutputState {
    ghost number = { λ state. state.0 };

    fn number(self) -> usize {
        let OutputState(state) = self;
        usize::from(state)
    }
}

impl Numbered for Procedure {
    ghost number = { λ procedure. procedure.0 };

    fn number(self) -> usize {
        let Procedure(procedure) = self;
        usize::from(procedure)
    }
}

// A number is none of so many of its kind: the one test of the four below, each of which takes a type of its own.
pub fn is_none_of<N: Numbered>(count: usize, number: N) -> bool
    ensures { result ≡ leb count (N.number number) }
{
    count <= number.number()
}

// A number is none of so many symbols.
pub fn symbol_wrong(symbols: usize, symbol: Symbol) -> bool
    ensures { result ≡ leb symbols symbol.0 }
{
    is_none_of::<Symbol>(symbols, symbol)
}

// A number is none of so many input states.
pub fn input_state_wrong(input_states: usize, state: InputState) -> bool
    ensures { result ≡ leb input_states state.0 }
{
    is_none_of::<InputState>(input_states, state)
}

// A number is none of so many output states.
pub fn output_state_wrong(output_states: usize, state: OutputState) -> bool
    ensures { result ≡ leb output_states state.0 }
{
    is_none_of::<OutputState>(output_states, state)
}

// A number is none of so many procedures.
pub fn procedure_wrong(procedures: usize, procedure: Procedure) -> bool
    ensures { result ≡ leb procedures procedure.0 }
{
    is_none_of::<Procedure>(procedures, procedure)
}

// A length is no whole number of tuples, or more than the most of them.
pub fn tuples_wrong(width: usize, most: usize, length: usize) -> bool
    requires { (1 ≤ width) × (width * most < 2 ^ 64) }
    ensures { result ≡ tuples_wrong width most length }
{
    length % width != 0 || width * most < length
}

// The number at a place of a table, and 0 past its end.
pub fn number_at(table: &[u16], k: usize) -> u16
    ensures { result ≡ get_or table.now k 0 }
{
    table.get(k).copied().unwrap_or(0)
}

// How many parameters a procedure has, and 0 where there is no such procedure.
pub fn count_of(counts: &[u16], procedure: Procedure) -> u16
    ensures { result ≡ count_of counts.now procedure.0 }
{
    number_at(counts, procedure.number())
}

// Row k of an input type.
pub fn input_row_at(rows: &[u16], k: usize) -> InputRow
    requires { k < input_row_count rows.now }
    ensures { input_row_of result ≡ input_row rows.now k }
{
    InputRow {
        state: InputState(rows[4 * k]),
        symbol: Symbol(rows[4 * k + 1]),
        left: InputState(rows[4 * k + 2]),
        right: InputState(rows[4 * k + 3]),
    }
}

// The state at place k of an output table.
pub fn output_state_at(table: &[u16], k: usize) -> OutputState
    requires { k < length table.now }
    ensures { result.0 ≡ get_or table.now k 0 }
{
    OutputState(table[k])
}

// Expression node k.
pub fn node_at(nodes: &[u16], k: usize) -> Node
    requires { k < node_count nodes.now }
    ensures { node_of result ≡ node_at nodes.now k }
{
    Node {
        tag: nodes[5 * k],
        name: nodes[5 * k + 1],
        child: nodes[5 * k + 2],
        first: nodes[5 * k + 3],
        second: nodes[5 * k + 4],
    }
}

// How many smaller nodes a node refers to.
pub fn reference_count(counts: &[u16], node: Node) -> u16
    ensures { result ≡ references counts.now (node_of node) }
{
    if node.tag == 1 {
        if node.name == 0 {
            return 0;
        }
        return 2;
    }
    if node.tag == 2 {
        return count_of(counts, Procedure(node.name));
    }
    0
}

// Rule k.
pub fn rule_at(rules: &[u16], k: usize) -> Rule
    requires { k < rule_count rules.now }
    ensures { rule_of result ≡ rule_at rules.now k }
{
    Rule {
        procedure: Procedure(rules[3 * k]),
        symbol: Symbol(rules[3 * k + 1]),
        node: rules[3 * k + 2],
    }
}

// Row k of a table of rows.
pub fn row_at(rows: &[u16], k: usize) -> Row
    requires { k < row_count rows.now }
    ensures { row_of result ≡ row_at rows.now k }
{
    Row {
        symbol: Symbol(rows[3 * k]),
        left: rows[3 * k + 1],
        right: rows[3 * k + 2],
    }
}
